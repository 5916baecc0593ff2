// Lines of a letter and numbers, and how they are written at the front of a lent buffer: each `put` answers how many bytes it wrote.
ghost use Rattle.std.specs.Prelude.{◌≡◌, [], ◌∷◌, ◌++◌, ◌+◌, ◌≤◌, ◌<◌, length, take};
ghost use Rattle.command.specs.Text.{IsNumeral, IsFields};
ghost use Rattle.command.specs.Puts.{IsPut, IsLine, AreLines, lines_of, AreFew, line_room, most_numbers, room};

// The most bytes that the answer to a line has, its ends counted.
pub const ROOM: usize = 1430;

// The most numbers of a line.
const MOST_NUMBERS: usize = 68;

// The lines of an answer: one, of a letter and the first `count` values. In an array, so that an answer is copied as a planner is: the kit's ArrayVec is
// no Copy type.
#[derive(Clone, Copy)]
pub struct Lines {
    pub letter: u8,
    pub values: [u64; MOST_NUMBERS],
    pub count: usize,
}

impl Lines {
    // The line of a letter and a few numbers.
    pub fn of_few(letter: u8, numbers: &[u64]) -> Lines
        requires { length numbers.now ≤ most_numbers }
        ensures its_lines { lines_of result ≡ (letter, numbers.now) ∷ [] }
        ensures count { result.count ≡ length numbers.now }
    {
        let mut lines = Lines {
            letter,
            values: [0; MOST_NUMBERS],
            count: 0,
        };
        for number in numbers {
            lines.push_in_range(*number);
        }
        lines
    }

    // One number more.
    pub fn push_in_range(&mut self, number: u64)
        requires { self.old.count < most_numbers }
        ensures letter { self.new.letter ≡ self.old.letter }
        ensures values { take self.new.count self.new.values ≡ take self.old.count self.old.values ++ (number ∷ []) }
        ensures count { self.new.count ≡ self.old.count + 1 }
    {
        self.values[self.count] = number;
        self.count += 1;
    }
}

// A number in decimal: the digits before the last one are those of a tenth of it.
// By hand, as `IsNumeral` states it (Annex 11.4): `write!` would need a writer of this buffer, and its error.
fn put_number_in_range(out: &mut [u8], value: u64) -> usize
    requires { 20 ≤ length out.old }
    ensures { IsPut (λ bytes. IsNumeral bytes value × (length bytes ≤ 20)) out.old out.new 0 result }
{
    if value < 10 {
        out[0] = b'0' + value as u8;
        return 1;
    }
    let written = put_number_in_range(out, value / 10);
    out[written] = b'0' + (value % 10) as u8;
    written + 1
}

// A comma and a number.
fn put_field_in_range(out: &mut [u8], value: u64) -> usize
    requires { 21 ≤ length out.old }
    ensures { IsPut (λ bytes. IsFields bytes (value ∷ []) × (length bytes ≤ 21)) out.old out.new 0 result }
{
    out[0] = b',';
    1 + put_number_in_range(&mut out[1..], value)
}

// A line of a letter and numbers, and its end.
fn put_line_in_range(out: &mut [u8], letter: u8, numbers: &[u64]) -> usize
    requires { line_room (length numbers.now) ≤ length out.old }
    ensures put { IsPut (IsLine letter numbers.now) out.old out.new 0 result }
    ensures upper_bound { result ≤ line_room (length numbers.now) }
{
    out[0] = letter;
    let mut written = 1;
    for number in numbers {
        written += put_field_in_range(&mut out[written..], *number);
    }
    out[written] = b'\n';
    written + 1
}

// The lines of an answer, one after the other.
#[tactic(auto, using(crate::proofs::Facts::Puts::put_one_line))]
pub fn put_lines_in_range(out: &mut [u8], lines: Lines) -> usize
    requires { AreFew lines × (room ≤ length out.old) }
    ensures put { IsPut (AreLines (lines_of lines)) out.old out.new 0 result }
    ensures upper_bound { result ≤ room }
{
    put_line_in_range(out, lines.letter, &lines.values[..lines.count])
}
