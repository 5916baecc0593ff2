// What the planner answers to a command, as lines of a letter and numbers.
ghost use Rattle.std.specs.Prelude.{◌≡◌, Some, None, ℕ, [], ◌∷◌, ◌≤◌, length, take};
ghost use Rattle.basics.specs.Limits.{most_slots};
ghost use Rattle.state.specs.Open.{setting};
ghost use Rattle.planner.specs.AddRemove.{offer};
ghost use Rattle.command.specs.Text.{letter_R};
ghost use Rattle.command.specs.Puts.{lines_of, AreFew, most_numbers};
ghost use Rattle.command.specs.Answers.{Gives, IsOpenGiven, IsAddGiven, IsRemoveGiven, IsRoundGiven, IsAnswered};

use super::Command;
use super::print::Lines;
use basics::Refusal;
use planner::Planner;

// The planner after a command, and the lines to be written.
#[derive(Clone, Copy)]
pub struct Answered {
    pub planner: Planner,
    pub lines: Lines,
}

// A planner, and one line of a letter and a few numbers.
fn line_of_few(planner: Planner, letter: u8, numbers: &[u64]) -> Answered
    requires { length numbers.now ≤ most_numbers }
    ensures { Gives planner ((letter, numbers.now) ∷ []) result }
{
    let lines = Lines::of_few(letter, numbers);
    Answered { planner, lines }
}

fn opened(slots: u32, frame: u32, gap: u32, last: u32) -> Answered
    ensures { IsOpenGiven (setting slots frame gap 0) last result }
{
    let done = planner::open(slots, frame, gap, last, 0);
    line_of_few(done.planner, b'O', &[u64::from(done.answer)])
}

fn added(planner: &Planner, id: u32, start: u32, period: u32, deadline: u32) -> Answered
    ensures { IsAddGiven planner.now (offer id start period deadline) result }
{
    let done = planner::add(*planner, id, start, period, deadline);
    let numbers = [u64::from(id), u64::from(done.answer)];
    line_of_few(done.planner, b'A', &numbers)
}

fn removed(planner: &Planner, id: u32) -> Answered
    ensures { IsRemoveGiven planner.now id result }
{
    let done = planner::remove(*planner, id);
    let numbers = [u64::from(id), u64::from(done.answer)];
    line_of_few(done.planner, b'D', &numbers)
}

// A held round's line: 0, its start, n, and the ids.
fn held(start: u32, n: u32, ids: &[u16; 64]) -> Lines
    requires { n ≤ most_slots }
    ensures its_lines { lines_of result ≡ (letter_R, 0 ∷ start ∷ n ∷ take n ids.now) ∷ [] }
    ensures few { AreFew result }
{
    let mut lines = Lines::of_few(b'R', &[0, u64::from(start), u64::from(n)]);
    for id in &ids[..n as usize] {
        lines.push_in_range(u64::from(*id));
    }
    lines
}

// A round: its ids are taken from a buffer of 64 places, which is never too short.
fn rounded(planner: &Planner) -> Answered
    ensures { IsRoundGiven planner.now result }
{
    let mut ids = [0u16; 64];
    let done = planner::round(*planner, &mut ids);
    if done.answer != 0 {
        return line_of_few(done.planner, b'R', &[u64::from(done.answer)]);
    }
    let lines = held(done.start, done.n, &ids);
    Answered {
        planner: done.planner,
        lines,
    }
}

// What the planner answers to a command; it is the same whatever the number of its line.
pub fn answer(planner: &Planner, command: Command) -> Answered
    ensures { (number : ℕ) → IsAnswered planner.now number (Some command) result }
{
    match command {
        Command::Open(slots, frame, gap, last) => opened(slots, frame, gap, last),
        Command::Add(id, start, period, deadline) => added(planner, id, start, period, deadline),
        Command::Remove(id) => removed(planner, id),
        Command::Round => rounded(planner),
    }
}

// What is answered to a malformed line, of this number.
pub fn malformed(planner: Planner, number: u64) -> Answered
    ensures { IsAnswered planner number None result }
{
    line_of_few(
        planner,
        b'E',
        &[u64::from(u32::from(Refusal::Malformed)), number],
    )
}
