// What a line says: a letter, and fields of a comma and a number each.
ghost use Rattle.std.specs.Prelude.{◌≤◌, ◌<◌, length};
ghost use Rattle.command.specs.Commands.{longest_line, Says};
ghost use Rattle.command.specs.Reads.{IsReadField, IsReadFields, IsCommandOf};

use crate::Command;
use crate::numbers::{Numeral, read_number};

// The most bytes of a command's line, and the most numbers.
const LONGEST_LINE: usize = 63;

const MOST_FIELDS: usize = 4;

// The numbers of a line's fields: the first `count` values, in an array of as many as a command has at most.
#[derive(Clone, Copy)]
struct Fields {
    count: usize,
    values: [u32; MOST_FIELDS],
}

// The number of the field that begins at a place of the line.
fn read_field(line: &[u8], at: usize) -> Option<Numeral>
    requires { at < length line.now }
    ensures { IsReadField line.now at result }
{
    if line[at] != b',' {
        return None;
    }
    read_number(&line[at + 1..])
}

// The numbers of all fields of a line: each is read where the one before it ends, so a place is moved on by what was read.
fn read_fields(line: &[u8]) -> Option<Fields>
    requires { (1 ≤ length line.now) × (length line.now ≤ longest_line) }
    ensures { IsReadFields line.now result }
{
    let mut values = [0; MOST_FIELDS];
    let mut count = 0;
    let mut at = 1;
    while at < line.len() {
        if count == MOST_FIELDS {
            return None;
        }
        let number = read_field(line, at)?;
        values[count] = number.value;
        count += 1;
        at += 1 + number.taken;
    }
    Some(Fields { count, values })
}

// The command of a letter and numbers.
fn command_of(letter: u8, numbers: &[u32]) -> Option<Command>
    ensures { IsCommandOf letter numbers.now result }
{
    match (letter, numbers) {
        (b'O', &[slots, frame, gap, last]) => Some(Command::Open(slots, frame, gap, last)),
        (b'A', &[id, start, period, deadline]) => Some(Command::Add(id, start, period, deadline)),
        (b'D', &[id]) => Some(Command::Remove(id)),
        (b'R', []) => Some(Command::Round),
        _ => None,
    }
}

// The command that a line says; a malformed line says none.
pub fn parse(line: &[u8]) -> Option<Command>
    ensures { Says line.now result }
{
    if line.is_empty() || LONGEST_LINE < line.len() {
        return None;
    }
    let fields = read_fields(line)?;
    command_of(line[0], &fields.values[..fields.count])
}
