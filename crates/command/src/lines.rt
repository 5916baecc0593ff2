// Lines cut from a piece of input, one after the other.
ghost use Rattle.std.specs.Prelude.{◌≡◌, ◌==◌, ◌≤◌, length, position};
ghost use Rattle.command.specs.Lines.{IsLineEnd};
ghost use Rattle.command.specs.Runs.{CanRun, HasRun, HasRunLast};

use super::print::ROOM;
use super::step::step_in_range;
use planner::Planner;

// What has been reached: the planner, how many lines there were, the place in the input, and the place after what was written. Places are numbers, since
// the contracts of `HasRun` and `IsStep` speak of them over whole buffers (Annex 11.24).
#[derive(Clone, Copy)]
pub struct Reached {
    pub planner: Planner,
    pub number: u64,
    pub from: usize,
    pub end: usize,
}

// The place of the first byte 10, if there is one.
fn first_end(bytes: &[u8]) -> Option<usize>
    ensures { result ≡ position (λ byte. byte == 10) bytes.now }
{
    bytes.iter().position(|byte| *byte == b'\n')
}

// The place of the first byte 10 from `from` on, or the length where there is none, since a line ends there too (Annex 11.1, `IsLineEnd`).
pub fn line_end_in_range(bytes: &[u8], from: usize) -> usize
    requires { from ≤ length bytes.now }
    ensures { IsLineEnd bytes.now from result }
{
    match first_end(&bytes[from..]) {
        Some(before) => from + before,
        None => bytes.len(),
    }
}

// Whole lines from `from` on, one after the other, until none is left or the buffer may be too short for the next answer.
// A loop over places: an iterator over lines gives what no line end follows too, and keeps no place at which the caller goes on.
pub fn run_lines_in_range(start: Reached, bytes: &[u8], out: &mut [u8]) -> Reached
    requires { CanRun start bytes.now out.old }
    ensures { HasRun start bytes.now out.old out.new result }
{
    let mut reached = start;
    while reached.from < bytes.len() {
        let to = line_end_in_range(bytes, reached.from);
        if to == bytes.len() || out.len() - reached.end < ROOM {
            break;
        }
        let number = reached.number + 1;
        let line = &bytes[reached.from..to];
        let step = step_in_range(reached.planner, number, line, out, reached.end);
        reached = Reached {
            planner: step.planner,
            number,
            from: to + 1,
            end: step.end,
        };
    }
    reached
}

// The bytes after the last line end are a line too, if there are any and the buffer has room for its answer.
pub fn run_last_in_range(start: Reached, bytes: &[u8], out: &mut [u8]) -> Reached
    requires { CanRun start bytes.now out.old }
    ensures { HasRunLast start bytes.now out.old out.new result }
{
    if start.from == bytes.len() || out.len() - start.end < ROOM {
        return start;
    }
    let number = start.number + 1;
    let step = step_in_range(start.planner, number, &bytes[start.from..], out, start.end);
    Reached {
        planner: step.planner,
        number,
        from: bytes.len(),
        end: step.end,
    }
}
