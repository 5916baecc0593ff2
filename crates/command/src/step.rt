// One line of the command program.
ghost use Rattle.std.specs.Prelude.{◌+◌, ◌≤◌, length};
ghost use Rattle.command.specs.Step.{IsStep};
ghost use Rattle.command.specs.Puts.{room};

use super::answers::{answer, malformed};
use super::print::put_lines_in_range;
use super::reading::parse;
use planner::Planner;

// The planner after a line, and the place after what was written, as a number: `IsStep` speaks of it over the whole buffer (Annex 11.21).
#[derive(Clone, Copy)]
pub struct Step {
    pub planner: Planner,
    pub end: usize,
}

// What a line says is done, and the answer is written into the buffer from `at` on. `number` is that of the line, from 1.
pub fn step_in_range(planner: Planner, number: u64, line: &[u8], out: &mut [u8], at: usize) -> Step
    requires { at + room ≤ length out.old }
    ensures { IsStep planner number line.now out.old out.new at result }
{
    let answered = match parse(line) {
        Some(command) => answer(&planner, command),
        None => malformed(planner, number),
    };
    let written = put_lines_in_range(&mut out[at..], answered.lines);
    Step {
        planner: answered.planner,
        end: at + written,
    }
}
