// A whole script from memory.
ghost use Rattle.command.specs.Script.{IsBeginning, IsScript};

use super::lines::{Reached, run_last_in_range, run_lines_in_range};

// Where every run begins: the planner is closed, as a refused opening leaves it, until an O succeeds.
pub fn beginning() -> Reached
    ensures { IsBeginning result }
{
    Reached {
        planner: planner::open(0, 0, 0, 0, 0).planner,
        number: 0,
        from: 0,
        end: 0,
    }
}

// Runs a script and answers how many bytes it wrote. It stops before a line for whose answer fewer than 1,430 bytes are left.
pub fn run_script(script: &[u8], out: &mut [u8]) -> usize
    ensures { IsScript script.now out.old out.new result }
{
    let reached = run_lines_in_range(beginning(), script, out);
    let ended = run_last_in_range(reached, script, out);
    ended.end
}
