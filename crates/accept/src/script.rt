// The planner that a script builds.
ghost use Rattle.std.specs.Prelude.{◌≡◌, MatchResult};
ghost use Rattle.accept.specs.Script.{IsPlannerOf, IsRun, IsUndone};

use command::{ROOM, line_end_in_range};
use planner::Planner;

// The number of a line that was not done, and the planner that it left; of these `IsUndone` speaks, which states which line ends a script (Annex 14.17).
#[derive(Clone, Copy)]
pub struct Undone {
    pub number: u64,
    pub planner: Planner,
}

// Whether an answer says that a line was done: of a round its first number is 0, of any other call its last. A malformed line is answered E.
// The text is read, since `step_in_range` hands back a planner and a text alone (Annex 11.21, `IsStep`).
fn is_done(answer: &[u8]) -> bool {
    if answer.len() < 4 {
        return false;
    }
    match answer {
        [b'E', ..] => false,
        [b'R', _, first, ..] => *first == b'0',
        [.., b',', b'0', _] => true,
        _ => false,
    }
}

// One line, as the command program makes it. What that would write is looked at here, and said on standard error where the line was not done.
fn with_line(rt: HostRuntime, planner: Planner, number: u64, line: &[u8]) -> Result<Planner, Undone>
    ensures { MatchResult result (IsRun planner number line.now) (λ undone. (undone.number ≡ number) × IsRun planner number line.now undone.planner) }
{
    let mut out = [0u8; ROOM];
    let step = command::step_in_range(planner, number, line, &mut out, 0);
    let answer = &out[..step.end];
    if is_done(answer) {
        return Ok(step.planner);
    }
    let _ = eprint!(rt;
        "accept: line {number} of the script is refused or malformed, and answered by "
    );
    let _ = rt.stderr().write_all(answer);
    Err(Undone {
        number,
        planner: step.planner,
    })
}

// The planner after all lines of a script. The first line that is not done ends it.
pub fn planner_of(rt: HostRuntime, script: &[u8]) -> Result<Planner, Undone>
    ensures { MatchResult result (IsPlannerOf script.now) (IsUndone script.now) }
{
    let mut planner = command::beginning().planner;
    let mut number: u64 = 0;
    let mut from: usize = 0;
    // Lines end where `line_end_in_range` says, of which the contract speaks; an iterator over lines would search for the ends in its own way.
    while from < script.len() {
        let to = line_end_in_range(script, from);
        number += 1;
        planner = with_line(rt, planner, number, &script[from..to])?;
        from = to + 1;
    }
    Ok(planner)
}
