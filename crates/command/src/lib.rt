// The command program's lines: what a line of bytes says, what the planner answers to it, and how that is written.
#![tactic(auto)]

pub use lines::{Reached, line_end_in_range, run_last_in_range, run_lines_in_range};
pub use print::ROOM;
pub use script::{beginning, run_script};
pub use step::{Step, step_in_range};

mod answers;
mod lines;
mod numbers;
mod print;
mod reading;
mod script;
mod step;

// What a line says, unless it is malformed.
#[derive(Clone, Copy)]
pub enum Command {
    Open(u32, u32, u32, u32),
    Add(u32, u32, u32, u32),
    Remove(u32),
    Round,
}
