// What a planner holds, whether it is sound, and opening one.
#![tactic(auto)]

ghost use Rattle.std.specs.Prelude.{◌≡◌, ◌-◌};

use messages::Waiting;
pub use opening::open;
use queue::Queue;
pub use soundness::sound_start;
use table::Table;

mod opening;
mod soundness;

// What opening sets, and nothing changes later: B, F and G, and 1 with messages on, 0 with them off.
// The C interface: the header's struct planner begins with the same numbers in the same order.
#[repr(C)]
#[derive(Clone, Copy)]
pub struct Setting {
    pub slots: u32,
    pub frame: u32,
    pub gap: u32,
    pub messages: u32,
}

impl Setting {
    // The slots that a round has for streams: one is kept free with messages on.
    pub fn stream_slots(&self) -> u32
        ensures { result ≡ self.now.slots - self.now.messages }
    {
        self.slots.saturating_sub(self.messages)
    }
}

// The setting and L, the messages that wait, the streams in ascending id, and the queue that files them under their due times.
// The C interface: the header's struct has the same fields in the same order, the setting's among them.
#[repr(C)]
#[derive(Clone, Copy)]
pub struct Planner {
    pub setting: Setting,
    pub last: u32,
    pub waiting: Waiting,
    pub table: Table,
    pub queue: Queue,
}

// What a change answers, and the planner after it.
// The answer is a number beside it, since a refused call hands its planner back too (Annex 7.3, 7.8; `IsOpened`, `IsChange`, theorem `same_outcomes`).
#[derive(Clone, Copy)]
pub struct Changed {
    pub answer: u32,
    pub planner: Planner,
}
