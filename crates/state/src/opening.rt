// Opening: the planner with no stream, and what is refused.
ghost use Rattle.std.specs.Prelude.{◌≡◌};
ghost use Rattle.basics.specs.Decides.{Decides};
ghost use Rattle.basics.specs.Refusals.{answer_of};
ghost use Rattle.basics.specs.Answers.{answer};
ghost use Rattle.state.specs.Sound.{HasSlots};
ghost use Rattle.state.specs.Open.{setting, open_refusals, IsFresh, IsOpened};

use super::{Changed, Planner, Setting};
use basics::{LAST_START, LONGEST_FRAME, LONGEST_GAP, MOST_SLOTS, Refusal, answer, is_one_to};
use table::Table;

// A planner with no stream.
fn without_streams(setting: Setting, last: u32) -> Planner
    ensures { IsFresh setting last result }
{
    Planner {
        setting,
        last,
        waiting: messages::none(),
        table: Table {
            count: 0,
            streams: [table::no_record(); 64],
        },
        queue: queue::empty(),
    }
}

impl Setting {
    // Whether the flag is 0 or 1, and B at most 64 and above the flag: a slot is left for streams.
    fn has_slots(&self) -> bool
        ensures { Decides result (HasSlots self.now) }
    {
        self.messages <= 1 && 1 <= self.stream_slots() && self.slots <= MOST_SLOTS
    }
}

// What open refuses of these values, also where they are those of a planner.
#[tactic(auto, using(crate::proofs::Tests::open_tests))]
pub fn open_refusal(setting: &Setting, last: u32) -> Result<(), Refusal>
    ensures { answer result ≡ answer_of (open_refusals setting.now last) }
{
    if !setting.has_slots() {
        return Err(Refusal::BadSlots);
    }
    if !is_one_to(setting.frame, LONGEST_FRAME) {
        return Err(Refusal::BadFrame);
    }
    if !is_one_to(setting.gap, LONGEST_GAP) {
        return Err(Refusal::BadGap);
    }
    if LAST_START < last {
        return Err(Refusal::BadLast);
    }
    Ok(())
}

// A refused opening gives the closed planner: every number 0, nothing that waits, no stream, an empty queue.
fn open_with(setting: Setting, last: u32) -> Changed
    ensures { IsOpened setting last result }
{
    let zeros = Setting {
        slots: 0,
        frame: 0,
        gap: 0,
        messages: 0,
    };
    let outcome = open_refusal(&setting, last);
    let (kept, start) = match outcome {
        Ok(()) => (setting, last),
        Err(_) => (zeros, 0),
    };
    Changed {
        answer: answer(outcome),
        planner: without_streams(kept, start),
    }
}

// Annex 7.5 to 7.9: opens a planner with these numbers; messages are off for 0, and on for any other number.
#[tactic(auto, using(crate::proofs::Tests::flag_is))]
pub fn open(slots: u32, frame: u32, gap: u32, last: u32, messages: u32) -> Changed
    ensures { IsOpened (setting slots frame gap messages) last result }
{
    let setting = Setting {
        slots,
        frame,
        gap,
        messages: u32::from(messages != 0),
    };
    open_with(setting, last)
}
