// Whether a planner is sound, and its next start if it is.
ghost use Rattle.basics.specs.Decides.{Decides};
ghost use Rattle.state.specs.Needs.{HasNumbers, CanCompare, IsFiled, IsSoundStart};

use super::Planner;
use super::opening::open_refusal;
use basics::MOST_WAITING;
use queue::Queue;
use table::{Record, Table};

impl Planner {
    // Whether B, F, G, L, the flag and what waits are in range, on any value whatever.
    #[tactic(auto, using(crate::proofs::Tests::number_tests))]
    fn has_numbers(&self) -> bool
        ensures { Decides result (HasNumbers self.now) }
    {
        // As a slice, whose length a proof knows: of an array in a struct behind a reference it has no such fact.
        let _numbers: &[u16] = &self.waiting.numbers;
        open_refusal(&self.setting, self.last).is_ok()
            && messages::in_range(self.waiting, MOST_WAITING * self.setting.messages)
    }
}

// Whether the queue is sound and files exactly the streams of the table. Ids are looked up by halving: the table has them in ascending order.
fn is_filed_in_range(table: &Table, queue: &Queue) -> bool
    requires { CanCompare table.now }
    ensures { Decides result (IsFiled table.now queue.now) }
{
    // As a slice, whose length a proof knows: of an array in a struct behind a reference it has no such fact.
    let _places: &[Record] = &table.streams;
    let ids = table.ids_in_range();
    let dues = table.column_in_range(0, |stream| stream.release + stream.deadline);
    let releases = table.column_in_range(0, |stream| stream.release);
    queue.is_sound_filing_in_range(&ids, &dues, &releases, table.count)
}

// The planner's next start by the lazy rule, if it is sound, on any value whatever.
#[tactic(auto, using(crate::proofs::Facts::SoundTest::start_tests))]
pub fn sound_start(p: &Planner) -> Option<u32>
    ensures { IsSoundStart p.now result }
{
    if !p.has_numbers() {
        return None;
    }
    let now = p.last + 1;
    if !p.table.in_range(p.setting.frame, now) || !is_filed_in_range(&p.table, &p.queue) {
        return None;
    }
    let slots = p.setting.stream_slots();
    let busy = table::busy_length_in_range(&p.table, slots, p.setting.frame)?;
    // The gap runs from the end of the last round, which is now. The sum is at most 1,000,000,256.
    table::next_start_in_range(&p.table, slots, now, now + p.setting.gap, busy)
}
