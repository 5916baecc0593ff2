// Whether a table is in range, on any value whatever: no sum is formed that could overflow.
ghost use Rattle.basics.specs.Decides.{Decides};
ghost use Rattle.table.specs.Range.{RecordInRange, TableInRange};
ghost use Rattle.table.specs.RangeTests.{DueAfterNow, ReleasedSoon, IsNear, CanFollow};

use super::{Record, Table};
use basics::{FURTHEST_RELEASE, LARGEST_ID, LONGEST_PERIOD, PLACES, is_one_to};

impl Record {
    fn in_range(&self, frame: u32) -> bool
        ensures { Decides result (RecordInRange frame self.now) }
    {
        is_one_to(self.id, LARGEST_ID)
            && is_one_to(self.period, LONGEST_PERIOD)
            && frame.is_multiple_of(self.period)
            && is_one_to(self.deadline, self.period)
    }

    // Release and deadline are not added up: a release after now is enough.
    fn is_due_after(&self, now: u32) -> bool
        ensures { Decides result (DueAfterNow now self.now) }
    {
        now < self.release || now - self.release < self.deadline
    }

    fn is_released_soon(&self, now: u32) -> bool
        ensures { Decides result (ReleasedSoon now self.now) }
    {
        self.release.saturating_sub(FURTHEST_RELEASE) <= now
    }

    fn is_near(&self, now: u32) -> bool
        ensures { Decides result (IsNear now self.now) }
    {
        self.is_due_after(now) && self.is_released_soon(now)
    }

    // Whether a stream is in range and near, and its id is greater than the one before.
    fn can_follow(&self, before: u32, frame: u32, now: u32) -> bool
        ensures { Decides result (CanFollow frame now before self.now) }
    {
        before < self.id && self.in_range(frame) && self.is_near(now)
    }
}

impl Table {
    // Whether the table's count, its streams, and the unserved packets they hold are in range, on any value whatever.
    pub fn in_range(&self, frame: u32, now: u32) -> bool
        ensures { Decides result (TableInRange frame now self.now) }
    {
        if PLACES < self.count {
            return false;
        }
        let mut before: u32 = 0;
        for stream in self.records() {
            if !stream.can_follow(before, frame, now) {
                return false;
            }
            before = stream.id;
        }
        true
    }
}
