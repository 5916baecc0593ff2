// A table of streams in ascending id, and the rules' tests on it. The planner above knows its table to be in range and calls the forms
// whose names end in _in_range.
#![tactic(auto)]

ghost use Rattle.std.specs.Prelude.{◌≡◌, ◌≤◌};
ghost use Rattle.basics.specs.Limits.{places};
ghost use Rattle.table.specs.Table.{records_of};

pub use changes::no_record;
pub use lengths::busy_length_in_range;
pub use start::next_start_in_range;

mod changes;
mod columns;
mod lengths;
mod range;
mod start;

// Annex 3.2: a stream's record: its id, P and D, and the release of its first unserved packet.
// The C interface: the header's struct has the same fields in the same order.
#[repr(C)]
#[derive(Clone, Copy)]
pub struct Record {
    pub id: u32,
    pub period: u32,
    pub deadline: u32,
    pub release: u32,
}

// The records are those in the first `count` places. That the count is at most 64 is no invariant: `in_range` tests it, of any value whatever (Annex 7.11).
// The C interface: the header's struct has the same fields in the same order.
#[repr(C)]
#[derive(Clone, Copy)]
pub struct Table {
    pub count: usize,
    pub streams: [Record; 64],
}

impl Table {
    // Annex 3.2: the records; the other places do not count.
    fn records(&self) -> &[Record]
        requires { self.now.count ≤ places }
        ensures { result.now ≡ records_of self.now }
    {
        &self.streams[..self.count]
    }
}
