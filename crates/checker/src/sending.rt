// The streams that a foreign plan has led to, which need not be those of a sound planner, and the slots of a round sent on them one after the other.
ghost use Rattle.std.specs.Prelude.{◌≡◌, ◌≤◌, length};
ghost use Rattle.basics.specs.Decides.{Decides};
ghost use Rattle.basics.specs.Limits.{places, last_start};
ghost use Rattle.table.specs.Table.{records_of};
ghost use Rattle.checker.specs.Needs.{CanShow, IsRowOf, IsSentOne, IsSentAll, NoneDue};

use super::round_rules::Rule;
use round_tests::{none_by_in_range, rides};
use std::marker::Model;
use table::{Record, Table};

// The records in columns, of which only the due times change, so that many of these are compared at once; fixed arrays, since there is no heap. The
// hints say where ids may be: at an id's remainder by 1,024 the row of one that has it. Any hint is right, and a good one is quick.
#[derive(Drop)]
pub struct Streams {
    count: usize,
    ids: [u32; 64],
    periods: [u32; 64],
    deadlines: [u32; 64],
    dues: [u32; 64],
    hints: [u8; 1024],
}

impl Model for Streams {
    ghost use Rattle.std.specs.Prelude.{List};
    ghost use Rattle.table.specs.declared.Record.{Record};

    ghost Value = { List Record };

    ghost use Rattle.checker.specs.Columns.{records_in, AreColumns};

    ghost view = { records_in };

    ghost invariant = { AreColumns };
}

// Hints for ids in their places.
fn hints_of(ids: &[u32]) -> [u8; 1024]
    requires { length ids.now ≤ places }
{
    let mut hints = [0u8; 1024];
    for (place, id) in ids.iter().enumerate() {
        hints[(*id % 1024) as usize] = place as u8;
    }
    hints
}

impl Streams {
    // The streams of a table.
    pub fn of_table(table: &Table) -> Streams
        requires { CanShow table.now }
        ensures { result ≡ records_of table.now }
    {
        // As a slice, whose length a proof knows.
        let _places: &[Record] = &table.streams;
        let ids = table.ids_in_range();
        let hints = hints_of(&ids[..table.count]);
        Streams {
            count: table.count,
            ids,
            periods: table.column_in_range(0, |stream| stream.period),
            deadlines: table.column_in_range(0, |stream| stream.deadline),
            dues: table.column_in_range(0, |stream| stream.release + stream.deadline),
            hints,
        }
    }

    // The row that the id has: where a hint says, or else found by halving.
    fn row_of(&self, number: u16) -> Option<usize>
        ensures { IsRowOf self.now number result }
    {
        let id = u32::from(number);
        let hinted = usize::from(self.hints[(id % 1024) as usize] % 64);
        if self.ids[hinted] == id {
            return Some(hinted);
        }
        let row = basics::place_among_rising(&self.ids, id);
        if self.ids[row] != id {
            return None;
        }
        Some(row)
    }

    // One slot: the id is held and its packet may ride; its stream passes to the next packet.
    fn send(&mut self, number: u16, start: u32) -> Result<(), Rule>
        requires { start ≤ last_start }
        ensures { IsSentOne self.old self.new number start result }
    {
        let Some(row) = self.row_of(number) else {
            return Err(Rule::Slots);
        };
        let due = self.dues[row];
        if !rides(due, self.deadlines[row], start) {
            return Err(Rule::Slots);
        }
        self.dues[row] = due + self.periods[row];
        Ok(())
    }

    // All slots, in their order.
    pub fn send_all(&mut self, listed: &[u16], start: u32) -> Result<(), Rule>
        requires { start ≤ last_start }
        ensures { IsSentAll self.old self.new listed.now start result }
    {
        for number in listed {
            self.send(*number, start)?;
        }
        Ok(())
    }

    // Whether no stream's next packet is due by the end of a round.
    pub fn none_due_by(&self, end: u32) -> bool
        ensures { Decides result (NoneDue end self.now) }
    {
        none_by_in_range(&self.dues, self.count, end)
    }
}
