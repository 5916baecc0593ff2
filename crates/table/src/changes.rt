// The table's changes: a stream put in, one taken out, and one served.
ghost use Rattle.std.specs.Prelude.{◌≡◌, ◌≤◌};
ghost use Rattle.basics.specs.Decides.{Decides};
ghost use Rattle.basics.specs.Limits.{longest_period, largest_key};
ghost use Rattle.table.specs.Table.{records_of, no_record};
ghost use Rattle.table.specs.Changes.{HasId, put_by_id, without_id, sent};
ghost use Rattle.table.specs.Needs.{HasRecords, CanSearch, CanPut, CanTakeOut};
ghost use Rattle.table.specs.Places.{IsPlaceFor, CanOpen, opened, CanClose, closed};

use super::{Record, Table};

// What a free place has: zeros.
pub fn no_record() -> Record
    ensures { result ≡ no_record }
{
    Record {
        id: 0,
        period: 0,
        deadline: 0,
        release: 0,
    }
}

impl Record {
    // The stream at its next packet.
    pub fn at_next_packet_in_range(&self) -> Record
        requires { (self.now.release ≤ largest_key) × (self.now.period ≤ longest_period) }
        ensures { result ≡ sent self.now }
    {
        Record {
            release: self.release + self.period,
            ..*self
        }
    }
}

impl Table {
    // The place for an id, found by halving.
    fn place_for_in_range(&self, id: u32) -> usize
        requires { CanSearch self.now }
        ensures { IsPlaceFor self.now id result }
    {
        self.records().partition_point(|stream| stream.id < id)
    }

    // Whether a stream has the id.
    pub fn has_id_in_range(&self, id: u32) -> bool
        requires { CanSearch self.now }
        ensures { Decides result (HasId id (records_of self.now)) }
    {
        let place = self.place_for_in_range(id);
        place < self.count && self.streams[place].id == id
    }

    // The place falls free and the later streams move one place down.
    fn close_in_range(&mut self, place: usize)
        requires { CanClose self.old place }
        ensures { HasRecords (closed place (records_of self.old)) self.new }
    {
        self.streams.copy_within(place + 1..self.count, place);
        self.count -= 1;
        self.streams[self.count] = no_record();
    }

    // The stream of an id is taken out; the place that falls free gets zeros.
    pub fn take_out_in_range(&mut self, id: u32)
        requires { CanTakeOut self.old id }
        ensures { HasRecords (without_id id (records_of self.old)) self.new }
    {
        let place = self.place_for_in_range(id);
        self.close_in_range(place);
    }

    // The streams from the place on move one place up and the stream goes there.
    fn open_in_range(&mut self, place: usize, stream: Record)
        requires { CanOpen self.old place }
        ensures { HasRecords (opened place stream (records_of self.old)) self.new }
    {
        self.streams.copy_within(place..self.count, place + 1);
        self.streams[place] = stream;
        self.count += 1;
    }

    // A stream is put at its place by ascending id.
    pub fn put_in_range(&mut self, stream: Record)
        requires { CanPut self.old stream.id }
        ensures { HasRecords (put_by_id stream (records_of self.old)) self.new }
    {
        let place = self.place_for_in_range(stream.id);
        self.open_in_range(place, stream);
    }
}
