// Columns of a table: one value of each stream, such as its due time, at its place.
ghost use Rattle.std.specs.Prelude.{◌≡◌, ℕ, ◌≤◌, ◌<◌, slice_index_or};
ghost use Rattle.basics.specs.Limits.{places};
ghost use Rattle.table.specs.Table.{record_at};
ghost use Rattle.table.specs.Needs.{EachRecord};
ghost use Rattle.table.specs.Ids.{IsIds};

use super::{Record, Table};

impl Table {
    // One value of each stream, at its place, and `none` at the free ones. By index: with `zip` the loop goes by the iterator, and six goals stayed
    // open that close by index.
    pub fn column_in_range<T: Copy, F: Fn(Record) -> T>(&self, none: T, value: F) -> [T; 64]
        requires count { self.now.count ≤ places }
        requires defined { EachRecord (F.pre value) self.now }
        ensures held { (k : ℕ) → k < self.now.count → F.post value (record_at self.now k) (slice_index_or result k none) }
        ensures free { (k : ℕ) → self.now.count ≤ k → slice_index_or result k none ≡ none }
    {
        let mut values = [none; 64];
        for (i, stream) in self.records().iter().enumerate() {
            values[i] = value(*stream);
        }
        values
    }

    // The ids at their places, and a number above every id at the free ones, so that all 64 rise.
    pub fn ids_in_range(&self) -> [u32; 64]
        requires { self.now.count ≤ places }
        ensures { IsIds self.now result }
    {
        self.column_in_range(u32::MAX, |stream| stream.id)
    }
}
