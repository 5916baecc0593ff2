// Whether places hold just the rows of key, release and id that they are compared with, in one pass over them.
ghost use Rattle.std.specs.Prelude.{◌≡◌, ◌<◌, MatchOption};
ghost use Rattle.basics.specs.Decides.{Decides};
ghost use Rattle.basics.specs.Limits.{places};
ghost use Rattle.places.specs.Lent.{as_entry, row_in, CanFileRows, IsRowAt, IsNoRowAt, FileRows};

use crate::{Entry, Places};
use basics::{PLACES, place_among_rising};

// Rows of key, release and id in ascending id, the first `count` of 64, lent column by column. Ids have 32 bits here and 16 at places: a table's
// rise past its streams to numbers that no id has (`CanFile`). The look-up by halving goes over all 64 ids and no slice of `count`, so that its steps
// are fixed in number.
#[derive(Clone, Copy)]
pub struct Rows<'a> {
    pub ids: &'a [u32; 64],
    pub keys: &'a [u32; 64],
    pub releases: &'a [u32; 64],
    pub count: usize,
}

impl Rows<'_> {
    fn row(self, i: usize) -> Entry
        requires { i < places }
        ensures { as_entry result ≡ row_in self.entry i }
    {
        Entry {
            key: self.keys[i],
            release: self.releases[i],
            id: self.ids[i],
        }
    }
}

impl Places<'_> {
    // Which of the rows stands at place x.
    fn row_at(self, rows: Rows, x: usize) -> Option<usize>
        requires small { x < places }
        requires can_file { CanFileRows rows }
        ensures { MatchOption result (IsNoRowAt self.entry rows.entry x) (IsRowAt self.entry rows.entry x) }
    {
        let entry = self.entry_at(x);
        let i = place_among_rising(rows.ids, entry.id);
        if i < rows.count && rows.row(i) == entry {
            return Some(i);
        }
        None
    }

    // Whether the places hold just these rows, each once: every place holds one that no earlier place has, and as many are met.
    pub fn file_in_range(self, rows: Rows) -> bool
        requires { CanFileRows rows }
        ensures { Decides result (FileRows self.entry rows.entry) }
    {
        let mut met = [false; 64];
        let mut n: usize = 0;
        for x in 0..PLACES {
            if 0 < self.ids[x] {
                let Some(i) = self.row_at(rows, x) else {
                    return false;
                };
                if met[i] {
                    return false;
                }
                met[i] = true;
                n += 1;
            }
        }
        n == rows.count
    }
}
