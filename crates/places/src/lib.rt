// Entries at 64 places, as columns of ids, keys and releases, id 0 where a place is free: where an id is, whether a key fits beside the others,
// whether the places are within the bounds of a queue, and whether they hold just the rows that they are compared with.
// How a queue finds its entries in order, by links or otherwise, is no matter here.
#![tactic(auto)]

ghost use Rattle.std.specs.Prelude.{◌≡◌, ◌<◌};
ghost use Rattle.basics.specs.Limits.{places};
ghost use Rattle.places.specs.Lent.{as_entry, entry_in};

pub use changes::{first_free, place_holding, place_of};
pub use filing::Rows;

mod changes;
mod filing;
mod soundness;

// An id filed under a key, with a release. Entries stand by key, then release, then id, which is the order of the fields.
#[derive(Clone, Copy, PartialEq, Eq, PartialOrd, Ord)]
pub struct Entry {
    pub key: u32,
    pub release: u32,
    pub id: u32,
}

// The entries at 64 places, lent column by column.
#[derive(Clone, Copy)]
pub struct Places<'a> {
    pub ids: &'a [u16; 64],
    pub keys: &'a [u32; 64],
    pub releases: &'a [u32; 64],
}

impl Places<'_> {
    // What stands at place x, an entry unless the place is free.
    pub fn entry_at(self, x: usize) -> Entry
        requires { x < places }
        ensures { as_entry result ≡ entry_in self.entry x }
    {
        Entry {
            key: self.keys[x],
            release: self.releases[x],
            id: u32::from(self.ids[x]),
        }
    }
}
