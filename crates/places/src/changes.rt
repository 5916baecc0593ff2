// What a change looks for among the places: where an id is, and whether a key fits beside the others.
ghost use Rattle.std.specs.Prelude.{◌≤◌, ◌<◌, MatchOption};
ghost use Rattle.basics.specs.Decides.{Decides};
ghost use Rattle.basics.specs.Limits.{places};
ghost use Rattle.places.specs.Changes.{IsPlaceOf, IsNowhere, PlaceFits, KeyFits};

use crate::Places;
use basics::{KEY_SPAN_64, LARGEST_KEY_64, PLACES};

// The place of an id.
pub fn place_of(ids: &[u16; 64], id: u32) -> Option<usize>
    ensures { MatchOption result (IsNowhere ids.now id) (IsPlaceOf ids.now id) }
{
    ids.iter().position(|there| u32::from(*there) == id)
}

// The first free place: there the id is 0.
pub fn first_free(ids: &[u16; 64]) -> Option<usize>
    ensures { MatchOption result (IsNowhere ids.now 0) (IsPlaceOf ids.now 0) }
{
    place_of(ids, 0)
}

// The place that holds an id; id 0 stands at free places, so none holds it.
pub fn place_holding(ids: &[u16; 64], id: u32) -> Option<usize>
    ensures { MatchOption result (1 ≤ id → IsNowhere ids.now id) (λ i. (1 ≤ id) × IsPlaceOf ids.now id i) }
{
    if id < 1 {
        return None;
    }
    place_of(ids, id)
}

impl Places<'_> {
    // Whether the key at place i leaves `key` within the span.
    fn fits_at(self, out: Option<usize>, key: u64, i: usize) -> bool
        requires { i < places }
        ensures { Decides result (PlaceFits self.entry.ids.now self.entry.keys.now out key i) }
    {
        out == Some(i) || self.ids[i] < 1 || key.abs_diff(u64::from(self.keys[i])) <= KEY_SPAN_64
    }

    // Whether a key is within the bounds beside the entries at all places but `out`.
    pub fn key_fits(self, out: Option<usize>, key: u64) -> bool
        ensures { Decides result (KeyFits self.entry.ids.now self.entry.keys.now out key) }
    {
        key <= LARGEST_KEY_64 && (0..PLACES).all(|i| self.fits_at(out, key, i))
    }
}
