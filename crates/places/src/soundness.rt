// Whether entries at 64 places are within the bounds of a queue. Every loop runs over the places, so each test ends on any value whatever.
ghost use Rattle.std.specs.Prelude.{◌≤◌};
ghost use Rattle.basics.specs.Below.{Below};
ghost use Rattle.basics.specs.Decides.{Decides};
ghost use Rattle.basics.specs.Limits.{places, largest_id, largest_key};
ghost use Rattle.basics.specs.NewIds.{at, New};
ghost use Rattle.places.specs.Soundness.{KeyWithin, AllWithin, KeysWithin, IsLeast, ShortSpan, PlacesSound};

use crate::Places;
use basics::{KEY_SPAN, LARGEST_ID_16, LARGEST_KEY, PLACES, is_new_at};

// Whether a number is at most a bound; at a free place nothing is above it.
fn is_within(id: u16, value: u32, top: u32) -> bool
    ensures { Decides result (KeyWithin id value top) }
{
    id < 1 || value <= top
}

impl Places<'_> {
    // Whether no id is above 32,767.
    fn ids_in_range(self) -> bool
        ensures { Decides result (Below places (λ i. at self.entry.ids.now i ≤ largest_id)) }
    {
        let ids = self.ids; // A field that is a reference is not lent again.
        ids.iter().all(|id| *id <= LARGEST_ID_16)
    }

    // Whether no id stands at two places.
    fn ids_differ(self) -> bool
        ensures { Decides result (Below places (New (at self.entry.ids.now))) }
    {
        (0..PLACES).all(|i| is_new_at(self.ids, i))
    }

    // Whether no entry has a key above the one bound.
    fn keys_are_within(self, top: u32) -> bool
        ensures { Decides result (KeysWithin (at self.entry.ids.now) (at self.entry.keys.now) top) }
    {
        let (ids, keys) = (self.ids, self.keys);
        ids.iter()
            .zip(keys)
            .all(|(id, key)| is_within(*id, *key, top))
    }

    // Whether no entry has a release above its key.
    fn releases_are_within(self) -> bool
        ensures { Decides result (AllWithin (at self.entry.ids.now) (at self.entry.releases.now) (at self.entry.keys.now)) }
    {
        let (ids, releases, keys) = (self.ids, self.releases, self.keys);
        ids.iter()
            .zip(releases)
            .zip(keys)
            .all(|((id, release), key)| is_within(*id, *release, *key))
    }

    // The limit on keys where no place holds an entry, which leaves room for the span above it.
    pub fn least_key(self) -> u32
        ensures { IsLeast (at self.entry.ids.now) (at self.entry.keys.now) places result }
    {
        let (ids, keys) = (self.ids, self.keys);
        let mut least = LARGEST_KEY;
        for (id, key) in ids.iter().zip(keys) {
            if 0 < *id {
                least = least.min(*key);
            }
        }
        least
    }

    // No key may lie more than 479 above the least.
    fn span_is_short(self) -> bool
        requires { KeysWithin (at self.ids.now) (at self.keys.now) largest_key }
        ensures { Decides result (ShortSpan (at self.entry.ids.now) (at self.entry.keys.now)) }
    {
        self.keys_are_within(self.least_key() + KEY_SPAN)
    }

    // Whether ids are in range and differ, and keys and releases are within the bounds.
    pub fn are_sound(self) -> bool
        ensures { let p = self.entry in Decides result (PlacesSound (at p.ids.now) (at p.keys.now) (at p.releases.now)) }
    {
        self.ids_in_range()
            && self.ids_differ()
            && self.keys_are_within(LARGEST_KEY)
            && self.releases_are_within()
            && self.span_is_short()
    }
}
