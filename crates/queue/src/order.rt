// All entries in order, in one walk over the buckets.
ghost use Rattle.std.specs.Prelude.{◌≤◌, length, MatchOption};
ghost use Rattle.queue.specs.Layout.{entries, Sound};
ghost use Rattle.queue.specs.Linking.{StandsAt, point_at, IsFirstAfter, IsNoneAfter, IsInOrder};

use crate::links::{bucket_of_key, head_of};
use crate::search::bucket_after;
use crate::{Placed, Queue};
use basics::{BUCKET_COUNT, PLACES};

impl Queue {
    // The place of the entry that follows a node in the bucket of a key, along its list or in one of the other buckets.
    fn following_sound(&self, key: u32, n: usize) -> Option<usize>
        requires { Sound self.now × StandsAt self.now key n }
        ensures { MatchOption result (IsNoneAfter self.now (point_at self.now key n)) (IsFirstAfter self.now (point_at self.now key n)) }
    {
        let on = self.next_of(n);
        if on < PLACES {
            return Some(on);
        }
        let mut bucket = bucket_after(bucket_of_key(key));
        // The bucket is stepped: a remainder of first and turn would cost a multiplication at every turn.
        for _turn in 1..BUCKET_COUNT {
            let first = self.next_of(PLACES + bucket);
            if first < PLACES {
                if key < self.keys[first] {
                    return Some(first);
                }
                return None;
            }
            bucket = bucket_after(bucket);
        }
        None
    }

    // The first `count` entries, in order. The walk begins at the head of the least key's bucket.
    pub fn in_order_sound(&self, count: usize) -> Placed
        requires { Sound self.now × (count ≤ length (entries self.now)) }
        ensures { IsInOrder self.now count result }
    {
        let mut ids = [0u16; 64];
        let mut places = [0usize; 64];
        let mut key = self.places().least_key();
        let mut n = head_of(key);
        // By index: two arrays are filled.
        for k in 0..count {
            n = self.following_sound(key, n).unwrap();
            ids[k] = self.ids[n];
            places[k] = n;
            key = self.keys[n];
        }
        Placed { ids, places }
    }
}
