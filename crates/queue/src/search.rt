// The search for the first entry after a point in the order: a key, a release and an id, filed or not.
ghost use Rattle.std.specs.Prelude.{◌≡◌, ◌<◌, MatchOption};
ghost use Rattle.basics.specs.Decides.{Decides};
ghost use Rattle.basics.specs.Limits.{buckets, places};
ghost use Rattle.places.specs.Order.{Before};
ghost use Rattle.places.specs.Lent.{as_entry};
ghost use Rattle.queue.specs.Layout.{entry_at, bucket_after, Sound};
ghost use Rattle.queue.specs.Calls.{least_of, next_of};
ghost use Rattle.queue.specs.Linking.{SearchFrom, IsFirstAfter, IsNoneAfter, found_of};

use crate::Queue;
use crate::links::bucket_of_key;
use basics::{BUCKET_COUNT, LAST_BUCKET, PLACES, Refusal, is_after};
use places::Entry;

// The bucket after a bucket, round the circle.
pub fn bucket_after(bucket: usize) -> usize
    requires { bucket < buckets }
    ensures { result ≡ bucket_after bucket }
{
    if bucket == LAST_BUCKET {
        return 0;
    }
    bucket + 1
}

impl Queue {
    // Whether the entry at place x comes after a point.
    pub fn comes_after(&self, x: usize, point: Entry) -> bool
        requires { x < places }
        ensures { Decides result (Before (as_entry point) (entry_at self.now x)) }
    {
        let here = self.entry_at(x);
        is_after(
            here.key,
            here.release,
            here.id,
            point.key,
            point.release,
            point.id,
        )
    }

    // Buckets from that of `from` on, each along its list; left at the first entry after the point. The bucket is stepped: a remainder of first and
    // turn would cost a multiplication at every turn.
    fn search_sound(&self, from: u32, point: Entry) -> Option<usize>
        requires { Sound self.now × SearchFrom self.now from (as_entry point) }
        ensures { MatchOption result (IsNoneAfter self.now (as_entry point)) (IsFirstAfter self.now (as_entry point)) }
    {
        let mut found = None;
        let mut bucket = bucket_of_key(from);
        'search: for _turn in 0..BUCKET_COUNT {
            let mut n = self.next_of(PLACES + bucket);
            while n < PLACES {
                if self.comes_after(n, point) {
                    found = Some(n);
                    break 'search;
                }
                n = self.next_of(n);
            }
            bucket = bucket_after(bucket);
        }
        found
    }

    // The search starts at the greater of the point's key and the least key: buckets before that could hold only keys that come later.
    fn first_after_sound(&self, point: Entry) -> Option<usize>
        requires { Sound self.now }
        ensures { MatchOption result (IsNoneAfter self.now (as_entry point)) (IsFirstAfter self.now (as_entry point)) }
    {
        let from = point.key.max(self.places().least_key());
        self.search_sound(from, point)
    }

    // The first entry after a point.
    pub fn next_sound(&self, point: Entry) -> Result<Entry, Refusal>
        requires { Sound self.now }
        ensures { found_of result ≡ next_of self.now point.key point.release point.id }
    {
        match self.first_after_sound(point) {
            Some(x) => Ok(self.entry_at(x)),
            None => Err(Refusal::NoEntry),
        }
    }

    // The first entry of all. Ids are 1 or more, so every entry comes after zeros.
    pub fn least_sound(&self) -> Result<Entry, Refusal>
        requires { Sound self.now }
        ensures { found_of result ≡ least_of self.now }
    {
        self.next_sound(Entry {
            key: 0,
            release: 0,
            id: 0,
        })
    }
}
