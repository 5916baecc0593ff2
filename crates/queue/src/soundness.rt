// Whether a queue is sound: its places, tested by themselves, and its links. Every loop runs over places, heads or blocks of heads and none along
// links, so each test ends on any value whatever.
ghost use Rattle.std.specs.Prelude.{◌≡◌, ◌+◌, ◌≤◌, ◌<◌};
ghost use Rattle.basics.specs.Below.{Between};
ghost use Rattle.basics.specs.Decides.{Decides};
ghost use Rattle.basics.specs.Limits.{places};
ghost use Rattle.places.specs.Order.{Before};
ghost use Rattle.queue.specs.Layout.{id_at, key_at, next_at, prev_at, entry_at, IsNode, bucket_of, AllLinked, Sound};
ghost use Rattle.queue.specs.Layout.Soundness.{NextRight, PrevRight, EntryNext, PlaceRight, HeadAlone, HeadRight, BlockRight};

use crate::Queue;
use crate::links::bucket_of_key;
use basics::PLACES;

impl Queue {
    // Node x is a place that holds an entry, or a head.
    fn is_node(&self, x: usize) -> bool
        ensures { Decides result (IsNode (id_at self.now) x) }
    {
        if x < PLACES {
            return 0 < self.ids[x];
        }
        x < 544
    }

    // The bucket of a node: that of an entry's key, a head's own.
    fn bucket(&self, x: usize) -> usize
        ensures { result ≡ bucket_of (key_at self.now) x }
    {
        if x < PLACES {
            return bucket_of_key(self.keys[x]);
        }
        x - PLACES
    }

    // Whether n can follow x, but for the order; it must be seen to be a node before its link back is read.
    fn next_is_right(&self, x: usize, n: usize) -> bool
        ensures { Decides result (NextRight (id_at self.now) (key_at self.now) (prev_at self.now) x n) }
    {
        self.is_node(n) && self.bucket(n) == self.bucket(x) && self.prev_of(n) == x
    }

    // Whether p can stand before x.
    fn prev_is_right(&self, x: usize, p: usize) -> bool
        ensures { Decides result (PrevRight (id_at self.now) (next_at self.now) x p) }
    {
        self.is_node(p) && self.next_of(p) == x
    }

    // Whether the entry at place n comes after the one at place x.
    fn comes_later(&self, x: usize, n: usize) -> bool
        requires { (x < places) × (n < places) }
        ensures { Decides result (Before (entry_at self.now x) (entry_at self.now n)) }
    {
        self.comes_after(n, self.entry_at(x))
    }

    // Whether n can follow the entry at place x.
    fn next_of_place_is_right(&self, x: usize, n: usize) -> bool
        requires { x < places }
        ensures { Decides result (EntryNext (entry_at self.now) (prev_at self.now) x n) }
    {
        self.next_is_right(x, n) && (PLACES <= n || self.comes_later(x, n))
    }

    // Whether place x, if it holds an entry, has its two links right.
    fn place_is_right(&self, x: usize) -> bool
        requires { x < places }
        ensures { Decides result (PlaceRight (entry_at self.now) (next_at self.now) (prev_at self.now) x) }
    {
        if self.ids[x] < 1 {
            return true;
        }
        self.next_of_place_is_right(x, self.next_of(x)) && self.prev_is_right(x, self.prev_of(x))
    }

    // Whether head x is its own neighbour, as that of an empty bucket is. By `as` and `&`, in 16 bits and without a jump, so that eight heads are
    // compared at once below.
    fn is_alone(&self, x: usize) -> bool
        requires { x < 544 }
        ensures { Decides result (HeadAlone (next_at self.now) (prev_at self.now) x) }
    {
        (self.next[x] == x as u16) & (self.prev[x] == x as u16)
    }

    // Whether the sixteen heads from x on are alone. The loop is not left early, for the same reason.
    fn sixteen_are_alone(&self, x: usize) -> bool
        requires { x + 16 ≤ 544 }
        ensures { Decides result (Between x (x + 16) (HeadAlone (next_at self.now) (prev_at self.now))) }
    {
        let mut alone = true;
        for y in x..x + 16 {
            alone &= self.is_alone(y);
        }
        alone
    }

    // Whether head x has its two links right. Most heads are those of empty buckets.
    fn head_is_right(&self, x: usize) -> bool
        requires { (places ≤ x) × (x < 544) }
        ensures { Decides result (HeadRight (id_at self.now) (key_at self.now) (next_at self.now) (prev_at self.now) x) }
    {
        let n = self.next_of(x);
        let p = self.prev_of(x);
        if n == x {
            return p == x;
        }
        self.next_is_right(x, n) && self.prev_is_right(x, p)
    }

    // Whether the sixteen heads of a block have their links right. Where all its buckets are empty the first test is enough.
    fn block_is_right(&self, block: usize) -> bool
        requires { block < 30 }
        ensures { Decides result (BlockRight (id_at self.now) (key_at self.now) (next_at self.now) (prev_at self.now) block) }
    {
        let first = PLACES + 16 * block;
        self.sixteen_are_alone(first) || (first..first + 16).all(|x| self.head_is_right(x))
    }

    fn places_are_linked(&self) -> bool
        ensures { Decides result (Between 0 places (PlaceRight (entry_at self.now) (next_at self.now) (prev_at self.now))) }
    {
        (0..PLACES).all(|x| self.place_is_right(x))
    }

    // The 480 heads are thirty blocks of sixteen.
    fn heads_are_linked(&self) -> bool
        ensures { Decides result (Between places 544 (HeadRight (id_at self.now) (key_at self.now) (next_at self.now) (prev_at self.now))) }
    {
        (0..30).all(|block| self.block_is_right(block))
    }

    // Places and heads are tested apart: of a head less is asked, and heads are tested by blocks.
    pub fn all_linked(&self) -> bool
        ensures { Decides result (AllLinked (entry_at self.now) (next_at self.now) (prev_at self.now)) }
    {
        self.places_are_linked() && self.heads_are_linked()
    }

    // Whether a queue is sound, on any value whatever.
    pub fn is_sound(&self) -> bool
        ensures { Decides result (Sound self.now) }
    {
        self.places().are_sound() && self.all_linked()
    }
}
