// Places and links: putting an entry between two nodes or taking it out, and finding where it goes.
ghost use Rattle.std.specs.Prelude.{◌≡◌, ◌+◌, ◌<◌};
ghost use Rattle.basics.specs.Limits.{places};
ghost use Rattle.places.specs.Lent.{as_entry};
ghost use Rattle.queue.specs.Layout.{next_at, prev_at, bucket_of_key, Sound};
ghost use Rattle.queue.specs.Layout.Ranks.{rank};
ghost use Rattle.queue.specs.Linking.{CanPut, put_before, CanTake, taken_out, IsPosition, IsNewRank};

use crate::Queue;
use basics::{BUCKETS, PLACES};
use places::Entry;

// The bucket of a key.
pub fn bucket_of_key(key: u32) -> usize
    ensures { result ≡ bucket_of_key key }
{
    (key % BUCKETS) as usize
}

// The head of a key's bucket.
pub fn head_of(key: u32) -> usize
    ensures { result ≡ places + bucket_of_key key }
{
    PLACES + bucket_of_key(key)
}

// Release and id as one number, by which the entries of a bucket stand. The entries themselves are not compared: neither `IsPosition` nor
// `IsNewRank` says that the bucket's key is the entry's, or that its id is at most 32,767.
fn rank_of(entry: Entry) -> u64
    ensures { result ≡ rank entry.release entry.id }
{
    if entry.id < 1 {
        return 0;
    }
    u64::from(entry.release) * 32768 + u64::from(entry.id)
}

impl Queue {
    // The node that a node's list goes on with. A node is a plain number, as it is stored for C, so that it is below 544 is asked where it is read.
    pub fn next_of(&self, x: usize) -> usize
        requires { x < 544 }
        ensures { result ≡ next_at self.now x }
    {
        usize::from(self.next[x])
    }

    // The node that it comes from.
    pub fn prev_of(&self, x: usize) -> usize
        requires { x < 544 }
        ensures { result ≡ prev_at self.now x }
    {
        usize::from(self.prev[x])
    }

    // An entry put at a free place x, before the node n.
    pub fn put_before(&mut self, x: usize, entry: Entry, n: usize)
        requires can { CanPut self.old x n }
        requires short { entry.id < 65536 }
        ensures { self.new ≡ put_before self.old x (as_entry entry) n }
    {
        self.ids[x] = entry.id as u16;
        self.keys[x] = entry.key;
        self.releases[x] = entry.release;
        let p = self.prev[n];
        self.next[usize::from(p)] = x as u16;
        self.next[x] = n as u16;
        self.prev[n] = x as u16;
        self.prev[x] = p;
    }

    // The entry at a place x, taken out from between its neighbours; the free place is all zeros.
    pub fn take_out(&mut self, x: usize)
        requires { CanTake self.old x }
        ensures { self.new ≡ taken_out self.old x }
    {
        let p = self.prev[x];
        let n = self.next[x];
        self.next[usize::from(p)] = n;
        self.prev[usize::from(n)] = p;
        self.ids[x] = 0;
        self.keys[x] = 0;
        self.releases[x] = 0;
        self.next[x] = 0;
        self.prev[x] = 0;
    }

    // Walks the bucket of an entry's key to the first node past its rank; ranks rise, so the walk ends.
    pub fn position_sound(&self, entry: Entry) -> usize
        requires { Sound self.now × IsNewRank self.now (rank entry.release entry.id) }
        ensures { IsPosition self.now entry.key (rank entry.release entry.id) result }
    {
        let rank = rank_of(entry);
        let mut n = self.next_of(head_of(entry.key));
        while n < PLACES {
            if rank < rank_of(self.entry_at(n)) {
                return n;
            }
            n = self.next_of(n);
        }
        n
    }
}
