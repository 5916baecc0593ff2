// The deadline queue: ids filed under keys, each with a release, in 480 circular buckets by key modulo 480. A bucket is a doubly linked list
// ordered by release, then id.
// Every call here tests the queue it is handed. A layer that knows its queue to be sound calls the methods whose names end in _sound.
#![tactic(auto)]

ghost use Rattle.std.specs.Prelude.{◌≡◌, ◌<◌};
ghost use Rattle.basics.specs.Answers.{answer};
ghost use Rattle.basics.specs.Decides.{Decides};
ghost use Rattle.basics.specs.Limits.{places};
ghost use Rattle.basics.specs.Refusals.{answer_of};
ghost use Rattle.places.specs.Order.{triple};
ghost use Rattle.places.specs.Entries.{put, without};
ghost use Rattle.places.specs.Lent.{as_entry};
ghost use Rattle.queue.specs.Layout.{entry_at, entries, empty_queue, Sound};
ghost use Rattle.queue.specs.Calls.{insert_refusals, delete_refusals, move_refusals, moved, IsChange, least_of, next_of};
ghost use Rattle.queue.specs.Linking.{ArePlacesOf, IsTried, found_of};

use basics::{PLACES, Refusal, answer};
use places::{Entry, Places};

mod changes;
mod filing;
mod links;
mod moves;
mod order;
mod refusals;
mod search;
mod soundness;

// Places 0 to 63 hold entries, id 0 where a place is free; node 64 + b is the head of bucket b. `next` and `prev` link the nodes.
// The C interface: the header's struct has the same fields in the same order.
#[repr(C)]
#[derive(Clone, Copy)]
pub struct Queue {
    pub ids: [u16; 64],
    pub keys: [u32; 64],
    pub next: [u16; 544],
    pub prev: [u16; 544],
    pub releases: [u32; 64],
}

// What a change answers, and the queue after it.
// The answer is a number beside it, since a refused change hands its queue back too (Annex 8.9; `IsChange`).
#[derive(Clone, Copy)]
pub struct Changed {
    pub answer: u32,
    pub queue: Queue,
}

// What a search answers: an entry, or zeros.
// The answer is a number beside them, since a refused search gives zeros too (Annex 8.15; `least_of`, `next_of`).
#[derive(Clone, Copy)]
pub struct Found {
    pub answer: u32,
    pub key: u32,
    pub release: u32,
    pub id: u32,
}

impl From<Result<Entry, Refusal>> for Found {
    ghost from_gives = { λ outcome found. found ≡ found_of outcome };

    fn from(outcome: Result<Entry, Refusal>) -> Found {
        match outcome {
            Ok(entry) => Found {
                answer: 0,
                key: entry.key,
                release: entry.release,
                id: entry.id,
            },
            Err(refusal) => Found {
                answer: u32::from(refusal),
                key: 0,
                release: 0,
                id: 0,
            },
        }
    }
}

// Entries of a queue, by their ids, and beside each the place at which the queue has it. What a place is stays inside the queue.
// How many count is told beside them, as the size of the table or of the part chosen: `IsInOrder`, `CanMoveAll`.
#[derive(Clone, Copy)]
pub struct Placed {
    pub ids: [u16; 64],
    pub places: [usize; 64],
}

// The queue with nothing filed: zeros at every place, and every bucket's head its own neighbour.
pub fn empty() -> Queue
    ensures { result ≡ empty_queue }
{
    let mut links = [0u16; 544];
    // By index: enumerate would have to skip the places.
    for x in PLACES..544 {
        links[x] = x as u16;
    }
    Queue {
        ids: [0u16; 64],
        keys: [0u32; 64],
        releases: [0u32; 64],
        next: links,
        prev: links,
    }
}

// Whether a queue is sound, on any value whatever.
pub fn is_sound(q: Queue) -> bool
    ensures { Decides result (Sound q) }
{
    q.is_sound()
}

// `Sound` is in the `requires` of each _sound method and no invariant of the type: a call takes any value whatever (Annex 8.4).
impl Queue {
    // The entries at the places, without their links.
    fn places(&self) -> Places<'_>
        ensures { ArePlacesOf self.now result.ids.now result.keys.now result.releases.now }
    {
        Places {
            ids: &self.ids,
            keys: &self.keys,
            releases: &self.releases,
        }
    }

    // What stands at place x, an entry unless the place is free.
    fn entry_at(&self, x: usize) -> Entry
        requires { x < places }
        ensures { as_entry result ≡ entry_at self.now x }
    {
        self.places().entry_at(x)
    }

    // Three changes in place; refused, they leave the queue as it was. One function over a closure would say no less: the refusals and the
    // entries after it are each change's own.
    fn insert(&mut self, entry: Entry) -> Result<(), Refusal>
        ensures { IsTried (insert_refusals self.old entry.id entry.key entry.release) self.old (put (as_entry entry) (entries self.old)) (answer result) self.new }
    {
        self.may_insert(entry)?;
        self.insert_sound(entry.id, entry.key, entry.release);
        Ok(())
    }

    fn delete(&mut self, id: u32) -> Result<(), Refusal>
        ensures { IsTried (delete_refusals self.old id) self.old (without id (entries self.old)) (answer result) self.new }
    {
        self.may_delete(id)?;
        self.delete_sound(id);
        Ok(())
    }

    fn move_by(&mut self, id: u32, amount: u32) -> Result<(), Refusal>
        ensures { IsTried (move_refusals self.old id amount) self.old (moved id amount (entries self.old)) (answer result) self.new }
    {
        self.may_move(id, amount)?;
        self.move_sound(id, amount);
        Ok(())
    }

    fn least(&self) -> Result<Entry, Refusal>
        ensures { found_of result ≡ least_of self.now }
    {
        if !self.is_sound() {
            return Err(Refusal::NotSound);
        }
        self.least_sound()
    }

    fn next(&self, point: Entry) -> Result<Entry, Refusal>
        ensures { found_of result ≡ next_of self.now point.key point.release point.id }
    {
        if !self.is_sound() {
            return Err(Refusal::NotSound);
        }
        self.next_sound(point)
    }
}

// Annex 8.10: files an id under a key, with a release.
pub fn insert(mut q: Queue, id: u32, key: u32, release: u32) -> Changed
    ensures { IsChange (insert_refusals q id key release) q (put (triple key release id) (entries q)) result }
{
    let answer = answer(q.insert(Entry { key, release, id }));
    Changed { answer, queue: q }
}

// Annex 8.11: takes an id out.
pub fn delete(mut q: Queue, id: u32) -> Changed
    ensures { IsChange (delete_refusals q id) q (without id (entries q)) result }
{
    let answer = answer(q.delete(id));
    Changed { answer, queue: q }
}

// Annex 8.12: adds an amount to the key and the release of an id.
pub fn move_by(mut q: Queue, id: u32, amount: u32) -> Changed
    ensures { IsChange (move_refusals q id amount) q (moved id amount (entries q)) result }
{
    let answer = answer(q.move_by(id, amount));
    Changed { answer, queue: q }
}

// Annex 8.13: the first entry of all.
pub fn least(q: Queue) -> Found
    ensures { result ≡ least_of q }
{
    Found::from(q.least())
}

// Annex 8.14: the first entry after a key, a release and an id, filed or not.
pub fn next(q: Queue, key: u32, release: u32, id: u32) -> Found
    ensures { result ≡ next_of q key release id }
{
    Found::from(q.next(Entry { key, release, id }))
}
