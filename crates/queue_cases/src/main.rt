// Runs every call and every refusal of the queue at least once. A change prints its answer, a search its answer, key, release
// and id.
// The expected output is written by hand; what it has to be says the Annex, chapter 8.
#![tactic(auto)]

use queue::{Found, Queue};

// A queue whose answers are printed.
#[derive(Clone, Copy)]
struct Tried<'a> {
    rt: &'a HostRuntime,
    queue: Queue,
}

impl Tried<'_> {
    fn show_answer(&self, answer: u32) {
        let _ = println!(self.rt; "{answer}");
    }

    fn show(&self, found: Found) {
        let _ = println!(self.rt;
            "{} {} {} {}",
            found.answer, found.key, found.release, found.id
        );
    }

    fn insert(&mut self, id: u32, key: u32, release: u32) {
        let changed = queue::insert(self.queue, id, key, release);
        self.queue = changed.queue;
        self.show_answer(changed.answer);
    }

    fn delete(&mut self, id: u32) {
        let changed = queue::delete(self.queue, id);
        self.queue = changed.queue;
        self.show_answer(changed.answer);
    }

    fn move_by(&mut self, id: u32, amount: u32) {
        let changed = queue::move_by(self.queue, id, amount);
        self.queue = changed.queue;
        self.show_answer(changed.answer);
    }

    fn least(&self) {
        self.show(queue::least(self.queue));
    }

    fn next(&self, key: u32, release: u32, id: u32) {
        self.show(queue::next(self.queue, key, release, id));
    }
}

fn empty(rt: &HostRuntime) -> Tried<'_> {
    Tried {
        rt,
        queue: queue::empty(),
    }
}

// 25 on an empty queue; 6 for a bad id; 23 for a key out of bounds; 22 before 23; a span of 479 and of 480.
fn inserts(rt: &HostRuntime) -> Tried<'_> {
    let mut q = empty(rt);
    q.least();
    q.next(0, 0, 0);
    q.insert(0, 5, 0);
    q.insert(32768, 5, 0);
    q.insert(7, 2000000001, 0);
    q.insert(7, 1000, 990);
    q.insert(7, 2000000001, 0);
    q.insert(3, 1000, 990);
    q.insert(5, 1400, 1390);
    q.insert(9, 1480, 1470);
    q.insert(9, 1479, 1479);
    q
}

// The least key first; from far below, from an entry, from after one in its id alone; none after the last.
fn searches(q: &Tried) {
    q.least();
    q.next(700, 0, 0);
    q.next(1000, 990, 3);
    q.next(1000, 990, 7);
    q.next(1000, 990, 4294967295);
    q.next(1400, 1390, 5);
    q.next(1479, 1479, 9);
    q.next(4294967295, 4294967295, 4294967295);
}

// 24 for an id not filed, possible or not; sums that do not wrap; a key that reaches another's.
fn moves(q: &mut Tried) {
    q.move_by(9, 0);
    q.move_by(9, 1);
    q.move_by(9, 4294967295);
    q.move_by(8, 1);
    q.move_by(0, 1);
    q.move_by(40000, 1);
    q.move_by(3, 479);
    q.next(1400, 1390, 5);
}

fn deletes(q: &mut Tried) {
    q.delete(3);
    q.delete(3);
    q.delete(0);
    q.least();
}

// The only id may go any distance up to the last key.
fn far(rt: &HostRuntime) {
    let mut q = empty(rt);
    q.insert(1, 0, 0);
    q.move_by(1, 2000000000);
    q.move_by(1, 1);
    q.least();
}

// One key with four releases, filed out of order; a release equal to its key, and one above it, for which 22 goes before 23.
fn ties(rt: &HostRuntime) -> Tried<'_> {
    let mut q = empty(rt);
    q.insert(2, 50, 40);
    q.insert(8, 50, 30);
    q.insert(5, 50, 45);
    q.insert(6, 50, 40);
    q.insert(1, 50, 50);
    q.insert(4, 50, 51);
    q.insert(2, 50, 51);
    q.insert(3, 60, 20);
    q
}

// By earlier release, then smaller id.
fn tied_searches(q: &Tried) {
    q.least();
    q.next(50, 30, 8);
    q.next(50, 40, 2);
    q.next(50, 40, 6);
    q.next(50, 45, 5);
    q.next(50, 50, 1);
}

// From between two releases with an id above all, from between two ids, from a release above its key, and from past all of a key.
fn unfiled_searches(q: &Tried) {
    q.next(50, 35, 60000);
    q.next(50, 40, 3);
    q.next(50, 51, 0);
    q.next(50, 4294967295, 4294967295);
    q.next(49, 4294967295, 4294967295);
}

// The release goes with its key: 8 comes to stand after 3, and 5 after 8.
fn tied_moves(q: &mut Tried) {
    q.move_by(8, 10);
    q.least();
    q.next(60, 20, 3);
    q.move_by(5, 10);
    q.next(60, 40, 8);
}

// 5, before anything else, for an id out of range and for a list that runs in a circle.
fn damaged(q: &Tried) {
    let mut bad = *q;
    bad.queue.ids[63] = 40000;
    bad.insert(0, 5, 0);
    bad.delete(0);
    bad.move_by(0, 1);
    bad.least();
    bad.next(0, 0, 0);
    let mut circle = *q;
    circle.queue.next[0] = 0;
    circle.least();
}

// A release may be its key and not more; at a free place it may be anything.
fn damaged_releases(q: &Tried) {
    let mut late = *q;
    late.queue.releases[0] = 1000;
    late.least();
    late.queue.releases[0] = 1001;
    late.least();
    let mut free = *q;
    free.queue.releases[63] = 4294967295;
    free.least();
}

// Two entries of a bucket with their releases exchanged, and with equal ones, stand in the wrong order.
fn damaged_order(rt: &HostRuntime) {
    let mut q = empty(rt);
    q.insert(2, 50, 40);
    q.insert(8, 50, 30);
    q.queue.releases[0] = 30;
    q.least();
    q.queue.releases[1] = 40;
    q.least();
    q.queue.releases[0] = 41;
    q.least();
}

// 64 ids under one key, the last released first; then 21, also for an id that is filed.
fn full(rt: &HostRuntime) {
    let mut q = empty(rt);
    for id in 1..=64 {
        q.queue = queue::insert(q.queue, id, 100, 100 - id).queue;
    }
    q.insert(65, 100, 0);
    q.insert(64, 100, 0);
    q.next(100, 36, 64);
}

fn run(rt: &HostRuntime) {
    let mut q = inserts(rt);
    searches(&q);
    moves(&mut q);
    deletes(&mut q);
    far(rt);
    let mut tied = ties(rt);
    tied_searches(&tied);
    unfiled_searches(&tied);
    tied_moves(&mut tied);
    damaged(&q);
    damaged_releases(&q);
    damaged_order(rt);
    full(rt);
}

// A write that fails is passed over: the run goes on, and no exit status changes.
fn main(rt: HostRuntime) {
    run(&rt);
}
