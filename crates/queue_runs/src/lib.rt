// Runs of the queue's calls for the benchmark in bench/: each fills a queue, repeats one kind of call, and answers a checksum of what it saw.
#![tactic(auto)]

use queue::{Found, Queue, delete, empty, insert, is_sound, move_by, next};

// One more number in a checksum below 65536.
fn mix(sum: u32, x: u32) -> u32 {
    ((sum % 65536) * 31 + x % 65536) % 65536
}

// Two ids to a bucket, and a span of 403.
fn first_key(id: u32) -> u32 {
    1000 + (id % 32) * 13
}

// The ids 1 to n. In 28 of the 32 buckets the larger id is released earlier, and so stands first.
fn filled(n: u32) -> Queue {
    let mut q = empty();
    for i in 0..n {
        let id = i % 64 + 1;
        q = insert(q, id, first_key(id), id % 37).queue;
    }
    q
}

// A place that holds no entry may have any key, so this leaves the queue sound and yet another value: no test of it can be left out.
// A function of its own, since a turn takes 2 percent more instructions with the write in its loop.
fn marked(mut q: Queue, i: u32) -> Queue {
    q.keys[63] = i;
    q
}

// Walks the entries, and from the end to the first again.
fn walk_sum(q: Queue, turns: u32) -> u32 {
    let mut sum = 0;
    let mut at = Found {
        answer: 0,
        key: 0,
        release: 0,
        id: 0,
    };
    for _ in 0..turns {
        at = next(q, at.key, at.release, at.id);
        sum = mix(mix(mix(sum, at.key), at.release), at.id);
    }
    sum
}

// Tests a queue of 63 entries.
#[unsafe(no_mangle)]
pub extern "C" fn run_soundness(turns: u32) -> u32 {
    let mut q = filled(63);
    let mut sum = 0;
    for i in 0..turns {
        q = marked(q, i);
        sum = mix(sum, u32::from(is_sound(q)));
    }
    sum
}

// Files id 64 beside 63 entries and takes it out again.
#[unsafe(no_mangle)]
pub extern "C" fn run_insert_delete(turns: u32) -> u32 {
    let mut q = filled(63);
    let mut sum = 0;
    for i in 0..turns {
        let inserted = insert(q, 64, 1000 + i % 400, i % 37);
        let deleted = delete(inserted.queue, 64);
        q = deleted.queue;
        sum = mix(mix(sum, inserted.answer), deleted.answer);
    }
    mix(sum, walk_sum(q, 64))
}

// Moves each of 64 entries in turn by the same amount, which keeps the span within 410.
#[unsafe(no_mangle)]
pub extern "C" fn run_move(turns: u32) -> u32 {
    let mut q = filled(64);
    let mut sum = 0;
    for i in 0..turns {
        let moved = move_by(q, i % 64 + 1, 7);
        q = moved.queue;
        sum = mix(sum, moved.answer);
    }
    mix(sum, walk_sum(q, 65))
}

// Walks 64 entries, and from the end to the first again.
#[unsafe(no_mangle)]
pub extern "C" fn run_next(turns: u32) -> u32 {
    walk_sum(filled(64), turns)
}
