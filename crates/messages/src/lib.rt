// Short messages that wait for a free slot, first come first out: at most 32 numbers in the first `count` places.
#![tactic(auto)]

ghost use Rattle.std.specs.Prelude.{◌≡◌, [], ◌∷◌, ◌++◌, ◌+◌, ◌≤◌, ◌<◌, take, drop};
ghost use Rattle.std.specs.List.{All};
ghost use Rattle.basics.specs.Decides.{Decides};
ghost use Rattle.basics.specs.Limits.{most_slots, most_waiting};
ghost use Rattle.messages.specs.Waiting.{IsMessage, waiting_of, no_waiting};
ghost use Rattle.messages.specs.Needs.{HasWaiting, WaitingInRange, IsListing};

use basics::{LARGEST_MESSAGE, LEAST_MESSAGE, MOST_WAITING};

// The numbers that wait stand in the first `count` places, in the order in which they were sent.
// The C interface: the header's struct has the same fields in the same order.
#[repr(C)]
#[derive(Clone, Copy)]
pub struct Waiting {
    pub count: u32,
    pub numbers: [u16; 32],
}

// Nothing waits, and every place is zero. Written out: `Default` promises an array place by place, and `no_waiting` is one value.
pub fn none() -> Waiting
    ensures { result ≡ no_waiting }
{
    Waiting {
        count: 0,
        numbers: [0; 32],
    }
}

// Whether a number is that of a message.
pub fn is_message(number: u32) -> bool
    ensures { Decides result (IsMessage number) }
{
    (LEAST_MESSAGE..=LARGEST_MESSAGE).contains(&number)
}

// Whether each number is that of a message.
pub fn all_messages(numbers: &[u16]) -> bool
    ensures { Decides result (All IsMessage numbers.now) }
{
    numbers.iter().all(|number| is_message(u32::from(*number)))
}

// Whether at most `most` numbers wait, and no more than there are places, each of them a message, on any value whatever.
pub fn in_range(w: Waiting, most: u32) -> bool
    ensures { Decides result (WaitingInRange most w) }
{
    if MOST_WAITING < w.count {
        return false;
    }
    if most < w.count {
        return false;
    }
    all_messages(&w.numbers[..w.count as usize])
}

// A number joins behind those that wait. That at most 32 do is asked of each call and is no invariant of `Waiting`: C can hand over any count.
pub fn put_last_in_range(w: Waiting, number: u16) -> Waiting
    requires { w.count < most_waiting }
    ensures { HasWaiting (waiting_of w ++ (number ∷ [])) result }
{
    let mut numbers = w.numbers;
    numbers[w.count as usize] = number;
    Waiting {
        count: w.count + 1,
        numbers,
    }
}

// The first n numbers leave.
fn without_first_in_range(w: Waiting, n: u32) -> Waiting
    requires { (n ≤ w.count) × (w.count ≤ most_waiting) }
    ensures { HasWaiting (drop n (waiting_of w)) result }
{
    let left = w.count - n;
    let mut numbers = none().numbers;
    numbers[..left as usize].copy_from_slice(&w.numbers[n as usize..w.count as usize]);
    Waiting {
        count: left,
        numbers,
    }
}

// What a round lists, in the first n places, and the messages that it leaves waiting.
// No heap: a list that is handed out stands in an array of fixed size, with its length, as `IsListing` promises it.
#[derive(Clone, Copy)]
pub struct Listed {
    pub numbers: [u16; 64],
    pub n: usize,
    pub left: Waiting,
}

// The first k ids, and behind them as many messages as fit in the free slots, those that were sent first.
pub fn list_in_range(ids: [u16; 64], k: usize, free: usize, w: Waiting) -> Listed
    requires { (w.count ≤ most_waiting) × (k + free ≤ most_slots) }
    ensures { IsListing (take k ids) free (waiting_of w) result }
{
    let m = free.min(w.count as usize);
    let mut numbers = ids;
    numbers[k..k + m].copy_from_slice(&w.numbers[..m]);
    Listed {
        numbers,
        n: k + m,
        left: without_first_in_range(w, m as u32),
    }
}
