// Tests of a round that ask nothing of a planner: where its packet ends, whether its start fits, which packets may ride, and what is due after it.
#![tactic(auto)]

ghost use Rattle.std.specs.Prelude.{◌≡◌, ◌≤◌, length};
ghost use Rattle.basics.specs.Decides.{Decides};
ghost use Rattle.basics.specs.Limits.{places};
ghost use Rattle.messages.specs.Numbers.{stream_ids};
ghost use Rattle.round_tests.specs.Tests.{IsFrontLength, StartFits, RidesBy, NoneBy};

use basics::LARGEST_ID_16;

// The length of the packet in front, which its byte 5 gives; none if it is cut short.
#[tactic(auto, using(crate::specs::Facts::Fronts::front_long))]
pub fn packet_length(rest: &[u8]) -> Option<usize>
    ensures { IsFrontLength rest.now result }
{
    if rest.len() < 6 {
        return None;
    }
    let length = 6 + 2 * usize::from(rest[5]);
    if rest.len() < length {
        return None;
    }
    Some(length)
}

// How many of the numbers are stream ids. Each is looked at: a loop that cannot be left counts many at once, and `filter` with `count` does not.
#[tactic(auto, using(crate::specs::Facts::Numbers::all_counted))]
pub fn stream_count(numbers: &[u16]) -> usize
    ensures { result ≡ length (stream_ids numbers.now) }
{
    let mut count = 0;
    for number in numbers {
        if *number <= LARGEST_ID_16 {
            count += 1;
        }
    }
    count
}

// Whether a start is after the last one and by the gap cap. No sum is formed that could overflow.
pub fn start_fits(start: u32, last: u32, gap: u32) -> bool
    ensures { Decides result (StartFits start last gap) }
{
    if start <= last {
        return false;
    }
    start - last - 1 <= gap
}

// Whether a packet with this due time and deadline may ride in a round at `start`: it is released, and not late.
pub fn rides(due: u32, deadline: u32, start: u32) -> bool
    ensures { Decides result (RidesBy due deadline start) }
{
    if due <= start {
        return false;
    }
    due - start <= deadline
}

// Whether none of the first due times is by the end of a round. Each is looked at: a loop that cannot be left compares many at once.
// No heap: the due times come as they are kept, in an array of 64 with a count beside it, and `NoneBy`, which the checker's proofs cite, counts.
pub fn none_by_in_range(dues: &[u32; 64], count: usize, end: u32) -> bool
    requires { count ≤ places }
    ensures { Decides result (NoneBy count dues.now end) }
{
    let mut none = true;
    for due in &dues[..count] {
        if *due <= end {
            none = false;
        }
    }
    none
}
