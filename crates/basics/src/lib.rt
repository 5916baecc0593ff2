// Notions that several crates share: deciding, refusals in order and their numbers, an order by three numbers, the place of a number among 64 that rise,
// an id that stands at no earlier place among 64, and the version.
#![tactic(auto)]

ghost use Rattle.std.specs.Prelude.{◌≡◌, ◌+◌, ◌≤◌, ◌<◌};
ghost use Rattle.basics.specs.Decides.{Decides};
ghost use Rattle.basics.specs.Lexicographic.{Then};
ghost use Rattle.basics.specs.NewIds.{at, New};
ghost use Rattle.basics.specs.OneTo.{OneTo};
ghost use Rattle.basics.specs.Places.{Rises, IsPlaceAmong};

pub use refusals::{Refusal, answer};

mod refusals;

// Limits that several crates share: no round starts later than the last start; a table and a queue have so many places; a round has at most so
// many slots; no id, superframe, gap or period is larger; no release is further after now; a message is no smaller and no larger than these, and so
// many wait at most; no key of a queue is larger, and no two are further apart; a queue has so many buckets.
pub const LAST_START: u32 = 1_000_000_000;

pub const PLACES: usize = 64;

pub const MOST_SLOTS: u32 = 64;

pub const LARGEST_ID: u32 = 32_767;

pub const LONGEST_FRAME: u32 = 5040;

pub const LONGEST_GAP: u32 = 255;

pub const LONGEST_PERIOD: u32 = 240;

pub const FURTHEST_RELEASE: u32 = 239;

pub const LEAST_MESSAGE: u32 = 32_768;

pub const LARGEST_MESSAGE: u32 = 65_535;

pub const MOST_WAITING: u32 = 32;

pub const LARGEST_KEY: u32 = 2_000_000_000;

pub const KEY_SPAN: u32 = 479;

pub const BUCKETS: u32 = KEY_SPAN + 1;

// The same in other widths: the largest id in 16 bits, as ids are stored; the largest key and the span in 64, as the sum of two keys is; the
// buckets as a count of turns, and the number of the last one, since the first is 0.
pub const LARGEST_ID_16: u16 = LARGEST_ID as u16;

pub const LARGEST_KEY_64: u64 = LARGEST_KEY as u64;

pub const KEY_SPAN_64: u64 = KEY_SPAN as u64;

pub const BUCKET_COUNT: usize = BUCKETS as usize;

pub const LAST_BUCKET: usize = KEY_SPAN as usize;

// The number of this version, which the libraries for C give.
pub const VERSION: u32 = 8;

// Whether a number is 1 to a limit.
pub fn is_one_to(n: u32, most: u32) -> bool
    ensures { Decides result (OneTo most n) }
{
    (1..=most).contains(&n)
}

// Whether three numbers come after three others: by the first, where these are equal by the second, and where those are equal too by the third.
// The queue alone calls it, in its search and in its test; it stands here so that two wrong orders are refused on a small crate.
pub fn is_after(
    first: u32,
    second: u32,
    third: u32,
    than_first: u32,
    than_second: u32,
    than_third: u32,
) -> bool
    ensures { Decides result (Then than_first first (Then than_second second (than_third < third))) }
{
    (than_first, than_second, than_third) < (first, second, third)
}

// How many of 64 rising numbers are less than x, 63 at most: the last one need not be looked at.
pub fn place_among_rising(values: &[u32; 64], x: u32) -> usize
    requires { Rises values.now }
    ensures { IsPlaceAmong values.now x result }
{
    values[..PLACES - 1].partition_point(|value| *value < x)
}

// Whether the id at place i, if there is one, stands at no earlier place.
pub fn is_new_at(ids: &[u16; 64], i: usize) -> bool
    requires { i < 64 }
    ensures { Decides result (New (at ids.now) i) }
{
    let id = ids[i];
    id < 1 || !ids[..i].contains(&id)
}
