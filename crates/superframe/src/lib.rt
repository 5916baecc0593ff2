// The superframe helper: the least common multiple of the streams' periods, for the design office's C tool.
#![tactic(auto)]

ghost use Rattle.std.specs.Prelude.{◌≡◌};
ghost use Rattle.std.specs.List.{All};
ghost use Rattle.basics.specs.Decides.{Decides};
ghost use Rattle.basics.specs.Limits.{longest_frame, longest_period};
ghost use Rattle.basics.specs.OneTo.{OneTo};
ghost use Rattle.superframe.specs.Superframe.{superframe_of, packed};
ghost use Rattle.superframe.specs.Multiples.{IsGcd, IsLcmOfTwo, IsLcmWithinLimit, answered_by};

use basics::{LONGEST_FRAME, LONGEST_PERIOD, Refusal, is_one_to};

// Euclid: the second number falls at each call.
fn gcd(a: u32, b: u32) -> u32
    ensures { IsGcd a b result }
{
    if b == 0 { a } else { gcd(b, a % b) }
}

// Dividing before multiplying keeps the product small.
fn lcm_within_limit(m: u32, p: u32) -> u32
    requires { OneTo longest_frame m × OneTo longest_period p }
    ensures { IsLcmOfTwo m p result }
{
    let g = gcd(m, p);
    m / g * p
}

// Whether a byte is a period, 1 to 240.
fn is_period(p: u8) -> bool
    ensures { Decides result (OneTo longest_period p) }
{
    is_one_to(u32::from(p), LONGEST_PERIOD)
}

// Whether every period is 1 to 240; the whole list is looked at, so that 18 wins over 19 wherever the bad one stands.
fn all_in_range(periods: &[u8]) -> bool
    ensures { Decides result (All (OneTo longest_period) periods.now) }
{
    periods.iter().all(|period| is_period(*period))
}

// The least common multiple of the periods, or none where it is above the limit. It stops multiplying there, so nothing overflows however long the
// list is.
fn lcm_in_range(periods: &[u8]) -> Option<u32>
    requires { All (OneTo longest_period) periods.now }
    ensures { IsLcmWithinLimit periods.now result }
{
    let mut m: u32 = 1;
    for period in periods {
        m = lcm_within_limit(m, u32::from(*period));
        if LONGEST_FRAME < m {
            return None;
        }
    }
    Some(m)
}

// The superframe of the periods, or why there is none.
fn frame_of(periods: &[u8]) -> Result<u32, Refusal>
    ensures { answered_by result ≡ superframe_of periods.now }
{
    if !all_in_range(periods) {
        return Err(Refusal::BadPeriodOfList);
    }
    lcm_in_range(periods).ok_or(Refusal::LongFrame)
}

// The answer and the value as the one number that C gets.
fn pack(outcome: Result<u32, Refusal>) -> u32
    ensures { result ≡ packed (answered_by outcome) }
{
    match outcome {
        Ok(value) => value,
        Err(refusal) => u32::from(refusal) * 65536,
    }
}

// Annex 9.1 to 9.5: 18 if a period is not 1 to 240, else 19 if the least common multiple is above 5,040, both with value 0; else that multiple.
pub fn superframe(periods: &[u8]) -> u32
    ensures { result ≡ packed (superframe_of periods.now) }
{
    pack(frame_of(periods))
}
