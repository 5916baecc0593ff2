// The next call and its numbers. Sums are taken modulo 2^32, which none of them reaches.
use super::draws::{Draws, modulo};
use super::mood::Mood;
use super::seen::Seen;
use calls::Call;

const FRAMES: [u32; 16] = [
    0, 5041, 5040, 1, 2, 6, 12, 12, 24, 60, 60, 120, 120, 240, 240, 720,
];

const MESSAGES: [u32; 8] = [0, 0, 0, 1, 1, 2, 65536, u32::MAX];

const PERIODS: [u32; 8] = [1, 2, 3, 6, 12, 24, 120, 240];

const NUMBERS: [u32; 8] = [0, 32767, 32768, 65535, 65536, 98304, 105536, u32::MAX];

// One call in so many is an opening.
fn between_openings(seen: &Seen) -> u32 {
    match (seen.slots, seen.mood) {
        (0, _) => 4,
        (_, Mood::Filling) => 128,
        _ => 48,
    }
}

// The next call; none where it is a check.
pub fn call(seen: &Seen, d: Draws) -> Option<Call> {
    if d.k.is_multiple_of(between_openings(seen)) {
        return Some(opening(d));
    }
    let x = d.k / 256 % 22;
    let (adds, sends) = seen.mood.shares();
    if x < adds {
        return Some(addition(seen, d));
    }
    match x - adds {
        0 => Some(Call::Remove(seen.mood.id(d.a))),
        behind if behind <= sends => Some(Call::Send(number(d.a))),
        _ if x < 16 => Some(Call::Round(length(seen.slots, d.a))),
        _ => None,
    }
}

fn opening(d: Draws) -> Call {
    let mood = Mood::of_opening(d.e);
    Call::Open(
        mood.slots(d.a % 16),
        FRAMES[(d.b % 16) as usize],
        mood.gap(d.c % 16),
        time(d.d),
        MESSAGES[(d.e % 8) as usize],
    )
}

fn time(draw: u32) -> u32 {
    let rest = draw / 16;
    match draw % 16 {
        0 => 1000000001,
        1 => u32::MAX,
        2 => 1000000000,
        3..=5 => 1000000000 - rest % 512,
        _ => rest % 100000,
    }
}

fn addition(seen: &Seen, d: Draws) -> Call {
    let period = period(seen, d.c);
    Call::Add(
        seen.mood.id(d.a),
        start(seen.last, d.b),
        period,
        deadline(seen, d.d, period),
    )
}

fn start(last: u32, draw: u32) -> u32 {
    let rest = draw / 64;
    match draw % 64 {
        0 => last,
        1 => last.wrapping_add(241),
        2 => last.wrapping_add(240),
        3 => u32::MAX,
        4..=15 => last.wrapping_add(1 + rest % 240),
        _ => last.wrapping_add(1 + rest % 3),
    }
}

fn period(seen: &Seen, draw: u32) -> u32 {
    match (draw % 64, seen.mood) {
        (0, _) => 0,
        (1, _) => 241,
        (2, _) => 7,
        (3, _) => 256,
        (_, Mood::Delaying) => seen.frame.min(240),
        _ => seen.frame.min(PERIODS[(draw / 64 % 8) as usize]),
    }
}

fn deadline(seen: &Seen, draw: u32, period: u32) -> u32 {
    let rest = draw / 32;
    match (draw % 32, seen.mood) {
        (0, _) => 0,
        (1, _) => period.wrapping_add(1),
        (_, Mood::Delaying) if seen.held => modulo(rest, period.min(4)).wrapping_add(1),
        (_, Mood::Delaying) | (2..=9, _) => period,
        _ => modulo(rest, period).wrapping_add(1),
    }
}

pub fn number(draw: u32) -> u32 {
    match draw % 32 {
        row @ 0..=7 => NUMBERS[row as usize],
        8..=15 => 40000,
        _ => 32768 + draw / 32 % 32768,
    }
}

fn length(slots: u32, draw: u32) -> u32 {
    match draw % 8 {
        0 => 0,
        1 => slots.saturating_sub(1),
        2..=3 => slots.wrapping_add(3),
        _ => slots,
    }
}
