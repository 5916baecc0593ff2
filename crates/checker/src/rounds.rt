// One round of a plan: the packet in front of what is left of its bytes.
ghost use Rattle.std.specs.Prelude.{◌≡◌, ◌≤◌, MatchOption};
ghost use Rattle.basics.specs.Limits.{places, most_slots};
ghost use Rattle.checker.specs.Needs.{CanCheck, NoneInFront, IsInFront, values, IsHeaderChecked, IsChecked};

use super::round_rules::Rule;
use super::sending::Streams;
use packet_bytes::{ids_of_pairs, start_of_header};
use packets::are_good;
use round_tests::{packet_length, start_fits, stream_count};
use state::Setting;

// A round that keeps all rules: how long its packet is, and its start.
#[derive(Clone, Copy)]
pub struct Passed {
    pub length: usize,
    pub start: u32,
}

// A packet as it stands in front, whether it is good or not: how long it is, its start, its B, and its numbers, which are the first `count`, in
// the array of 64 that `ids_of_pairs` of packet_bytes gives.
#[derive(Clone, Copy)]
struct Front {
    length: usize,
    start: u32,
    slots: u32,
    count: usize,
    numbers: [u16; 64],
}

// The packet in front; none if it is cut short or has more numbers than B.
fn front_of(rest: &[u8], most: u32) -> Option<Front>
    requires { most ≤ most_slots }
    ensures { MatchOption result (NoneInFront rest.now most) (IsInFront rest.now) }
{
    let length = packet_length(rest)?;
    let count = usize::from(rest[5]);
    if (most as usize) < count {
        return None;
    }
    Some(Front {
        length,
        start: start_of_header(rest),
        slots: u32::from(rest[4]),
        count,
        numbers: ids_of_pairs(&rest[6..length], count),
    })
}

// How many stream ids the packet has, if it keeps the three rules that its values can break by themselves; else the first that they break.
fn header_checked(setting: Setting, last: u32, front: &Front) -> Result<usize, Rule>
    requires setting_in_range { CanCheck setting }
    requires few { front.now.count ≤ places }
    ensures { IsHeaderChecked setting last (values front.now) result }
{
    let numbers = &front.numbers[..front.count];
    if front.slots != setting.slots || !are_good(front.start, front.slots, numbers) {
        return Err(Rule::Packet);
    }
    if !start_fits(front.start, last, setting.gap) {
        return Err(Rule::Start);
    }
    let streams = stream_count(numbers);
    if (setting.stream_slots() as usize) < streams {
        return Err(Rule::Room);
    }
    Ok(streams)
}

// The round in front: its length and its start, with its packets sent on the streams; or the first rule that it breaks.
pub fn check_round(
    setting: Setting,
    last: u32,
    rest: &[u8],
    streams: &mut Streams,
) -> Result<Passed, Rule>
    requires { CanCheck setting }
    ensures { IsChecked setting last rest.now streams.old streams.new result }
{
    let Some(front) = front_of(rest, setting.slots) else {
        return Err(Rule::Packet);
    };
    let listed = header_checked(setting, last, &front)?;
    streams.send_all(&front.numbers[..listed], front.start)?;
    if !streams.none_due_by(front.start + 1) {
        return Err(Rule::Rest);
    }
    Ok(Passed {
        length: front.length,
        start: front.start,
    })
}
