// A plan to be checked: the planner's own rounds with one edit, or none.
use super::draws::{Draws, modulo};
use super::mood::Mood;
use super::own::{self, Own};
use super::packet::{self, Packet};
use arrayvec::ArrayVec;
use planner::Planner;

// In fixed memory, which cannot run out: there is room for eight rounds and what an edit puts in.
pub type Plan = ArrayVec<u8, 1100>;

// The edit of a plan, of one of its packets or of its bytes.
#[derive(Clone, Copy)]
enum Edit {
    Nothing,
    Packet(packet::Edit),
    CutOff,
    TurnDigit,
    Exchange,
    PutBehind,
}

// The edits by their row.
const EDITS: [Edit; 16] = [
    Edit::Nothing,
    Edit::Packet(packet::Edit::MoveStart(1)),
    Edit::Packet(packet::Edit::MoveStart(1)),
    Edit::Packet(packet::Edit::MoveStart(-1)),
    Edit::Packet(packet::Edit::MoveStart(-1)),
    Edit::Packet(packet::Edit::Replace),
    Edit::Packet(packet::Edit::Replace),
    Edit::Packet(packet::Edit::Repeat),
    Edit::Packet(packet::Edit::PutInFront),
    Edit::Packet(packet::Edit::PutInFront),
    Edit::Packet(packet::Edit::TakeOut),
    Edit::Packet(packet::Edit::PutMessage),
    Edit::CutOff,
    Edit::TurnDigit,
    Edit::Exchange,
    Edit::PutBehind,
];

const ROUNDS: [u32; 16] = [0, 1, 2, 2, 3, 3, 4, 4, 5, 5, 6, 6, 7, 7, 8, 8];

fn edit_of(row: u32) -> Edit {
    EDITS[(row % 16) as usize]
}

pub fn make(p: Planner, mood: Mood, d: Draws) -> Plan {
    let mut own = own::rounds(p, ROUNDS[(d.a % 16) as usize]);
    let edit = match edit_of(d.b % 16) {
        Edit::Nothing => Edit::Nothing,
        _ if own.packets.is_empty() => Edit::PutBehind,
        edit => edit,
    };
    edit_packets(&mut own, edit, mood, d);
    let mut plan = Plan::new();
    for packet in own.packets.as_slice() {
        let _ = plan.try_extend_from_slice(packet.as_slice());
    }
    match edit {
        Edit::CutOff => plan.truncate(plan.len().saturating_sub(cut(d.e))),
        Edit::TurnDigit => turn_digit(&mut plan, d),
        _ => {}
    }
    plan
}

// The edits of packets; the others are of the plan's bytes.
fn edit_packets(own: &mut Own, edit: Edit, mood: Mood, d: Draws) {
    let count = own.packets.len();
    let chosen = (d.c as usize).checked_rem(count).unwrap_or(0);
    match edit {
        Edit::Packet(edit) => {
            if let Some(packet) = own.packets.get_mut(chosen) {
                packet::make(packet, edit, mood, d);
            }
        }
        Edit::Exchange => exchange(own.packets.as_mut_slice(), chosen),
        Edit::PutBehind => put_behind(own, d.e),
        _ => {}
    }
}

// A packet and the one behind it change places.
fn exchange(packets: &mut [Packet], chosen: usize) {
    if let Some(last) = packets.get_mut(chosen..) {
        if 1 < last.len() {
            last.swap(0, 1);
        }
    }
}

// A packet with no numbers. Its header is made here, since `packet_write` refuses a start or a B that is to be tried too.
fn put_behind(own: &mut Own, draw: u32) {
    let start = own.planner.last.wrapping_add(1 + draw % 8);
    let [a, b, c, d] = start.to_be_bytes();
    let slots = (own.planner.setting.slots % 256) as u8;
    let header = [a, b, c, d, slots, 0];
    if let Ok(packet) = Packet::try_from(&header[..]) {
        let _ = own.packets.try_push(packet);
    }
}

// How many bytes are cut off.
fn cut(draw: u32) -> usize {
    match draw % 4 {
        0..=1 => 1,
        _ => 1 + (draw / 4 % 16) as usize,
    }
}

// A byte's binary digit becomes the other.
fn turn_digit(plan: &mut Plan, d: Draws) {
    let place = (d.d as usize).checked_rem(plan.len()).unwrap_or(0);
    if let Some(byte) = plan.get_mut(place) {
        *byte ^= 1 << (d.e % 8);
    }
}
