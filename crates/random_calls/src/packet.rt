// The bytes of a packet, and their edits. The first four are its start, byte 5 is the count of its numbers, and these are two bytes each, from byte 6
// on. A round has 64 numbers at most, and one is put in at most, so there is room for all.
use super::draws::Draws;
use super::mood::Mood;
use super::next;
use arrayvec::ArrayVec;

pub type Packet = ArrayVec<u8, 136>;

// The edits of one packet: its start is so much more; a number becomes an id, is put in once more behind itself, or is taken out; an id is put in before
// the numbers, or a message's number behind them.
#[derive(Clone, Copy)]
pub enum Edit {
    MoveStart(i32),
    Replace,
    Repeat,
    PutInFront,
    TakeOut,
    PutMessage,
}

const NUMBERS_FROM: usize = 6;

// A number as it is stored.
fn stored(x: u32) -> u16 {
    (x % 65536) as u16
}

// The number that a draw chooses, and where it stands; none where there is no number.
fn chosen(packet: &Packet, draw: u32) -> Option<(usize, u16)> {
    let n = u32::from(*packet.as_slice().get(5)?);
    let place = NUMBERS_FROM + 2 * draw.checked_rem(n)? as usize;
    let number = packet.as_slice().get(place..)?.first_chunk()?;
    Some((place, u16::from_be_bytes(*number)))
}

fn move_start(packet: &mut Packet, by: i32) {
    if let Some(start) = packet.as_mut_slice().first_chunk_mut() {
        *start = u32::from_be_bytes(*start)
            .wrapping_add_signed(by)
            .to_be_bytes();
    }
}

fn change_count(packet: &mut Packet, by: i8) {
    if let Some(n) = packet.get_mut(5) {
        *n = n.wrapping_add_signed(by);
    }
}

fn replace(packet: &mut Packet, place: usize, number: u16) {
    if let Some(part) = packet.as_mut_slice().get_mut(place..) {
        if let Some(old) = part.first_chunk_mut() {
            *old = number.to_be_bytes();
        }
    }
}

fn put_in(packet: &mut Packet, place: usize, number: u16) {
    let [high, low] = number.to_be_bytes();
    change_count(packet, 1);
    for byte in [low, high] {
        if place <= packet.len() {
            let _ = packet.try_insert(place, byte);
        }
    }
}

fn take_out(packet: &mut Packet, place: usize) {
    change_count(packet, -1);
    for _ in 0..2 {
        let _ = packet.pop_at(place);
    }
}

// An edit that asks for a number where there is none is none.
pub fn make(packet: &mut Packet, edit: Edit, mood: Mood, d: Draws) {
    let id = stored(mood.id(d.e));
    let end = packet.len();
    match (edit, chosen(packet, d.d)) {
        (Edit::MoveStart(by), _) => move_start(packet, by),
        (Edit::Replace, Some((place, _))) => replace(packet, place, id),
        (Edit::Repeat, Some((place, number))) => put_in(packet, place, number),
        (Edit::PutInFront, _) => put_in(packet, NUMBERS_FROM, id),
        (Edit::TakeOut, Some((place, _))) => take_out(packet, place),
        (Edit::PutMessage, _) => put_in(packet, end, stored(next::number(d.e))),
        _ => {}
    }
}
