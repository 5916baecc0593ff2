// The schedule as it goes on air: the writer and the reader of a packet. Nothing here knows of a planner.
#![tactic(auto)]

ghost use Rattle.std.specs.Prelude.{◌≡◌, length};
ghost use Rattle.basics.specs.Decides.{Decides};
ghost use Rattle.basics.specs.Answers.{answer};
ghost use Rattle.basics.specs.Version.{version};
ghost use Rattle.packets.specs.Good.{IsGood};
ghost use Rattle.packets.specs.Outcome.{IsReading};
ghost use Rattle.packets.specs.Reading.{IsRead, ids_part};
ghost use Rattle.packets.specs.Writing.{IsWritten};

use basics::{LAST_START, MOST_SLOTS, Refusal, answer, is_one_to};
use numbers::numbers_are_good;
use packet_bytes::{ids_of_pairs, start_of_header, write_header_in_room, write_ids_in_room};

mod ids;
mod numbers;

// What a reader gives C: the start, B and n; or the number of a refusal and zeros. C has no Result, so the answer stands beside what was read.
#[repr(C)]
#[derive(Clone, Copy)]
pub struct Header {
    pub answer: u32,
    pub start: u32,
    pub slots: u32,
    pub n: u32,
}

// What the header of a good packet says.
#[derive(Clone, Copy)]
struct Front {
    start: u32,
    slots: u32,
    n: u32,
}

// Whether values are those of a good packet. The C interface: start, B and ids are apart, as a host hands them to `packet_write`.
pub fn are_good(start: u32, slots: u32, ids: &[u16]) -> bool
    ensures { Decides result (IsGood (record { start = start; slots = slots; ids = ids.now })) }
{
    if LAST_START < start {
        return false;
    }
    if !is_one_to(slots, MOST_SLOTS) {
        return false;
    }
    if (slots as usize) < ids.len() {
        return false;
    }
    numbers_are_good(ids)
}

// Writes a packet, or nothing where it is refused.
fn write(start: u32, slots: u32, ids: &[u16], packet: &mut [u8]) -> Result<(), Refusal>
    ensures { IsWritten (record { start = start; slots = slots; ids = ids.now }) packet.old packet.new (answer result) }
{
    if !are_good(start, slots, ids) {
        return Err(Refusal::BadValues);
    }
    if packet.len() < 6 + 2 * ids.len() {
        return Err(Refusal::ShortPacketBuffer);
    }
    write_header_in_room(packet, start, slots as u8, ids.len() as u8);
    write_ids_in_room(&mut packet[6..], ids);
    Ok(())
}

// Annex 10.4, 10.5: writes a packet; 27 for a value that is not good, 28 for a buffer too short, both with nothing written.
pub fn packet_write(start: u32, slots: u32, ids: &[u16], packet: &mut [u8]) -> u32
    ensures { IsWritten (record { start = start; slots = slots; ids = ids.now }) packet.old packet.new result }
{
    answer(write(start, slots, ids, packet))
}

// Reads a packet. Numbers past the largest B are not read: no good packet has so many.
// Inlined: a call would hand its result over through memory.
#[inline(always)]
fn read(packet: &[u8]) -> Result<Front, Refusal>
    ensures { IsReading packet.now result }
{
    if packet.len() < 6 {
        return Err(Refusal::WrongLength);
    }
    let n = usize::from(packet[5]);
    if packet.len() != 6 + 2 * n {
        return Err(Refusal::WrongLength);
    }
    if (MOST_SLOTS as usize) < n {
        return Err(Refusal::BadValues);
    }
    let start = start_of_header(packet);
    let slots = u32::from(packet[4]);
    let ids = ids_of_pairs(&packet[6..], n);
    if !are_good(start, slots, &ids[..n]) {
        return Err(Refusal::BadValues);
    }
    Ok(Front {
        start,
        slots,
        n: n as u32,
    })
}

// Annex 10.6, 10.7: reads a packet; 26 for a wrong length, 27 for a value that is not good.
pub fn packet_read(packet: &[u8]) -> Header
    ensures { IsRead packet.now result }
{
    match read(packet) {
        Ok(front) => Header {
            answer: 0,
            start: front.start,
            slots: front.slots,
            n: front.n,
        },
        Err(refusal) => Header {
            answer: u32::from(refusal),
            start: 0,
            slots: 0,
            n: 0,
        },
    }
}

// Annex 10.8: the second call, the ids' bytes. The packet is tested again, since a caller may not have read it.
#[tactic(auto, using(crate::proofs::Reading::good_part, crate::proofs::Reading::bad_part))]
pub fn packet_ids(packet: &[u8]) -> &[u8]
    ensures { result.now ≡ ids_part packet.now }
{
    match read(packet) {
        Ok(_) => &packet[6..],
        Err(_) => &packet[..0],
    }
}

// Annex 10.8: how long that part is: C takes so many bytes from byte 6 of its packet on.
pub fn packet_ids_length(packet: &[u8]) -> usize
    ensures { result ≡ length (ids_part packet.now) }
{
    packet_ids(packet).len()
}

// Annex 10.10: the number of this version, so that a host or a head can refuse a library of another.
pub fn packet_version() -> u32
    ensures { result ≡ version }
{
    basics::VERSION
}
