// The packets for C: the calls of the library, exported under their clauses. A crate of its own, since a crate is built as a library or for C.
#![tactic(auto)]

ghost use Rattle.std.specs.Prelude.{◌≡◌, length};
ghost use Rattle.basics.specs.Version.{version};
ghost use Rattle.packets.specs.Reading.{IsRead, ids_part};
ghost use Rattle.packets.specs.Writing.{IsWritten};

use packets::Header;

// Annex 10.4, 10.5: writes a packet; 27 for a value that is not good, 28 for a buffer too short, both with nothing written.
#[unsafe(no_mangle)]
pub extern "C" fn packet_write(start: u32, slots: u32, ids: &[u16], packet: &mut [u8]) -> u32
    ensures { IsWritten (record { start = start; slots = slots; ids = ids.now }) packet.old packet.new result }
{
    packets::packet_write(start, slots, ids, packet)
}

// Annex 10.6, 10.7: reads a packet.
#[unsafe(no_mangle)]
pub extern "C" fn packet_read(packet: &[u8]) -> Header
    ensures { IsRead packet.now result }
{
    packets::packet_read(packet)
}

// Annex 10.8: how long the part is that `packets::packet_ids` hands back: C takes so many bytes from byte 6 of its packet on.
#[unsafe(no_mangle)]
pub extern "C" fn packet_ids_length(packet: &[u8]) -> usize
    ensures { result ≡ length (ids_part packet.now) }
{
    packets::packet_ids_length(packet)
}

// Annex 10.10: the number of this version, so that a host or a head can refuse a library of another.
#[unsafe(no_mangle)]
pub extern "C" fn packet_version() -> u32
    ensures { result ≡ version }
{
    packets::packet_version()
}
