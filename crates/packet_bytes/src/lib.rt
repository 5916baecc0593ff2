// The bytes of a packet, stored and taken apart. What is good is not asked here.
#![tactic(auto)]

ghost use Rattle.std.specs.Prelude.{◌≡◌, ◌++◌, ◌+◌, ◌*◌, ◌≤◌, length, take, drop};
ghost use Rattle.packet_bytes.specs.Layout.{header_bytes, id_bytes};
ghost use Rattle.packet_bytes.specs.Parts.{most_read, start_in, ids_in};

// The first six bytes; later ones stay.
pub fn write_header_in_room(packet: &mut [u8], start: u32, slots: u8, n: u8)
    requires { 6 ≤ length packet.old }
    ensures { packet.new ≡ header_bytes start slots n ++ drop 6 packet.old }
{
    packet[..4].copy_from_slice(&start.to_be_bytes());
    packet[4] = slots;
    packet[5] = n;
}

// The ids from the front of the part on; later bytes stay.
pub fn write_ids_in_room(part: &mut [u8], ids: &[u16])
    requires { 2 * length ids.now ≤ length part.old }
    ensures { part.new ≡ id_bytes ids.now ++ drop (2 * length ids.now) part.old }
{
    for (k, id) in ids.iter().enumerate() {
        let [high, low] = id.to_be_bytes();
        part[2 * k] = high;
        part[2 * k + 1] = low;
    }
}

// The start in the first four bytes.
pub fn start_of_header(packet: &[u8]) -> u32
    requires { 6 ≤ length packet.now }
    ensures { result ≡ start_in packet.now }
{
    u32::from_be_bytes([packet[0], packet[1], packet[2], packet[3]])
}

// The ids in a part of n pairs of bytes, in the first n places: no good packet has more than 64.
// No heap: an array. The promise alone names n, the places that count; the checker and the reader of packets cite it.
pub fn ids_of_pairs(part: &[u8], n: usize) -> [u16; 64]
    requires { (length part.now ≡ 2 * n) × (n ≤ most_read) }
    ensures { take n result ≡ ids_in part.now }
{
    let mut ids = [0; 64];
    let (pairs, _) = part.as_chunks();
    for (k, pair) in pairs.iter().enumerate() {
        ids[k] = u16::from_be_bytes(*pair);
    }
    ids
}
