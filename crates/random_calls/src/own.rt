// A planner's own rounds, held on a copy of it, and each written as a packet.
use super::packet::Packet;
use arrayvec::ArrayVec;
use packets::packet_write;
use planner::{Planner, filled};

// The copy after the rounds, and their packets, with room for one more.
#[derive(Drop)]
pub struct Own {
    pub planner: Planner,
    pub packets: ArrayVec<Packet, 9>,
}

// None where the packet is refused.
fn packet_of(start: u32, slots: u32, numbers: &[u16]) -> Option<Packet> {
    let mut bytes = [0; 134];
    if packet_write(start, slots, numbers, &mut bytes) != 0 {
        return None;
    }
    let written = bytes.get(..6 + 2 * numbers.len())?;
    Packet::try_from(written).ok()
}

// Where a round is refused the planner stays as it is, and so all others are refused.
pub fn rounds(p: Planner, wanted: u32) -> Own {
    let mut own = Own {
        planner: p,
        packets: ArrayVec::new(),
    };
    for _ in 0..wanted {
        let mut buffer = [0; 64];
        let held = planner::round(own.planner, &mut buffer);
        if held.answer != 0 {
            break;
        }
        own.planner = held.planner;
        let numbers = filled(&buffer, held.n);
        if let Some(packet) = packet_of(held.start, own.planner.setting.slots, numbers) {
            let _ = own.packets.try_push(packet);
        }
    }
    own
}
