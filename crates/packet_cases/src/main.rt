// Runs the packet writer, the reader and its second call on the cases of standard input, a line each, in hex with blanks anywhere:
//   P BYTES                     a packet to be read
//   W START B LENGTH ID ..      values to be written to a buffer of that length: four bytes, four, two, and two an id
// Any other line is passed over. It prints of each:
//   P ANSWER START B N LENGTH IDS   what was read; the length of the part that the second call gives, and its bytes in hex
//   W ANSWER BYTES                  all bytes of the buffer in hex, which held ee before
// The cases are the edges of the Annex's chapter 10, vectors/library/packets; what is to be printed is what the oracle answers.
#![tactic(auto)]

use packets::{Header, packet_ids, packet_ids_length, packet_read, packet_write};
use std::fmt;
use text::Hex;

// Bytes in hex; a dash where there is none.
#[derive(Clone, Copy)]
struct Bytes<'a>(&'a [u8]);

impl fmt::Display for Bytes<'_> {
    fn fmt<W: fmt::Write>(&self, f: &mut fmt::Formatter<W>) -> fmt::Result {
        if self.0.is_empty() {
            return write!(f, "-");
        }
        write!(f, "{}", Hex(self.0))
    }
}

fn try_read(rt: &impl Print, packet: &[u8]) {
    let Header {
        answer,
        start,
        slots,
        n,
    } = packet_read(packet);
    let length = packet_ids_length(packet);
    let _ = println!(rt;
        "P {answer} {start} {slots} {n} {length} {}",
        Bytes(packet_ids(packet))
    );
}

// Values to be written, the ids as pairs of bytes, and the length of the buffer.
#[derive(Clone, Copy)]
struct Values<'a> {
    start: u32,
    slots: u32,
    length: usize,
    ids: &'a [[u8; 2]],
}

// None where the bytes end before the ids. A last byte alone is no id.
fn values_in(bytes: &[u8]) -> Option<Values<'_>> {
    let (start, rest) = bytes.split_first_chunk()?;
    let (slots, rest) = rest.split_first_chunk()?;
    let (length, rest) = rest.split_first_chunk()?;
    let (ids, _) = rest.as_chunks();
    Some(Values {
        start: u32::from_be_bytes(*start),
        slots: u32::from_be_bytes(*slots),
        length: usize::from(u16::from_be_bytes(*length)),
        ids,
    })
}

// A buffer of more than 200 bytes is not tried.
fn try_write(rt: &impl Print, values: Values) {
    let mut ids = [0; 300];
    let n = values.ids.len().min(ids.len());
    for (id, pair) in ids.iter_mut().zip(values.ids) {
        *id = u16::from_be_bytes(*pair);
    }
    let mut buffer = [0xEE; 200];
    let Some(buffer) = buffer.get_mut(..values.length) else {
        return;
    };
    let answer = packet_write(values.start, values.slots, &ids[..n], buffer);
    let _ = println!(rt; "W {answer} {}", Bytes(buffer));
}

fn run_line(rt: &impl Print, line: &[u8]) {
    let Some((kind, digits)) = line.split_first() else {
        return;
    };
    let mut buffer = [0; 600];
    let bytes = text::bytes_in(digits, &mut buffer);
    match kind {
        b'P' => try_read(rt, bytes),
        b'W' => match values_in(bytes) {
            Some(values) => try_write(rt, values),
            None => {}
        },
        _ => {}
    }
}

fn run(rt: &impl Print) {
    let mut buffer = [0; 65536];
    for line in text::input(&mut buffer).split(|c| *c == b'\n') {
        run_line(rt, line);
    }
}

// A write that fails is passed over: the run goes on, and no exit status changes.
fn main(rt: HostRuntime) {
    run(&rt);
}
