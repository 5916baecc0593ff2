// What the programs that read cases share: standard input, and bytes as hex digits, two a byte.
#![tactic(auto)]

ghost use Rattle.std.specs.Prelude.{◌≤◌, length};

use std::fmt;

// Standard input, as far as the buffer holds it.
// The crate `io` reads, since no call of std fills a buffer on the stack and says how far where the input ends.
pub fn input(buffer: &mut [u8]) -> &[u8] {
    let n = io::read_full(0, buffer);
    &buffer[..n]
}

// Bytes, shown in hex.
#[derive(Clone, Copy)]
pub struct Hex<'a>(pub &'a [u8]);

impl fmt::Display for Hex<'_> {
    fn fmt<W: fmt::Write>(&self, f: &mut fmt::Formatter<W>) -> fmt::Result {
        for byte in self.0 {
            write!(f, "{byte:02x}")?;
        }
        Ok(())
    }
}

// Capital letters are no digits.
fn digit_value(c: u8) -> Option<u8> {
    match c {
        b'0'..=b'9' => Some(c - b'0'),
        b'a'..=b'f' => Some(c - b'a' + 10),
        _ => None,
    }
}

// The bytes that a line writes in hex, with other bytes anywhere, as many as the buffer holds; a last digit alone is passed over.
pub fn bytes_in<'a>(line: &[u8], buffer: &'a mut [u8]) -> &'a [u8]
    ensures { length result.now ≤ length buffer.old }
{
    let mut digits = line.iter().filter_map(|c| digit_value(*c));
    for (n, byte) in buffer.iter_mut().enumerate() {
        let (Some(high), Some(low)) = (digits.next(), digits.next()) else {
            return &buffer[..n];
        };
        *byte = high << 4 | low;
    }
    buffer
}
