// A line of text as far as it is read: its first byte, and the numbers behind that, each behind a comma or a blank. Any other byte is passed over.

// The first byte, if there is one, and the numbers behind the first comma or blank.
#[derive(Clone, Copy, Default)]
pub struct Line {
    pub letter: Option<u8>,
    pub numbers: [u32; 5],
}

// Zeros before anything else are no part of a line.
pub fn begun(text: &[u8]) -> &[u8] {
    match text.iter().position(|c| *c != 0) {
        Some(first) => &text[first..],
        None => &[],
    }
}

// The digits of a field as a number, modulo 2^32.
fn number_in(field: &[u8]) -> u32 {
    field
        .iter()
        .filter_map(|c| char::from(*c).to_digit(10))
        .fold(0u32, |x, digit| x.wrapping_mul(10).wrapping_add(digit))
}

pub fn line_of(text: &[u8]) -> Line {
    let mut line = Line::default();
    if let Some((letter, fields)) = begun(text).split_first() {
        line.letter = Some(*letter);
        let fields = fields.split(|c| matches!(*c, b',' | b' ')).skip(1);
        for (number, field) in line.numbers.iter_mut().zip(fields) {
            *number = number_in(field);
        }
    }
    line
}
