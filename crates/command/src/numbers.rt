// The number at the start of some bytes.
ghost use Rattle.std.specs.Prelude.{◌≡◌, slice_index, EachIndex};
ghost use Rattle.std.specs.List.{prefix_len};
ghost use Rattle.std.specs.Char.{is_ascii_digit};
ghost use Rattle.basics.specs.Decides.{Decides};
ghost use Rattle.command.specs.Reads.{IsDigit, HasLeadingZero, IsValueOf, IsReadNumber};

// A number in text: its value, and how many bytes it takes.
#[derive(Clone, Copy)]
pub struct Numeral {
    pub value: u32,
    pub taken: usize,
}

// How many bytes at the start are digits.
fn count_digits(bytes: &[u8]) -> usize
    ensures { result ≡ prefix_len is_ascii_digit bytes.now }
{
    bytes
        .iter()
        .take_while(|byte| byte.is_ascii_digit())
        .count()
}

// Whether the first digit is a 0 and others follow.
fn has_leading_zero(digits: &[u8]) -> bool
    ensures { Decides result (HasLeadingZero digits.now) }
{
    matches!(digits, [b'0', _, ..])
}

// The value of digits, if it fits 32 bits. `str::parse` takes a text, whose UTF-8 would be looked at first, and a `+` in front of it.
fn value_of_digits(digits: &[u8]) -> Option<u32>
    requires { EachIndex digits.now (λ k. IsDigit (slice_index digits.now k)) }
    ensures { IsValueOf digits.now result }
{
    let mut value: u32 = 0;
    for digit in digits {
        value = value
            .checked_mul(10)?
            .checked_add(u32::from(*digit - b'0'))?;
    }
    Some(value)
}

// The number at the start of the bytes: all digits up to the first other byte. With a 0 before another digit they are none.
pub fn read_number(bytes: &[u8]) -> Option<Numeral>
    ensures { IsReadNumber bytes.now result }
{
    let taken = count_digits(bytes);
    if taken == 0 {
        return None;
    }
    let digits = &bytes[..taken];
    if has_leading_zero(digits) {
        return None;
    }
    let value = value_of_digits(digits)?;
    Some(Numeral { value, taken })
}
