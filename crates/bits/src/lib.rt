// Sets of small numbers as binary digits: of the numbers 0 to 63 in one number of 64 bits, of 0 to 1,023 in 16 of them.
#![tactic(auto)]

ghost use Rattle.std.specs.Prelude.{◌≡◌, ◌<◌, length};
ghost use Rattle.basics.specs.Decides.{Decides};
ghost use Rattle.bits.specs.Bits.{In, IsWith, InWords, IsWordsWith};

// Whether n is in the set.
fn is_in_below_64(set: u64, n: u32) -> bool
    requires { n < 64 }
    ensures { Decides result (In set n) }
{
    (set >> n) % 2 == 1
}

// The set with n in it.
fn with_below_64(set: u64, n: u32) -> u64
    requires { n < 64 }
    ensures { IsWith set n result }
{
    set | (1u64 << n)
}

// Whether x is in the set of 16 words.
pub fn is_in_below_1024(words: &[u64; 16], x: u16) -> bool
    requires { x < 1_024 }
    ensures { Decides result (InWords words.now x) }
{
    is_in_below_64(words[usize::from(x / 64)], u32::from(x % 64))
}

// Puts x into the set of 16 words.
pub fn put_below_1024(words: &mut [u64; 16], x: u16)
    requires { (x < 1_024) × (length words.old ≡ 16) }
    ensures { IsWordsWith words.old x words.new }
{
    let word = &mut words[usize::from(x / 64)];
    *word = with_below_64(*word, u32::from(x % 64));
}
