// The superframe helper for C: the export of the library's function, under its clause. A crate of its own, since a crate is built as a library or for C.
#![tactic(auto)]

ghost use Rattle.std.specs.Prelude.{◌≡◌};
ghost use Rattle.superframe.specs.Superframe.{superframe_of, packed};

// Annex 9.1 to 9.5: 18 if a period is not 1 to 240, else 19 if the least common multiple is above 5,040, both with value 0; else that multiple.
#[unsafe(no_mangle)]
pub extern "C" fn superframe(periods: &[u8]) -> u32
    ensures { result ≡ packed (superframe_of periods.now) }
{
    superframe::superframe(periods)
}
