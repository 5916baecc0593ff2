// Whether an id is among others, seldom looked for.
ghost use mathlib.Core.List.{Mem};
ghost use Rattle.basics.specs.Decides.{Decides};
ghost use Rattle.packets.specs.Met.{HasMet};

// Whether an id is among others. `met` has the remainders of these: one whose remainder it has not is not among them, and only for the others they
// are looked through.
pub fn is_met(met: &[u64; 16], ids: &[u16], id: u16) -> bool
    requires { HasMet met.now ids.now }
    ensures { Decides result (Mem id ids.now) }
{
    bits::is_in_below_1024(met, id % 1024) && ids.contains(&id)
}
