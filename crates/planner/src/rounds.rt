// Holding a round.
ghost use Rattle.std.specs.Prelude.{◌≡◌, IfOk, length};
ghost use Rattle.basics.specs.Answers.{answer};
ghost use Rattle.basics.specs.Refusals.{answer_of};
ghost use Rattle.planner.specs.Round.{round_refusals, IsRound, rounded_by};
ghost use Rattle.planner.specs.Needs.{CanHold};

use super::{HeldRound, slots};
use basics::{LAST_START, Refusal};
use state::{Planner, sound_start};

// The start of the round, or 5, 16 or 17.
#[tactic(auto, using(crate::proofs::Facts::Refused::round_tests))]
fn round_start(p: &Planner, buffer: &[u16]) -> Result<u32, Refusal>
    ensures answers { answer result ≡ answer_of (round_refusals p.now buffer.now) }
    ensures passed { IfOk result (λ start. CanHold p.now start (length buffer.now)) }
{
    let start = sound_start(p).ok_or(Refusal::NotSound)?;
    if buffer.len() < p.setting.slots as usize {
        return Err(Refusal::ShortBuffer);
    }
    if LAST_START < start {
        return Err(Refusal::LateStart);
    }
    Ok(start)
}

// The ids of the round's slots, and behind them messages, go to the buffer. Refused, planner and buffer stay as they are.
pub fn hold(p: &mut Planner, buffer: &mut [u16]) -> Result<HeldRound, Refusal>
    ensures { IsRound p.old buffer.old buffer.new (rounded_by result p.new) }
{
    let start = round_start(p, buffer)?;
    let chosen = slots::choose_sound(p, start);
    let free = p.setting.slots as usize - chosen.n;
    let listed = messages::list_in_range(chosen.placed.ids, chosen.n, free, p.waiting);
    buffer[..listed.n].copy_from_slice(&listed.numbers[..listed.n]);
    slots::serve_sound(p, &chosen, start, listed.left);
    Ok(HeldRound {
        start,
        n: listed.n as u32,
    })
}
