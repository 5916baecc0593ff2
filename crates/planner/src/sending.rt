// Sending a message: it waits for a free slot of a round.
ghost use Rattle.std.specs.Prelude.{◌≡◌, OnOk};
ghost use Rattle.basics.specs.Answers.{answer};
ghost use Rattle.basics.specs.Refusals.{answer_of};
ghost use Rattle.planner.specs.AddRemove.{changed_by};
ghost use Rattle.planner.specs.Send.{send_refusals, IsSend};
ghost use Rattle.planner.specs.Needs.{CanSend};

use basics::{MOST_WAITING, Refusal};
use state::{Planner, sound_start};

// 5, 29 and 30.
#[tactic(auto, using(crate::proofs::Facts::Refused::send_tests))]
fn send_refusal(p: &Planner, number: u32) -> Result<(), Refusal>
    ensures answers { answer result ≡ answer_of (send_refusals p.now number) }
    ensures passed { OnOk result (CanSend p.now number) }
{
    // As a slice, whose length a proof knows: of an array in a struct behind a reference it has no such fact.
    let _numbers: &[u16] = &p.waiting.numbers;
    sound_start(p).ok_or(Refusal::NotSound)?;
    if !messages::is_message(number) || p.setting.messages == 0 {
        return Err(Refusal::BadMessage);
    }
    if p.waiting.count == MOST_WAITING {
        return Err(Refusal::WaitingFull);
    }
    Ok(())
}

// The number waits behind those that were sent before. Refused, the planner stays as it is.
#[tactic(auto, using(crate::proofs::Facts::Changes::change_done, crate::proofs::Facts::Mail::posted_with))]
pub fn let_wait(p: &mut Planner, number: u32) -> Result<(), Refusal>
    ensures { IsSend p.old number (changed_by result p.new) }
{
    send_refusal(p, number)?;
    p.waiting = messages::put_last_in_range(p.waiting, number as u16);
    Ok(())
}
