// Removing a stream.
ghost use Rattle.std.specs.Prelude.{◌≡◌, OnOk};
ghost use Rattle.basics.specs.Answers.{answer};
ghost use Rattle.basics.specs.Refusals.{answer_of};
ghost use Rattle.table.specs.Changes.{HasId};
ghost use Rattle.state.specs.Content.{content};
ghost use Rattle.state.specs.Sound.{Sound};
ghost use Rattle.planner.specs.AddRemove.{remove_refusals, IsRemove, changed_by};

use basics::Refusal;
use state::{Planner, sound_start};

// 5 and 14.
#[tactic(auto, using(crate::proofs::Facts::Refused::remove_tests))]
fn remove_refusal(p: &Planner, id: u32) -> Result<(), Refusal>
    ensures answers { answer result ≡ answer_of (remove_refusals p.now id) }
    ensures passed { OnOk result (Sound p.now × HasId id (content p.now).table) }
{
    sound_start(p).ok_or(Refusal::NotSound)?;
    if !p.table.has_id_in_range(id) {
        return Err(Refusal::NoStream);
    }
    Ok(())
}

// The stream's waiting packet goes with it. Refused, the planner stays as it is.
#[tactic(auto, using(crate::proofs::Facts::Changes::removal))]
pub fn take_out(p: &mut Planner, id: u32) -> Result<(), Refusal>
    ensures { IsRemove p.old id (changed_by result p.new) }
{
    remove_refusal(p, id)?;
    p.table.take_out_in_range(id);
    p.queue.delete_sound(id);
    Ok(())
}
