// A stream offered to a planner: whether it is refused, and the planner that takes it in.
// Planner and offer are passed side by side: so `IsAdd` and the facts `CanTest` and `CanAdd` name them, and a struct of the two would end at `take_in`,
// which writes to the planner.
ghost use Rattle.std.specs.Prelude.{◌≡◌, ◌∷◌, OnOk, IfOk};
ghost use Rattle.basics.specs.Answers.{answer};
ghost use Rattle.basics.specs.Refusals.{answer_of};
ghost use Rattle.table.specs.Needs.{HasRecords};
ghost use Rattle.state.specs.Content.{content};
ghost use Rattle.state.specs.Sound.{Sound};
ghost use Rattle.planner.specs.AddRemove.{unsound, offer_refusals, rule_refusals, add_refusals, added, IsAdd, changed_by};
ghost use Rattle.planner.specs.Needs.{CanAdd, CanTest};

use super::Offer;
use basics::{FURTHEST_RELEASE, LARGEST_ID, LONGEST_PERIOD, PLACES, Refusal, is_one_to};
use state::{Planner, sound_start};
use table::{Record, Table, busy_length_in_range, next_start_in_range};

// 6 to 11: what speaks of the stream alone. Nothing is added to its start, which can be any number.
#[tactic(auto, using(crate::proofs::Facts::Refused::offer_tests))]
fn offer_refusal_sound(p: &Planner, offer: Offer) -> Result<(), Refusal>
    requires { Sound p.now }
    ensures answers { answer result ≡ answer_of (offer_refusals (content p.now) offer) }
    ensures passed { OnOk result (CanTest p.now offer) }
{
    // As a slice, whose length a proof knows: of an array in a struct behind a reference it has no such fact.
    let _places: &[Record] = &p.table.streams;
    if !is_one_to(offer.id, LARGEST_ID) {
        return Err(Refusal::BadId);
    }
    if p.table.has_id_in_range(offer.id) {
        return Err(Refusal::IdTaken);
    }
    if p.table.count == PLACES {
        return Err(Refusal::Full);
    }
    if !is_one_to(offer.period, LONGEST_PERIOD) || !p.setting.frame.is_multiple_of(offer.period) {
        return Err(Refusal::BadPeriod);
    }
    if !is_one_to(offer.deadline, offer.period) {
        return Err(Refusal::BadDeadline);
    }
    let now = p.last + 1;
    if offer.start < now || now + FURTHEST_RELEASE < offer.start {
        return Err(Refusal::BadRelease);
    }
    Ok(())
}

// 5 to 11: what speaks of the planner as it is, and of the stream alone.
#[tactic(auto, using(crate::proofs::Facts::Refused::not_sound, crate::proofs::Facts::Refused::is_sound))]
fn offer_refusal(p: &Planner, offer: Offer) -> Result<(), Refusal>
    ensures answers { answer result ≡ answer_of (unsound p.now ∷ offer_refusals (content p.now) offer) }
    ensures passed { OnOk result (CanTest p.now offer) }
{
    sound_start(p).ok_or(Refusal::NotSound)?;
    offer_refusal_sound(p, offer)
}

// The table with the stream.
fn table_with_sound(p: &Planner, offer: Offer) -> Table
    requires { CanTest p.now offer }
    ensures { HasRecords (added (content p.now) offer).table result }
{
    // As a slice, whose length a proof knows: of an array in a struct behind a reference it has no such fact.
    let _places: &[Record] = &p.table.streams;
    let mut table = p.table;
    table.put_in_range(Record {
        id: offer.id,
        period: offer.period,
        deadline: offer.deadline,
        release: offer.start,
    });
    table
}

// 12 and 13: the two rules on the table with the stream.
#[tactic(auto, using(crate::proofs::Facts::Add::rule_tests))]
fn rule_refusal_sound(p: &Planner, offer: Offer, table: &Table) -> Result<(), Refusal>
    requires { CanTest p.now offer × HasRecords (added (content p.now) offer).table table.now }
    ensures answers { answer result ≡ answer_of (rule_refusals (added (content p.now) offer)) }
    ensures passed { OnOk result (CanAdd p.now offer) }
{
    let slots = p.setting.stream_slots();
    let busy = busy_length_in_range(table, slots, p.setting.frame).ok_or(Refusal::BreaksDemand)?;
    // Whether there is a start does not depend on the cap, if that is not before now: now is given for it.
    let now = p.last + 1;
    next_start_in_range(table, slots, now, now, busy).ok_or(Refusal::BreaksStart)?;
    Ok(())
}

// 5 to 13. The table with the stream is built once: it is tested here, and it is the one stored.
#[tactic(auto, using(crate::proofs::Facts::Add::add_tests))]
fn test_offer(p: &Planner, offer: Offer) -> Result<Table, Refusal>
    ensures answers { answer result ≡ answer_of (add_refusals p.now offer) }
    ensures passed { IfOk result (λ table. CanAdd p.now offer × HasRecords (added (content p.now) offer).table table) }
{
    offer_refusal(p, offer)?;
    let table = table_with_sound(p, offer);
    rule_refusal_sound(p, offer, &table)?;
    Ok(table)
}

// The planner has the table with the stream, and the queue has the stream under its due time. Refused, the planner stays as it is.
#[tactic(auto, using(crate::proofs::Facts::Changes::change_done, crate::proofs::Facts::Add::taken_in))]
pub fn take_in(p: &mut Planner, offer: Offer) -> Result<(), Refusal>
    ensures { IsAdd p.old offer (changed_by result p.new) }
{
    p.table = test_offer(p, offer)?;
    let due = offer.start + offer.deadline;
    p.queue.insert_sound(offer.id, due, offer.start);
    Ok(())
}
