// The lazy round planner: a planner goes in by value and comes back by value. What it is and when it is sound, the crate state has.
// Each call stands on one that changes a planner in place.
#![tactic(auto)]

ghost use Rattle.std.specs.Prelude.{◌≡◌, take};
ghost use Rattle.planner.specs.AddRemove.{offer, IsAdd, IsRemove, changed_by};
ghost use Rattle.planner.specs.Send.{IsSend};
ghost use Rattle.planner.specs.Round.{IsRound};

use basics::{Refusal, answer};
use offers::take_in;
use removal::take_out;
use rounds::hold;
use sending::let_wait;
pub use state::{Changed, Planner, Setting, open, sound_start};

mod offers;
mod removal;
mod rounds;
mod sending;
mod slots;

// What add is passed: a stream's id, the start S of its first packet, P and D.
#[derive(Clone, Copy)]
pub struct Offer {
    pub id: u32,
    pub start: u32,
    pub period: u32,
    pub deadline: u32,
}

// A round that is held: its start and the count of numbers written.
#[derive(Clone, Copy)]
pub struct HeldRound {
    pub start: u32,
    pub n: u32,
}

// What a round answers: its start and the count of numbers written, both 0 if refused, and the planner after it.
// The answer is a number beside them, since a refused round gives its zeros and its planner too (Annex 7.31; `IsRound`, theorem `same_outcomes`).
#[derive(Clone, Copy)]
pub struct Rounded {
    pub answer: u32,
    pub planner: Planner,
    pub start: u32,
    pub n: u32,
}

// What a change answers by its outcome, and the planner after it.
fn changed_by(outcome: Result<(), Refusal>, planner: Planner) -> Changed
    ensures { result ≡ changed_by outcome planner }
{
    Changed {
        answer: answer(outcome),
        planner,
    }
}

// Annex 7.10 to 7.20: takes a stream in, whose first packet is released at `start`.
pub fn add(mut p: Planner, id: u32, start: u32, period: u32, deadline: u32) -> Changed
    ensures { IsAdd p (offer id start period deadline) result }
{
    let offer = Offer {
        id,
        start,
        period,
        deadline,
    };
    let outcome = take_in(&mut p, offer);
    changed_by(outcome, p)
}

// Annex 7.22, 7.23: takes a stream out, and its waiting packet with it.
pub fn remove(mut p: Planner, id: u32) -> Changed
    ensures { IsRemove p id result }
{
    let outcome = take_out(&mut p, id);
    changed_by(outcome, p)
}

// Annex 7.41 to 7.45: a message joins those that wait.
pub fn send(mut p: Planner, number: u32) -> Changed
    ensures { IsSend p number result }
{
    let outcome = let_wait(&mut p, number);
    changed_by(outcome, p)
}

// Annex 7.24 to 7.32, 7.46, 7.47: holds the next round; its ids, and behind them messages, go to the first n elements of the buffer.
pub fn round(mut p: Planner, buffer: &mut [u16]) -> Rounded
    ensures { IsRound p buffer.old buffer.new result }
{
    match hold(&mut p, buffer) {
        Ok(held) => Rounded {
            answer: 0,
            planner: p,
            start: held.start,
            n: held.n,
        },
        Err(refusal) => Rounded {
            answer: u32::from(refusal),
            planner: p,
            start: 0,
            n: 0,
        },
    }
}

// Annex 7.34: the part of the slot buffer that a round filled: its first n places, or all of it if n is above its length.
pub fn filled(buffer: &[u16], n: u32) -> &[u16]
    ensures { result.now ≡ take n buffer.now }
{
    &buffer[..buffer.len().min(n as usize)]
}
