// The planner that the firmware keeps and lends to each call, to be changed, or by check to be read: thin forms over the calls by value. The crate lent_c exports them to C.
// A refused call stores nothing (Annex 7.37, 13.6): add, remove, send and round store the planner only where the answer is 0; open stores always, and
// check never (Annex 14.16).
// Each calls the form by value, which docs/DECISIONS.md asks for (the table of forms).

#![tactic(auto)]

ghost use Rattle.std.specs.Prelude.{◌≡◌, length, take};
ghost use Rattle.basics.specs.Version.{version};
ghost use Rattle.state.specs.Open.{setting};
ghost use Rattle.planner.specs.AddRemove.{offer};
ghost use Rattle.lent.specs.Lent.{IsLentOpen, IsLentAdd, IsLentRemove, IsLentSend, IsLentRound, IsLentCheck, IsKept, held_of};

use checker::Verdict;
use planner::{Changed, Planner, Rounded};

// What a round answers beside the planner: its start and the count of numbers written, both 0 if refused.
// The C interface: the header's struct has the same fields in the same order.
#[repr(C)]
#[derive(Clone, Copy)]
pub struct Held {
    pub answer: u32,
    pub start: u32,
    pub n: u32,
}

impl From<&Rounded> for Held {
    ghost from_gives = { λ rounded held. held ≡ held_of rounded.now };

    fn from(rounded: &Rounded) -> Held {
        Held {
            answer: rounded.answer,
            start: rounded.start,
            n: rounded.n,
        }
    }
}

// Opens the lent planner, whatever it held; the answer is that of open.
pub fn planner_open(
    p: &mut Planner,
    slots: u32,
    frame: u32,
    gap: u32,
    last: u32,
    messages: u32,
) -> u32
    ensures { IsLentOpen (setting slots frame gap messages) last p.new result }
{
    let opened = planner::open(slots, frame, gap, last, messages);
    *p = opened.planner;
    opened.answer
}

// The planner that a change made is stored where the answer is 0; the answer is that of the change.
fn kept(p: &mut Planner, changed: &Changed) -> u32
    ensures { IsKept p.old changed.now p.new result }
{
    if changed.answer == 0 {
        *p = changed.planner;
    }
    changed.answer
}

// Adds a stream to the lent planner; the answer is that of add.
#[tactic(auto, using(crate::proofs::Facts::kept_change))]
pub fn planner_add(p: &mut Planner, id: u32, start: u32, period: u32, deadline: u32) -> u32
    ensures { IsLentAdd p.old (offer id start period deadline) p.new result }
{
    let added = planner::add(*p, id, start, period, deadline);
    kept(p, &added)
}

// Takes a stream out of the lent planner; the answer is that of remove.
#[tactic(auto, using(crate::proofs::Facts::kept_change))]
pub fn planner_remove(p: &mut Planner, id: u32) -> u32
    ensures { IsLentRemove p.old id p.new result }
{
    let removed = planner::remove(*p, id);
    kept(p, &removed)
}

// Has a message wait in the lent planner; the answer is that of send.
#[tactic(auto, using(crate::proofs::Facts::kept_change))]
pub fn planner_send(p: &mut Planner, number: u32) -> u32
    ensures { IsLentSend p.old number p.new result }
{
    let sent = planner::send(*p, number);
    kept(p, &sent)
}

// Holds a round of the lent planner, and writes its ids and messages into the buffer; the answer is that of round.
pub fn planner_round(p: &mut Planner, buffer: &mut [u16]) -> Held
    ensures { IsLentRound p.old buffer.old buffer.new p.new result }
{
    let rounded = planner::round(*p, buffer);
    if rounded.answer == 0 {
        *p = rounded.planner;
    }
    Held::from(&rounded)
}

// Checks a plan that somebody else made from the lent planner on, and stores nothing in either; the answer is that of check.
pub fn planner_check(p: &Planner, plan: &[u8]) -> Verdict
    ensures { IsLentCheck p.now plan.now result }
{
    checker::check(*p, plan)
}

// Annex 7.36: how long the part is that `planner::filled` hands back: C takes that many places from the front of its own buffer.
pub fn planner_filled(buffer: &[u16], n: u32) -> usize
    ensures { result ≡ length (take n buffer.now) }
{
    planner::filled(buffer, n).len()
}

// Annex 7.40: the number of this version, so that a host can refuse a library of another.
pub fn planner_version() -> u32
    ensures { result ≡ version }
{
    basics::VERSION
}
