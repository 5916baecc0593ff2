// The planner for C: the forms of `lent` over a planner that the firmware keeps, exported under their clauses.
// A crate of its own: the toolchain builds a crate as a library or for C.
#![tactic(auto)]

ghost use Rattle.std.specs.Prelude.{◌≡◌, length, take};
ghost use Rattle.basics.specs.Version.{version};
ghost use Rattle.state.specs.Open.{setting};
ghost use Rattle.planner.specs.AddRemove.{offer};
ghost use Rattle.lent.specs.Lent.{IsLentOpen, IsLentAdd, IsLentRemove, IsLentSend, IsLentRound, IsLentCheck};

use checker::Verdict;
use lent::Held;
use planner::Planner;

// Opens the lent planner, whatever it held; the answer is that of open.
#[unsafe(no_mangle)]
pub extern "C" fn planner_open(
    p: &mut Planner,
    slots: u32,
    frame: u32,
    gap: u32,
    last: u32,
    messages: u32,
) -> u32
    ensures { IsLentOpen (setting slots frame gap messages) last p.new result }
{
    lent::planner_open(p, slots, frame, gap, last, messages)
}

// Adds a stream to the lent planner; the answer is that of add.
#[unsafe(no_mangle)]
pub extern "C" fn planner_add(
    p: &mut Planner,
    id: u32,
    start: u32,
    period: u32,
    deadline: u32,
) -> u32
    ensures { IsLentAdd p.old (offer id start period deadline) p.new result }
{
    lent::planner_add(p, id, start, period, deadline)
}

// Takes a stream out of the lent planner; the answer is that of remove.
#[unsafe(no_mangle)]
pub extern "C" fn planner_remove(p: &mut Planner, id: u32) -> u32
    ensures { IsLentRemove p.old id p.new result }
{
    lent::planner_remove(p, id)
}

// Has a message wait in the lent planner; the answer is that of send.
#[unsafe(no_mangle)]
pub extern "C" fn planner_send(p: &mut Planner, number: u32) -> u32
    ensures { IsLentSend p.old number p.new result }
{
    lent::planner_send(p, number)
}

// Holds a round of the lent planner, and writes its ids and messages into the buffer; the answer is that of round.
#[unsafe(no_mangle)]
pub extern "C" fn planner_round(p: &mut Planner, buffer: &mut [u16]) -> Held
    ensures { IsLentRound p.old buffer.old buffer.new p.new result }
{
    lent::planner_round(p, buffer)
}

// Checks a plan that somebody else made from the lent planner on, and stores nothing in either; the answer is that of check.
#[unsafe(no_mangle)]
pub extern "C" fn planner_check(p: &Planner, plan: &[u8]) -> Verdict
    ensures { IsLentCheck p.now plan.now result }
{
    lent::planner_check(p, plan)
}

// Annex 7.36: how long the part is that `planner::filled` hands back: C takes that many places from the front of its own buffer.
#[unsafe(no_mangle)]
pub extern "C" fn planner_filled(buffer: &[u16], n: u32) -> usize
    ensures { result ≡ length (take n buffer.now) }
{
    lent::planner_filled(buffer, n)
}

// Annex 7.40: the number of this version, so that a host can refuse a library of another.
#[unsafe(no_mangle)]
pub extern "C" fn planner_version() -> u32
    ensures { result ≡ version }
{
    lent::planner_version()
}
