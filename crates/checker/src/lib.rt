// A checker of plans that somebody else made: packets laid end to end, and a planner to begin from. Nothing is taken on trust.
#![tactic(auto)]

ghost use Rattle.std.specs.Prelude.{◌≡◌};
ghost use Rattle.state.specs.Sound.{Sound};
ghost use Rattle.table.specs.Table.{records_of};
ghost use Rattle.checker.specs.Verdicts.{IsFinding, IsVerdict};

use basics::Refusal;
pub use round_rules::Rule;
use rounds::check_round;
use sending::Streams;
use state::Planner;

mod round_rules;
mod rounds;
mod sending;

// Annex 14.12: 0 and 0 of a sound plan; 0 and the number, from 1, of the first round that breaks a rule; 5 and 0 if the planner is not sound.
// The C interface: the header's struct has the same fields in the same order.
#[repr(C)]
#[derive(Clone, Copy)]
pub struct Verdict {
    pub answer: u32,
    pub round: u32,
}

// Annex 14.13: how many rounds pass and how many bytes they have, and the number of the rule that the next one breaks, 0 if there is none.
// All are numbers, since Annex 14.13 and `IsFinding` have four numbers, of a planner that is refused too.
#[derive(Clone, Copy)]
pub struct Finding {
    pub answer: u32,
    pub passed: u32,
    pub rule: u32,
    pub at: usize,
}

// How far a plan passes from a planner that is sound and whose streams these are. They are handed over, not made here: a variable for what a call
// returns is zeroed first, and this one has 2,056 bytes.
fn find_sound(p: Planner, mut streams: Streams, plan: &[u8]) -> Finding
    requires sound { Sound p }
    requires held { streams ≡ records_of p.table }
    ensures { IsFinding p plan.now result }
{
    let mut last = p.last;
    let mut passed: u32 = 0;
    let mut at: usize = 0;
    // The place is counted, as `Finding` hands it back; a rest that shrinks would stand beside it (Annex 14.13).
    while at < plan.len() {
        match check_round(p.setting, last, &plan[at..], &mut streams) {
            Ok(round) => {
                passed += 1;
                last = round.start;
                at += round.length;
            }
            Err(rule) => {
                return Finding {
                    answer: 0,
                    passed,
                    rule: u32::from(rule),
                    at,
                };
            }
        }
    }
    Finding {
        answer: 0,
        passed,
        rule: 0,
        at,
    }
}

// Annex 14.13: how far a plan passes, and the first rule that its next round breaks.
pub fn find(p: Planner, plan: &[u8]) -> Finding
    ensures { IsFinding p plan.now result }
{
    match state::sound_start(&p) {
        Some(_) => find_sound(p, Streams::of_table(&p.table), plan),
        None => Finding {
            answer: u32::from(Refusal::NotSound),
            passed: 0,
            rule: 0,
            at: 0,
        },
    }
}

// Annex 14.1, 14.12: whether the bytes are a sound plan from this planner on, or which round is the first that breaks a rule.
pub fn check(p: Planner, plan: &[u8]) -> Verdict
    ensures { IsVerdict p plan.now result }
{
    let found = find(p, plan);
    if found.rule == 0 {
        return Verdict {
            answer: found.answer,
            round: 0,
        };
    }
    Verdict {
        answer: 0,
        round: found.passed + 1,
    }
}
