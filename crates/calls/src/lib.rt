// Calls of a planner, made and printed, each on a line of its own, for programs that show what the planner answers:
//   O,B,F,G,T,MESSAGES: ANSWER
//   A,ID,S,P,D: ANSWER
//   D,ID: ANSWER
//   S,NUMBER: ANSWER
//   R LENGTH: ANSWER START N ELEMENT ..     with a buffer of LENGTH elements, each of which was 0; all of them are printed
//   C,BYTES: ANSWER ROUND PASSED RULE AT    of a plan in hex, the verdict, and behind it what was found: how many rounds passed, which rule the
//                                           next one breaks, and how many bytes passed
// A call is written as a line of vectors/library, which says it again to any other host; `Call::from` a line reads it, all but a check.
#![tactic(auto)]

use checker::{Finding, Verdict};
use line::{Line, line_of};
use planner::{Planner, Rounded};
use std::fmt;
use text::Hex;

pub mod cases;
pub mod line;
mod memory;

// A round's buffer has so many elements at most.
const MOST_ELEMENTS: usize = 70;

// A call, with its numbers in the order of its line.
#[derive(Clone, Copy)]
pub enum Call {
    Open(u32, u32, u32, u32, u32),
    Add(u32, u32, u32, u32),
    Remove(u32),
    Send(u32),
    Round(u32),
}

// What a call answered, and the start of a round that was held.
#[derive(Clone, Copy)]
pub struct Answered {
    pub answer: u32,
    pub start: Option<u32>,
}

// The call that a line says; one with another letter is a round.
impl From<Line> for Call {
    fn from(line: Line) -> Call {
        let [a, b, c, d, e] = line.numbers;
        match line.letter {
            Some(b'O') => Call::Open(a, b, c, d, e),
            Some(b'A') => Call::Add(a, b, c, d),
            Some(b'D') => Call::Remove(a),
            Some(b'S') => Call::Send(a),
            _ => Call::Round(a),
        }
    }
}

impl fmt::Display for Call {
    fn fmt<W: fmt::Write>(&self, f: &mut fmt::Formatter<W>) -> fmt::Result {
        match *self {
            Call::Open(slots, frame, gap, last, messages) => {
                write!(f, "O,{slots},{frame},{gap},{last},{messages}")
            }
            Call::Add(id, start, period, deadline) => {
                write!(f, "A,{id},{start},{period},{deadline}")
            }
            Call::Remove(id) => write!(f, "D,{id}"),
            Call::Send(number) => write!(f, "S,{number}"),
            Call::Round(length) => write!(f, "R {length}"),
        }
    }
}

// The elements of a buffer, each shown behind a blank.
#[derive(Clone, Copy)]
struct Elements<'a>(&'a [u16]);

impl fmt::Display for Elements<'_> {
    fn fmt<W: fmt::Write>(&self, f: &mut fmt::Formatter<W>) -> fmt::Result {
        for element in self.0 {
            write!(f, " {element}")?;
        }
        Ok(())
    }
}

// A planner that is kept, whose calls are printed. A write that fails is passed over, since the planner has moved whether or not its answer is seen.
#[derive(Clone, Copy)]
pub struct Host<'a> {
    pub rt: &'a HostRuntime,
    pub planner: Planner,
}

impl<'a> Host<'a> {
    // The planner begins closed.
    pub fn new(rt: &'a HostRuntime) -> Host<'a> {
        Host {
            rt,
            planner: planner::open(0, 0, 0, 0, 0).planner,
        }
    }

    fn round(&mut self, length: u32) -> Answered {
        let mut buffer = [0; MOST_ELEMENTS];
        let elements = &mut buffer[..MOST_ELEMENTS.min(length as usize)];
        let held = planner::round(self.planner, elements);
        self.planner = held.planner;
        let Rounded {
            answer,
            start,
            n,
            ..
        } = held;
        let call = Call::Round(length);
        let _ = println!(self.rt; "{call}: {answer} {start} {n}{}", Elements(elements));
        Answered {
            answer,
            start: (answer == 0).then_some(start),
        }
    }

    // Makes a call, and prints it with its answer.
    pub fn make(&mut self, call: Call) -> Answered {
        let p = self.planner;
        let changed = match call {
            Call::Open(slots, frame, gap, last, messages) => {
                planner::open(slots, frame, gap, last, messages)
            }
            Call::Add(id, start, period, deadline) => planner::add(p, id, start, period, deadline),
            Call::Remove(id) => planner::remove(p, id),
            Call::Send(number) => planner::send(p, number),
            Call::Round(length) => return self.round(length),
        };
        self.planner = changed.planner;
        let answer = changed.answer;
        let _ = println!(self.rt; "{call}: {answer}");
        Answered {
            answer,
            start: None,
        }
    }

    // Does what a line says that is no check: with a small letter it sets a number in the planner, and prints nothing.
    pub fn run_line(&mut self, text: &[u8]) {
        let line = line_of(text);
        if matches!(line.letter, Some(b'a'..)) {
            memory::set(&mut self.planner, &line);
            return;
        }
        self.make(Call::from(line));
    }

    // A check, which leaves the planner as it is. What is found has the answer of the verdict, or the line says that it differs.
    pub fn check(&self, plan: &[u8]) {
        let Verdict { answer, round } = checker::check(self.planner, plan);
        let found = checker::find(self.planner, plan);
        let differs = if found.answer == answer {
            ""
        } else {
            " differs"
        };
        let Finding {
            passed,
            rule,
            at,
            ..
        } = found;
        let _ = println!(self.rt;
            "C,{}: {answer} {round} {passed} {rule} {at}{differs}",
            Hex(plan)
        );
    }
}
