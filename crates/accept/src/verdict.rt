// The line that says what the checker found.
ghost use Rattle.std.specs.Prelude.{◌≤◌, length};

use crate::complaint::{SystemWords, complain};
use checker::{Finding, Rule};
use planner::Planner;
use round_tests::packet_length;
use std::fmt;
use std::fmt::{Display, Formatter, InlineText};

// A count and its unit, as in `1 round` and `2 rounds`.
#[derive(Clone, Copy)]
struct Count(u64, &'static str);

impl Display for Count {
    fn fmt<W: fmt::Write>(&self, f: &mut Formatter<W>) -> fmt::Result {
        let ending = if self.0 == 1 { "" } else { "s" };
        write!(f, "{} {}{ending}", self.0, self.1)
    }
}

// The numbers of a packet, each of two bytes.
#[derive(Clone, Copy)]
struct Numbers<'p>(&'p [u8]);

impl Display for Numbers<'_> {
    fn fmt<W: fmt::Write>(&self, f: &mut Formatter<W>) -> fmt::Result {
        let (pairs, _) = self.0.as_chunks::<2>();
        if pairs.is_empty() {
            return f.write_str("no ids");
        }
        f.write_str("ids")?;
        for pair in pairs {
            write!(f, " {}", u16::from_be_bytes(*pair))?;
        }
        Ok(())
    }
}

// What stands in a round: the start and the numbers of the packet in front of these bytes; of a packet cut short, how many bytes are left.
#[derive(Clone, Copy)]
struct Round<'p>(&'p [u8]);

impl Display for Round<'_> {
    fn fmt<W: fmt::Write>(&self, f: &mut Formatter<W>) -> fmt::Result {
        let rest = self.0;
        let Some(whole) = packet_length(rest) else {
            return write!(f, "{} left", Count(rest.len() as u64, "byte"));
        };
        let start = packet_bytes::start_of_header(rest);
        write!(f, "start {start}, {}", Numbers(&rest[6..whole]))
    }
}

// A rule's number, and what breaks it in words, with its clause.
#[derive(Clone, Copy)]
struct BrokenRule(Rule);

impl Display for BrokenRule {
    fn fmt<W: fmt::Write>(&self, f: &mut Formatter<W>) -> fmt::Result {
        let words = match self.0 {
            Rule::Packet => "its packet is cut short, not good, or has another B (14.3)",
            Rule::Start => "its start is not after the last start, or past the gap limit (14.4)",
            Rule::Room => "it has more stream ids than slots for streams (14.5)",
            Rule::Slots => "an id is not held, or its packet is unreleased or late (14.6)",
            Rule::Rest => "a packet due by its end is left (14.7)",
        };
        write!(f, "rule {}, {words}", u32::from(self.0))
    }
}

// What was found of a plan: the first round that breaks a rule is in front of `rest`.
#[derive(Clone, Copy)]
enum Verdict<'p> {
    NotSound,
    Sound {
        rounds: u32,
    },
    Broken {
        number: u64,
        rule: Rule,
        rest: &'p [u8],
    },
}

impl Display for Verdict<'_> {
    fn fmt<W: fmt::Write>(&self, f: &mut Formatter<W>) -> fmt::Result {
        match self {
            Verdict::NotSound => f.write_str("refused, 5: the planner is not sound"),
            Verdict::Sound { rounds } => write!(f, "sound, {}", Count(u64::from(*rounds), "round")),
            Verdict::Broken { number, rule, rest } => {
                write!(
                    f,
                    "round {number} breaks a rule: {}; {}",
                    Round(rest),
                    BrokenRule(*rule)
                )
            }
        }
    }
}

// The checker's numbers as a verdict.
fn verdict_of(found: Finding, plan: &[u8]) -> Verdict<'_>
    requires { found.at ≤ length plan.now }
{
    if found.answer != 0 {
        return Verdict::NotSound;
    }
    match Rule::try_from(found.rule) {
        Ok(rule) => Verdict::Broken {
            number: u64::from(found.passed) + 1,
            rule,
            rest: &plan[found.at..],
        },
        Err(_) => Verdict::Sound {
            rounds: found.passed,
        },
    }
}

// Says on standard output what the checker finds of a plan, in one write, so that lines of programs that share a pipe do not mix. The longest line has 255
// numbers of five digits.
pub fn say(rt: HostRuntime, p: Planner, plan: &[u8]) {
    let verdict = verdict_of(checker::find(p, plan), plan);
    let line = InlineText::<2048>::of(format_args!("{verdict}\n"));
    if let Err(error) = rt.write_all(line.as_str().as_bytes()) {
        complain(rt, b"standard output", SystemWords(error));
    }
}
