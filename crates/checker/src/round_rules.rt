// The rules of a round, and the numbers by which hosts know them.
ghost use Rattle.std.specs.Prelude.{◌≡◌, MatchResult};
ghost use Rattle.checker.specs.Plans.{number_of};
ghost use Rattle.checker.specs.Rules.{rule_of, NumbersNone};

// Annex 14.3 to 14.7: what a round has to keep: its packet is good, its start fits, it has room for its stream ids, its slots may be sent, and nothing
// due by its end is left.
#[derive(Clone, Copy, Debug, PartialEq, Eq)]
pub enum Rule {
    Packet = 1,
    Start = 2,
    Room = 3,
    Slots = 4,
    Rest = 5,
}

impl From<Rule> for u32 {
    ghost from_gives = { λ rule number. number ≡ number_of (rule_of rule) };

    fn from(rule: Rule) -> u32 {
        rule as u32
    }
}

// The rule that a number of `Finding` stands for; 0 and all others stand for none, and are handed back.
impl TryFrom<u32> for Rule {
    type Error = u32;

    ghost try_from_gives = { λ number r. MatchResult r (λ rule. number ≡ number_of (rule_of rule)) (λ back. (back ≡ number) × NumbersNone number) };

    fn try_from(number: u32) -> Result<Rule, u32> {
        match number {
            1 => Ok(Rule::Packet),
            2 => Ok(Rule::Start),
            3 => Ok(Rule::Room),
            4 => Ok(Rule::Slots),
            5 => Ok(Rule::Rest),
            _ => Err(number),
        }
    }
}
