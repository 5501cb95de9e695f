// Timestamps and their order.
ghost use Rattle.std.specs.Prelude.{◌≡◌};
ghost use Rattle.hermes_record.specs.Order.{rule_number, rule_of, ties, later};

// The rule of ties: of two timestamps with one version the higher number wins (document 01), or the lower (document 02, Wish 6).
#[derive(Clone, Copy, Debug, PartialEq, Eq)]
pub enum Rule {
    Higher = 1,
    Lower = 2,
}

// A number that no rule has.
#[derive(Clone, Copy, Debug, PartialEq, Eq)]
pub struct UnknownRule(pub u8);

impl Rule {
    // Does tie-breaker a win against b?
    fn wins(self, a: u8, b: u8) -> bool
        ensures { result ≡ ties self a b }
    {
        match self {
            Rule::Higher => b < a,
            Rule::Lower => a < b,
        }
    }
}

// The rules by their numbers, as byte 0 of a packet has them.
impl From<Rule> for u8 {
    ghost from_gives = { λ rule number. number ≡ rule_number rule };

    fn from(rule: Rule) -> u8 {
        rule as u8
    }
}

impl TryFrom<u8> for Rule {
    type Error = UnknownRule;

    ghost try_from_gives = { λ number rule. rule ≡ rule_of number };

    fn try_from(number: u8) -> Result<Rule, UnknownRule> {
        match number {
            1 => Ok(Rule::Higher),
            2 => Ok(Rule::Lower),
            _ => Err(UnknownRule(number)),
        }
    }
}

// Document 01's stamp: a version and a tie-breaker. It has no order of its own: which of two is the greater is the rule's to say.
#[derive(Clone, Copy, Debug, PartialEq, Eq)]
pub struct Timestamp {
    pub version: u32,
    pub tie: u8,
}

impl Timestamp {
    // Is this the greater timestamp, by this rule?
    pub fn later(self, other: Timestamp, rule: Rule) -> bool
        ensures { result ≡ later (ties rule) self other }
    {
        let won = rule.wins(self.tie, other.tie);
        (other.version < self.version) | ((self.version == other.version) & won)
    }
}
