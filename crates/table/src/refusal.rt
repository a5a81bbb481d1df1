// What a check or an opening says of a table that it refuses.
ghost use Rattle.std.specs.Prelude.{◌≡◌};
ghost use Rattle.table.specs.Refusals.{number_of};

// The rules of a table in the order in which they are tested.
#[derive(Clone, Copy, Debug, PartialEq, Eq)]
pub enum Rule {
    Words,
    Roles,
    Room,
    Kind,
    Field,
    Link,
    Named,
    Twice,
    Unbound,
    Unguarded,
    NoPart,
}

// The number by which callers in C and readers of the programs' lines know a rule.
impl From<Rule> for u8 {
    ghost from_gives = { λ rule number. number ≡ number_of rule };

    fn from(rule: Rule) -> u8 {
        match rule {
            Rule::Words => 1,
            Rule::Roles => 2,
            Rule::Room => 3,
            Rule::Kind => 4,
            Rule::Field => 5,
            Rule::Link => 6,
            Rule::Named => 7,
            Rule::Twice => 8,
            Rule::Unbound => 9,
            Rule::Unguarded => 10,
            Rule::NoPart => 11,
        }
    }
}

// The first rule that is broken, and the row or the role that breaks it, 0 where it is the table as a whole.
// kept: a place beside each rule, since callers in C and the programs' lines are given one, 0 for the whole
#[derive(Clone, Copy, Debug, PartialEq, Eq)]
pub struct Refusal {
    pub rule: Rule,
    pub place: usize,
}

impl Refusal {
    // The table as a whole breaks the rule.
    pub fn of_all(rule: Rule) -> Refusal
        ensures { result ≡ record { rule = rule; place = 0 } }
    {
        Refusal { rule, place: 0 }
    }
}
