// The global protocol table: its limits, and the rules that a table's size and a row's own words keep.
#![tactic(auto)]

mod refusal;
mod row;

ghost use Rattle.table.specs.Limits.{base};
ghost use Rattle.table.specs.Check.{Sizes};
ghost use Rattle.table.specs.Refusals.{verdict_of};

pub use refusal::{Refusal, Rule};
pub use row::{Row, link_broken, read};

// A protocol table: its limits. Its words are lent.
#[derive(Clone, Copy, Debug, PartialEq, Eq)]
pub struct Table {}

impl Table {
    // A protocol has from FEWEST_ROLES to ROLES roles.
    pub const FEWEST_ROLES: usize = 2;

    pub const ROLES: usize = 8;

    pub const ROWS: usize = 256;
    // Labels are the numbers below LABELS.
    pub const LABELS: usize = 64;

    // Rules 1 and 2: the length of the table and the number of its roles.
    pub fn sizes(words: &[u16], roles: usize) -> Result<(), Refusal>
        ensures { Sizes base words.now roles (verdict_of result) }
    {
        let length = words.len();
        if length == 0 || length % 4 != 0 || Table::ROWS * 4 < length {
            return Err(Refusal::of_all(Rule::Words));
        }
        if roles < Table::FEWEST_ROLES || Table::ROLES < roles {
            return Err(Refusal::of_all(Rule::Roles));
        }
        Ok(())
    }
}
