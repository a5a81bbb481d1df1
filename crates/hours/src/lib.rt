// The yearly report: the minutes from the first record of a log to the last, awake and asleep, and for whom.
#![tactic(auto)]

use table::Table;

pub mod arrays;
mod gather;
mod refusal;
mod tally;

ghost use Rattle.table.specs.Limits.{base};
ghost use Rattle.hours.specs.Said.{figures_of};
ghost use Rattle.hours.specs.Promises.{Reports};

pub use refusal::Refusal;

// One moment of the log: the minute, whether the car is awake from then on, and the roles awaited after that moment's call (role r is the
// digit of weight 2 to the r).
#[derive(Clone, Copy, Debug, Default, PartialEq, Eq)]
pub struct Record {
    pub minute: u32,
    pub awake: bool,
    pub set: u16,
}

// The minutes of an accepted log: all of them, those awake and asleep, and of those awake the ones that await each role alone, several
// roles, and nobody.
#[derive(Clone, Copy, Debug, PartialEq, Eq)]
pub struct Figures {
    pub total: u32,
    pub awake: u32,
    pub asleep: u32,
    pub alone: [u32; Table::ROLES],
    pub several: u32,
    pub nobody: u32,
}

impl Figures {
    // A log has at most MOST records.
    pub const MOST: usize = 4096;
    // Those of a refused log.
    pub const NONE: Figures = Figures {
        total: 0,
        awake: 0,
        asleep: 0,
        alone: [0; Table::ROLES],
        several: 0,
        nobody: 0,
    };
}

// The report of the records.
pub fn report(records: &[Record], roles: usize) -> Result<Figures, Refusal>
    ensures { Reports base records.now roles (figures_of base result) }
{
    gather::of_each(|i| records[i], records.len(), roles)
}
