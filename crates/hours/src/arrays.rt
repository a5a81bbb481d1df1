// The report of a log that is lent as three arrays.
ghost use Rattle.table.specs.Limits.{base};
ghost use Rattle.hours.specs.Said.{figures_of};
ghost use Rattle.hours.specs.Promises.{ReportsArrays};

use crate::{Figures, Record, Refusal, gather};

// Record i is minute i, whether flag i is not 0, and set i.
// kept: three arrays, since docs/PROMISES.md names this function and what it promises of them
pub fn report(minutes: &[u32], flags: &[u8], sets: &[u16], roles: usize) -> Result<Figures, Refusal>
    ensures { ReportsArrays base minutes.now flags.now sets.now roles (figures_of base result) }
{
    let length = minutes.len();
    if flags.len() != length || sets.len() != length {
        // No list of records: refused as one that is too long.
        gather::check_roles(roles)?;
        return Err(Refusal::Records);
    }
    let read = |i| Record {
        minute: minutes[i],
        awake: flags[i] != 0,
        set: sets[i],
    };
    gather::of_each(read, length, roles)
}
