// The report of records that a closure gives.
ghost use Rattle.std.specs.Prelude.{◌≡◌, ◌<◌, ℕ, List};
ghost use Rattle.table.specs.Limits.{base};
ghost use Rattle.hours.specs.Said.{figures_of};
ghost use Rattle.hours.specs.Report.{report_of};
ghost use Rattle.hours.specs.declared.Record.{Record};
ghost use Rattle.hours.specs.mirror.Tally.{roles_refused, size_refused, Lists};

use crate::tally::Tally;
use crate::{Figures, Record, Refusal};
use table::Table;

// Refuses a count of roles that no session has.
pub fn check_roles(roles: usize) -> Result<(), Refusal>
    ensures { result ≡ roles_refused base roles }
{
    if roles < Table::FEWEST_ROLES || Table::ROLES < roles {
        Err(Refusal::Roles)
    } else {
        Ok(())
    }
}

fn check(roles: usize, length: usize) -> Result<(), Refusal>
    ensures { result ≡ size_refused base roles length }
{
    check_roles(roles)?;
    if Figures::MOST < length {
        return Err(Refusal::Records);
    }
    Ok(())
}

// The report of `length` records. Each is read once.
pub fn of_each<F: Fn(usize) -> Record>(
    read: F,
    length: usize,
    roles: usize,
) -> Result<Figures, Refusal>
    requires { (i : ℕ) → i < length → F.pre read i }
    ensures { (rs : List Record) → Lists (F.post read) length rs → figures_of base result ≡ report_of base rs roles }
{
    check(roles, length)?;
    let mut tally = Tally::start();
    for i in 0..length {
        tally.step(roles, i, read(i))?;
    }
    tally.finish()
}
