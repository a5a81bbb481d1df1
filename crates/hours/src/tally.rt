// The figures of a report, gathered record by record.
ghost use Rattle.std.specs.Prelude.{◌≡◌, ◌<◌, get_or};
ghost use Rattle.words.specs.Below.{sum};
ghost use Rattle.hours.specs.mirror.Sums.{SUMS, slot_of};

use crate::{Figures, Record, Refusal};
use table::Table;

// What is known after some records: the minute of the latest one, and the sum that the minutes since then go to; the sums; the first record
// with a role that is not in the session. Sum 0 is the minutes before the first record, so that all of them together are the latest minute.
#[derive(Clone, Copy)]
pub struct Tally {
    last: u32,
    // kept: a place in `sums`, used as one; an enum of the five kinds would only be turned into it
    slot: usize,
    sums: [u32; SUMS],
    stray: Option<usize>,
    ghost near: { slot < SUMS },
    ghost full: { sum (λ k. get_or sums k 0) SUMS ≡ last },
}

const BEFORE: usize = 0;

const ASLEEP: usize = 1;

const NOBODY: usize = 2;

const SEVERAL: usize = 3;

// The sum of role r alone is ALONE + r; there is one for each digit of a set, whatever the limit on roles.
const ALONE: usize = 4;

const SUMS: usize = 20;

// The sum that the minutes after a record go to.
#[tactic(auto, using(crate::proofs::Sets::low_lt))]
fn slot(moment: Record) -> usize
    ensures value { result ≡ slot_of moment.awake moment.set }
    ensures near { result < SUMS }
{
    if !moment.awake {
        return ASLEEP;
    }
    match moment.set.count_ones() {
        0 => NOBODY,
        // kept: `as`, since there is no `From<u32> for usize`, and `try_from` would leave an `Err` that cannot be
        1 => ALONE + moment.set.trailing_zeros() as usize,
        _ => SEVERAL,
    }
}

impl Tally {
    ghost use Rattle.std.specs.Prelude.{◌≤◌, ℕ, List};
    ghost use Rattle.table.specs.Limits.{base};
    ghost use Rattle.hours.specs.Records.{at};
    ghost use Rattle.hours.specs.Said.{figures_of};
    ghost use Rattle.hours.specs.declared.Record.{Record};
    ghost use Rattle.hours.specs.mirror.Sums.{alone_of};
    ghost use Rattle.hours.specs.mirror.Tally.{Fine, Steps, finish_of};

    // Before the first record.
    pub fn start() -> Tally
        ensures { (rs : List Record) (roles : ℕ) → Fine rs roles 0 result }
    {
        Tally {
            last: 0,
            slot: BEFORE,
            sums: [0; SUMS],
            stray: None,
        }
    }

    // After record i. One that is earlier than the one before ends the report; a role that is not in the session is noted where it is
    // the first refusal.
    #[tactic(auto, using(crate::proofs::Steps::fits_more))]
    pub fn step(&mut self, roles: usize, i: usize, moment: Record) -> Result<(), Refusal>
        requires { roles ≤ base.roles }
        ensures { (rs : List Record) → moment ≡ at rs i → Fine rs roles i self.old → Steps rs roles i self.new result }
    {
        if moment.minute < self.last {
            return Err(Refusal::Minute(i));
        }
        let here = slot(moment);
        self.sums[self.slot] += moment.minute - self.last;
        self.last = moment.minute;
        self.slot = here;
        let outside = 0 < usize::from(moment.set) >> roles;
        self.stray = self.stray.or(outside.then_some(i));
        Ok(())
    }

    // The report after the last record.
    #[tactic(auto, using(crate::proofs::Steps::first_le, crate::proofs::Steps::asleep_le))]
    pub fn finish(&self) -> Result<Figures, Refusal>
        ensures { figures_of base result ≡ finish_of base self.now }
    {
        if let Some(place) = self.stray {
            return Err(Refusal::Set(place));
        }
        let total = self.last - self.sums[BEFORE];
        Ok(Figures {
            total,
            awake: total - self.sums[ASLEEP],
            asleep: self.sums[ASLEEP],
            alone: self.alone(),
            several: self.sums[SEVERAL],
            nobody: self.sums[NOBODY],
        })
    }

    // Of the sums those of one role alone.
    fn alone(&self) -> [u32; Table::ROLES]
        ensures { result ≡ alone_of base self.now.sums }
    {
        let mut figures = [0; Table::ROLES];
        figures.copy_from_slice(&self.sums[ALONE..ALONE + Table::ROLES]);
        figures
    }
}
