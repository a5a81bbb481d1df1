// A log as lines of numbers, and the line that answers it. A line is handed over behind a letter and a blank, as `lines` reads it.
#![tactic(auto)]

mod records;
mod shown;

ghost use Rattle.std.specs.Prelude.{◌≡◌, ◌≤◌, length, take};
ghost use Rattle.logs.specs.Lines.{LONGEST, line_numbers};
ghost use Rattle.logs.specs.mirror.Numbers.{record_in};

use hours::{Figures, Record, Refusal};
pub use records::{ROOM, Records};
pub use shown::{TEXT, Text};

// The bytes of the longest line. It has fewer numbers than bytes.
// kept: beside those of orders, the longest lines of two programs, which no rule makes equal: a table of more roles needs a longer line
pub const LONGEST: usize = 65536;

pub type Numbers = [u32; LONGEST];

// What the lines so far say: nothing yet; that one of them is malformed, with the role count, 0 where that is the malformed line; the role count.
#[derive(Clone, Copy, Debug, PartialEq, Eq)]
pub enum State {
    Fresh,
    Faulty(usize),
    Begun(usize),
}

// What is kept of the lines.
#[derive(Clone, Copy)]
pub struct Log {
    pub state: State,
    pub records: Records,
}

// The numbers of the line, none where it is malformed. They go to the start of `numbers`.
fn read<'a>(line: &[u8], numbers: &'a mut [u32]) -> &'a [u32]
    requires { length numbers.old ≡ LONGEST }
    ensures { result.now ≡ line_numbers line.now }
{
    let count = lines::numbers(line, numbers).unwrap_or(0);
    &numbers[..count]
}

// The record that a line of these numbers is.
fn record_in(numbers: &[u32]) -> Option<Record>
    ensures { result ≡ record_in numbers.now }
{
    let [minute, flag, set] = numbers else {
        return None;
    };
    let set = u16::try_from(*set).ok()?;
    (*flag < 2).then_some(Record {
        minute: *minute,
        awake: *flag != 0,
        set,
    })
}

impl Log {
    ghost use Rattle.std.specs.Prelude.{◌≡◌};
    ghost use Rattle.table.specs.Limits.{base};
    ghost use Rattle.hours.specs.Said.{figures_of};
    ghost use Rattle.logs.specs.Lines.{counted, recorded};
    ghost use Rattle.logs.specs.Logs.{records, keeps, roles_of, role_count, Starts, Takes, Figured, FiguredFor, Answers};
    ghost use Rattle.logs.specs.declared.State.TheVariants.{Begun};

    // Before the first line.
    pub fn new() -> Log
        ensures { Starts result }
    {
        Log {
            state: State::Fresh,
            records: Records::new(),
        }
    }

    // One line more.
    pub fn take(&mut self, line: &[u8], numbers: &mut Numbers)
        ensures { Takes self.old line.now self.new }
    {
        match self.state {
            State::Faulty(_) => {}
            State::Fresh => self.begin(read(line, numbers)),
            State::Begun(roles) => self.record(roles, read(line, numbers)),
        }
    }

    // The line of the role count.
    fn begin(&mut self, numbers: &[u32])
        ensures { keeps self.new ≡ counted numbers.now }
    {
        self.records.clear();
        self.state = match numbers {
            // kept: `as`, since there is no `From<u32> for usize`, and `try_from` would leave an `Err` that cannot be
            [roles] => State::Begun(*roles as usize),
            _ => State::Faulty(0),
        };
    }

    // A line behind that of the role count.
    fn record(&mut self, roles: usize, numbers: &[u32])
        requires { self.old.state ≡ Begun roles }
        ensures { keeps self.new ≡ recorded roles (records self.old) numbers.now }
    {
        match record_in(numbers) {
            Some(record) => self.records.push(record),
            None => self.state = State::Faulty(roles),
        }
    }

    // The role count, where it was read and no line is malformed.
    pub fn roles(&self) -> Option<usize>
        ensures { result ≡ roles_of (keeps self.now) }
    {
        match self.state {
            State::Fresh | State::Faulty(_) => None,
            State::Begun(roles) => Some(roles),
        }
    }

    // The role count that the state holds, 0 for none.
    // kept: 0 for none, since the report for none is that for 0 roles, as before the pass
    fn role_count(&self) -> usize
        ensures { result ≡ role_count self.now.state }
    {
        match self.state {
            State::Fresh => 0,
            State::Faulty(roles) | State::Begun(roles) => roles,
        }
    }

    // The report of the records that are kept, for the role count that the state holds.
    pub fn figures(&self) -> Result<Figures, Refusal>
        ensures { Figured base self.now (figures_of base result) }
    {
        self.figures_for(self.role_count())
    }

    // The same for so many roles.
    pub fn figures_for(&self, roles: usize) -> Result<Figures, Refusal>
        ensures { FiguredFor base self.now roles (figures_of base result) }
    {
        hours::report(self.records.as_slice(), roles)
    }

    // The answer to the lines is the text's first bytes.
    pub fn answer(&self, text: &mut Text) -> usize
        ensures { Answers base (keeps self.now) result text.new }
    {
        match self.roles() {
            Some(roles) => shown::show(self.figures_for(roles), text),
            None => shown::ask(text),
        }
    }
}
