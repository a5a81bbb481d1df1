// What is kept from line to line beside the words of the tables, and what an order leaves.
ghost use Rattle.std.specs.Prelude.{◌≡◌, ◌≤◌, length, take};
ghost use Rattle.table.specs.Limits.{base};
ghost use Rattle.orders.specs.Lines.{Starts};
ghost use Rattle.orders.specs.mirror.Said.{most_told, said_of};

use arrayvec::ArrayVec;
use session::Session;
use table::Table;

// The bytes of the longest line. It has fewer numbers than bytes.
// kept: beside those of logs: the longest lines of two programs, which no rule makes equal; those of more roles would be longer in bench alone
pub const LONGEST: usize = 65536;

pub type Numbers = [u32; LONGEST];

pub type Words = [u16; LONGEST];

// The most words that an opening writes.
pub const BLOCKS: usize = Table::ROLES * Table::ROWS * 4;

// The most numbers of an answer before the words of an opening: a number, and every role's head.
pub const TOLD: usize = 1 + Session::ROLES;

// The most numbers of an answer.
pub const ANSWER: usize = TOLD + BLOCKS;

// A number has at most ten digits, and a blank or a newline behind it.
pub const TEXT: usize = ANSWER * 11;

pub type Text = [u8; TEXT];

// How many roles, how many words of tables, the state.
// kept: `words` counts words that are lent, since the promise of `answer` names both
#[derive(Clone, Copy, Debug, PartialEq, Eq)]
pub struct Run {
    pub roles: usize,
    pub words: usize,
    pub state: Session,
}

// The numbers that an order tells before the words of an opening.
pub type Told = ArrayVec<u32, TOLD>;

// The answer of an order: the numbers that it tells, how many words of the tables follow; and the run after it.
// kept: `shown` counts words that are lent, as `words` of a run does
#[derive(Drop)]
pub struct Said {
    pub told: Told,
    pub shown: usize,
    pub run: Run,
}

// How many bytes of text answer a line, and the run after it.
// kept: `length` counts bytes that are lent, since the promise of `answer` names both
#[derive(Clone, Copy, Debug, PartialEq, Eq)]
pub struct Answered {
    pub length: usize,
    pub run: Run,
}

pub fn start() -> Run
    ensures { Starts base result }
{
    Run {
        roles: 0,
        words: 0,
        state: Session {
            heads: [0; Session::ROLES],
            counts: [0; Session::PAIRS],
            labels: [0; Session::SLOTS],
            payloads: [0; Session::SLOTS],
        },
    }
}

impl Run {
    // The tables: the first words.
    pub(crate) fn tables<'a>(&self, words: &'a [u16]) -> &'a [u16]
        ensures { result.now ≡ take self.now.words words.now }
    {
        lines::cut(words, self.words)
    }

    // A call is answered with numbers alone, and leaves the tables and that state.
    pub(crate) fn called(self, told: Told, state: Session) -> Said
        ensures { result ≡ said_of self told state }
    {
        Said {
            told,
            shown: 0,
            run: Run { state, ..self },
        }
    }
}

// These numbers.
pub(crate) fn tell(numbers: &[u32]) -> Told
    requires { length numbers.now ≤ most_told base }
    ensures { result.items ≡ numbers.now }
{
    let mut told = Told::new();
    for number in numbers {
        told.push(*number);
    }
    told
}
