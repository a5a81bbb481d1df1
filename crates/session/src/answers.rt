// What the calls of a session hand back.
ghost use Rattle.std.specs.Prelude.{◌≡◌, count_ones};
ghost use Rattle.table.specs.Limits.{base};
ghost use Rattle.session.specs.Results.{number_in, offered_in, lowest_in};

use crate::Session;
use state::Refusal;

// The result of a call, and the state after it: refused, it is the state that was given.
#[derive(Clone, Copy, Debug, PartialEq, Eq)]
pub struct Answer<T> {
    pub result: Result<T, Refusal>,
    pub state: Session,
}

// What a receive took.
#[derive(Clone, Copy, Debug, PartialEq, Eq)]
pub struct Message {
    pub label: u8,
    pub payload: u32,
}

// The awaited roles: role r is the digit of weight 2 to the r.
#[derive(Clone, Copy, Debug, PartialEq, Eq)]
pub struct Awaited {
    pub set: u8,
}

impl Message {
    // What stands for no message.
    pub const NONE: Message = Message {
        label: 0,
        payload: 0,
    };
}

// The customer's numbers and values of an answer, for those who hand it on as numbers.
impl<T> Answer<T> {
    // Why the call was refused, or 0 where it was accepted.
    // kept: a number, since the C interface hands out 0 for an accepted call.
    pub fn number(&self) -> u8
        ensures { result ≡ number_in self.now.result }
    {
        match &self.result {
            Ok(_) => 0,
            Err(refusal) => u8::from(*refusal),
        }
    }

    // The lowest label that the head offers where the call was refused for its label, else Session::NOLABEL.
    pub fn offered(&self) -> u16
        ensures { result ≡ offered_in base self.now.result }
    {
        match &self.result {
            Ok(_) => Session::NOLABEL,
            Err(refusal) => refusal.offered().unwrap_or(Session::NOLABEL),
        }
    }
}

impl Awaited {
    // No role is awaited.
    pub const NOBODY: Awaited = Awaited { set: 0 };

    // How many they are.
    pub fn count(self) -> u32
        ensures { result ≡ count_ones self.set }
    {
        self.set.count_ones()
    }

    // The lowest of them, or Session::ROLES for none.
    // kept: a number, since the C interface hands out this one for nobody.
    pub fn lowest(self) -> u32
        ensures { result ≡ lowest_in base self.set }
    {
        self.set.trailing_zeros()
    }
}
