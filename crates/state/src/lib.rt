// A state's arrays: rule 13, and the tests of the calls.
#![tactic(auto)]

mod calls;
mod formed;
mod turns;

ghost use Rattle.std.specs.Prelude.{◌≡◌};
ghost use Rattle.state.specs.Refusals.{number_of, offered_of};

use slots::{Counts, Heads, Labels, Payloads};

// A state that is lent, since it is large: each role's head row, and for each ordered pair of roles (sender x roles + receiver) how many
// messages its queue holds and the slots of their labels and payloads.
#[derive(Clone, Copy)]
pub struct State<'a> {
    pub heads: &'a Heads,
    pub counts: &'a Counts,
    pub labels: &'a Labels,
    pub payloads: &'a Payloads,
}

// Why a call is refused: the first rule that is broken.
#[derive(Clone, Copy, Debug, PartialEq, Eq)]
pub enum Refusal {
    // The tables are not well formed.
    Tables,
    // The state is not well formed.
    State,
    // The two roles have no queue.
    Party,
    // The caller's head is no such action.
    Turn,
    // The head sends no such label: the lowest that it sends.
    Label(u16),
    // The queue is full.
    Full,
    // The queue is empty.
    Empty,
    // The head receives no such label: the lowest that it receives.
    Stray(u16),
}

impl Refusal {
    // The lowest label that the head offers, where the call is refused for its label.
    pub fn offered(self) -> Option<u16>
        ensures { result ≡ offered_of self }
    {
        match self {
            Refusal::Label(least) | Refusal::Stray(least) => Some(least),
            _ => None,
        }
    }
}

// The customer's number of a refusal.
impl From<Refusal> for u8 {
    ghost from_gives = { λ refusal number. number ≡ number_of refusal };

    fn from(refusal: Refusal) -> u8 {
        match refusal {
            Refusal::Tables => 12,
            Refusal::State => 13,
            Refusal::Party => 14,
            Refusal::Turn => 15,
            Refusal::Label(_) => 16,
            Refusal::Full => 17,
            Refusal::Empty => 18,
            Refusal::Stray(_) => 19,
        }
    }
}
