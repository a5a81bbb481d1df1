// Why a log is refused.
ghost use Rattle.std.specs.Prelude.{◌≡◌};
ghost use Rattle.hours.specs.Said.{number_of, place_of};

use std::fmt;

// The count of the roles; too many records; a record that is earlier than the one before it; one that awaits a role that is not in the
// session.
#[derive(Clone, Copy, Debug, PartialEq, Eq)]
pub enum Refusal {
    Roles,
    Records,
    Minute(usize),
    Set(usize),
}

impl Refusal {
    // The record that is named, 0 where none is.
    // kept: 0 for none, since it is what callers get as a number
    pub fn place(self) -> usize
        ensures { result ≡ place_of self }
    {
        match self {
            Refusal::Roles | Refusal::Records => 0,
            Refusal::Minute(place) | Refusal::Set(place) => place,
        }
    }
}

// The number by which the customer's callers know the refusal.
impl From<Refusal> for u8 {
    ghost from_gives = { λ refusal number. number ≡ number_of refusal };

    fn from(refusal: Refusal) -> u8 {
        match refusal {
            Refusal::Roles => 2,
            Refusal::Records => 27,
            Refusal::Minute(_) => 28,
            Refusal::Set(_) => 29,
        }
    }
}

// The reason for a person.
impl fmt::Display for Refusal {
    ghost use Rattle.std.specs.Prelude.{Some};
    ghost use Rattle.hours.specs.Reasons.{reason_of};

    ghost output = { λ refusal. Some (reason_of refusal) };

    fn fmt<W: fmt::Write>(&self, f: &mut fmt::Formatter<W>) -> fmt::Result {
        match self {
            Refusal::Roles => write!(f, "the role count"),
            Refusal::Records => write!(f, "too many records"),
            Refusal::Minute(place) => write!(f, "record {place} is earlier than the one before"),
            Refusal::Set(place) => write!(
                f,
                "record {place} awaits a role that is not in the session"
            ),
        }
    }
}
