// A state lent as four slices of any lengths: it is read in, and what a call leaves is put back.
// kept: the slices are four parameters, as the C exports have them; one export lends them shared, and the others mutably.
#![tactic(auto)]

ghost use Rattle.std.specs.Prelude.{◌≡◌, ◌*◌, length};
ghost use Rattle.table.specs.Limits.{base};
ghost use Rattle.lent.specs.Slices.{is_state, replaced, given, given_of};

use session::Session;

// The slices have the lengths of a state.
fn is_state(heads: &[u16], counts: &[u8], labels: &[u8], payloads: &[u32]) -> bool
    ensures { result ≡ is_state base heads.now counts.now labels.now payloads.now }
{
    heads.len() == Session::ROLES
        && counts.len() == Session::PAIRS
        && labels.len() == Session::SLOTS
        && payloads.len() == Session::SLOTS
}

// The state that the slices hold, zeros for a slice of another length: an error where there is such a slice.
pub fn read_in(
    heads: &[u16],
    counts: &[u8],
    labels: &[u8],
    payloads: &[u32],
) -> Result<Session, Session>
    ensures { given result ≡ given_of base heads.now counts.now labels.now payloads.now }
{
    // kept: the words over zeros: by `try_from(..).unwrap_or(..)` a send and a receive take 6% more instructions.
    let mut state = Session {
        heads: [0; Session::ROLES],
        counts: [0; Session::PAIRS],
        labels: [0; Session::SLOTS],
        payloads: [0; Session::SLOTS],
    };
    replace(heads, &mut state.heads);
    replace(counts, &mut state.counts);
    replace(labels, &mut state.labels);
    replace(payloads, &mut state.payloads);
    if is_state(heads, counts, labels, payloads) {
        Ok(state)
    } else {
        Err(state)
    }
}

// The words written over others: a slice of another length stays as it is.
fn replace<T: Copy>(words: &[T], old: &mut [T])
    ensures { old.new ≡ replaced (length words.now) words.now old.old }
{
    if old.len() == words.len() {
        old.copy_from_slice(words);
    }
}

// The slices hold the state: a slice of another length stays as it is.
pub fn put_back(
    state: Session,
    heads: &mut [u16],
    counts: &mut [u8],
    labels: &mut [u8],
    payloads: &mut [u32],
)
    ensures { (heads.new ≡ replaced base.roles state.heads heads.old)
        × (counts.new ≡ replaced (base.roles * base.roles) state.counts counts.old)
        × (labels.new ≡ replaced (base.roles * base.roles * base.depth) state.labels labels.old)
        × (payloads.new ≡ replaced (base.roles * base.roles * base.depth) state.payloads payloads.old) }
{
    replace(&state.heads, heads);
    replace(&state.counts, counts);
    replace(&state.labels, labels);
    replace(&state.payloads, payloads);
}
