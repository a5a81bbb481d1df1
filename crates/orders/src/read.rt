// A state from the numbers of a line.
ghost use Rattle.std.specs.Prelude.{◌≡◌, ◌+◌, cond, true, false, ◌&&◌, eqb, length, Some, None, MatchOption};
ghost use Rattle.table.specs.Limits.{base};
ghost use Rattle.lines.specs.Over.{all_below};
ghost use Rattle.orders.specs.Orders.{state_of, is_state};

use lines::Width;
use session::Session;

// As many numbers as there are, each of that kind.
fn array<T: Width, const N: usize>(numbers: &[u32]) -> Option<[T; N]>
    ensures { MatchOption result ((eqb (length numbers.now) N && all_below (T.MAX + 1) numbers.now) ≡ false)
        (λ xs. (length numbers.now ≡ N) × (all_below (T.MAX + 1) numbers.now ≡ true) × (T.numbers xs ≡ numbers.now)) }
{
    let mut items = [T::wrapped(0); N];
    if numbers.len() != N || !lines::narrow(numbers, &mut items) {
        return None;
    }
    Some(items)
}

// The numbers of a state: heads, counts, labels, payloads. Heads are words, counts and labels are bytes.
pub(crate) fn state_of(numbers: &[u32]) -> Option<Session>
    ensures { result ≡ cond (is_state base numbers.now) (Some (state_of base numbers.now)) None }
{
    let (heads, behind) = numbers.split_at_checked(Session::ROLES)?;
    let (counts, behind) = behind.split_at_checked(Session::PAIRS)?;
    let (labels, payloads) = behind.split_at_checked(Session::SLOTS)?;
    let heads = array(heads)?;
    let counts = array(counts)?;
    let labels = array(labels)?;
    let payloads = array(payloads)?;
    Some(Session {
        heads,
        counts,
        labels,
        payloads,
    })
}
