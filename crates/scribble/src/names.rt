// Names in a text: a name is known by the place where it starts.
ghost use Rattle.std.specs.Prelude.{ltb, length, take, ◌≡◌};
ghost use Rattle.std.specs.List.{prefix_len, zip};
ghost use Rattle.scribble.specs.Tokens.{spelled_alike};
ghost use Rattle.scribble.specs.Names.{number_of};
ghost use Rattle.scribble.specs.Refusals.{longest_name};
ghost use Rattle.scribble.specs.mirror.Starts.{name_from, names_from, shared};

use crate::scan;

// The name at `at`: no bytes where no name stands there.
#[tactic(auto, unfolding(crate::specs::mirror::Starts::name_from), using(crate::proofs::Scanning::name_length_front))]
pub(crate) fn name(text: &[u8], at: usize) -> &[u8]
    ensures { result.now ≡ name_from text.now at }
{
    let rest = scan::rest(text, at);
    &rest[..scan::name_length(rest)]
}

// How many bytes of a name both have at the front.
fn shared(one: &[u8], other: &[u8]) -> usize
    ensures { result ≡ prefix_len shared (zip one.now other.now) }
{
    one.iter()
        .zip(other)
        .take_while(|(b, c)| **b == **c && scan::in_name(**b))
        .count()
}

// The name at place a of the one text and the name at place b of the other are written alike: both end behind the bytes that they share. No byte is read behind the first that differs.
#[tactic(auto, unfolding(crate::specs::mirror::Starts::name_from), using(crate::proofs::Naming::spelled_alike_front))]
pub fn same(one: &[u8], a: usize, other: &[u8], b: usize) -> bool
    ensures { result ≡ spelled_alike (name_from one.now a) (name_from other.now b) }
{
    let one = scan::rest(one, a);
    let other = scan::rest(other, b);
    let end = shared(one, other);
    !scan::in_name(scan::byte(one, end)) && !scan::in_name(scan::byte(other, end))
}

// A name has at most so many bytes.
pub const LONGEST: usize = 32;

// The name at `at` has more bytes than a name may have.
pub fn too_long(text: &[u8], at: usize) -> bool
    ensures { result ≡ ltb longest_name (length (name_from text.now at)) }
{
    LONGEST < name(text, at).len()
}

// The number of the name at `at` among the names that start at the first `count` places, where it is one of them.
// kept: `count` beside the slice, since `find` promises its answer for a count past the end too, and asks no caller to cut there.
pub fn find(text: &[u8], starts: &[u16], count: usize, at: usize) -> Option<usize>
    ensures { result ≡ number_of (name_from text.now at) (names_from text.now (take count starts.now)) }
{
    starts
        .iter()
        .take(count)
        .position(|start| same(text, usize::from(*start), text, at))
}
