// The numbers of a line: after its letter, for each number one blank and one or more digits.
ghost use Rattle.std.specs.Prelude.{◌≡◌};
ghost use Rattle.lines.specs.Promises.{Puts, Reads};
ghost use Rattle.lines.specs.mirror.Places.{digit_of, step_of, ended_of, whole_of};

// Where the reader stands: after the letter, after a blank, in a number, or past a byte that must not be there.
#[derive(Clone, Copy, Debug, PartialEq, Eq)]
enum Place {
    Letter,
    Blank,
    Number(u32),
    Wrong,
}

// One digit more. Leading zeros are read, and a number of more than 32 bits is wrong.
#[tactic(auto, unfolding(crate::specs::mirror::Places::digit_of, crate::specs::Line::is_digit))]
fn digit(n: u32, byte: u8) -> Place
    ensures { result ≡ digit_of n byte }
{
    if !byte.is_ascii_digit() {
        return Place::Wrong;
    }
    let longer = u64::from(n) * 10 + u64::from(byte - b'0');
    u32::try_from(longer).map_or(Place::Wrong, Place::Number)
}

#[tactic(auto, unfolding(crate::specs::mirror::Places::step_of))]
fn step(place: Place, byte: u8) -> Place
    ensures { result ≡ step_of place byte }
{
    match place {
        Place::Letter | Place::Number(_) if byte == b' ' => Place::Blank,
        Place::Blank => digit(0, byte),
        Place::Number(n) => digit(n, byte),
        Place::Letter | Place::Wrong => Place::Wrong,
    }
}

// A number ends at a blank and is stored at place `at`. Answers the place after it.
// kept: `out` and `at` side by side, since a struct of both is no plainer: one private function uses them, and one calls it
#[tactic(auto, unfolding(crate::specs::mirror::Places::ended_of, crate::specs::Over::behind), using(crate::proofs::Stores::stores, crate::proofs::Stores::past_end, crate::proofs::Stores::none_over))]
fn store(out: &mut [u32], at: usize, place: Place, byte: u8) -> usize
    ensures { Puts at (ended_of place byte) out.old result out.new }
{
    let Place::Number(n) = place else {
        return at;
    };
    if byte != b' ' || out.len() <= at {
        return at;
    }
    out[at] = n;
    at + 1
}

// A line may end here.
fn whole(place: Place) -> bool
    ensures { result ≡ whole_of place }
{
    matches!(place, Place::Letter | Place::Number(_))
}

// The numbers after the letter of the line, at the start of `out`, and how many; of a malformed line, those before its fault and
// no count. A line that is longer than `out` counts as malformed, and none of its numbers is stored.
pub fn numbers(line: &[u8], out: &mut [u32]) -> Option<usize>
    ensures { Reads line.now out.old result out.new }
{
    let (_letter, behind) = line.split_first()?;
    if out.len() < line.len() {
        return None;
    }
    let mut place = Place::Letter;
    let mut at = 0;
    for byte in behind {
        at = store(out, at, place, *byte);
        place = step(place, *byte);
    }
    // the line's end ends its last number, as a blank would
    at = store(out, at, place, b' ');
    whole(place).then_some(at)
}
