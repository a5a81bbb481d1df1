// The fault that decides, of those met so far.
ghost use Rattle.std.specs.Prelude.{◌≡◌};
ghost use Rattle.scribble.specs.mirror.Least.{noted};
ghost use Rattle.scribble.specs.mirror.Blamed.{blamed_of};

use std::num::NonZeroU8;

// A fault of a text. Of two, the one at the earlier place comes first; at one place, the one with the lower number.
#[derive(Clone, Copy, Debug, PartialEq, Eq, PartialOrd, Ord)]
pub struct Fault {
    pub place: usize,
    pub number: NonZeroU8,
}

// One fault more, where the test holds and the number is not 0.
// kept: a test and a plain number beside the place, since `note` promises its answer at number 0 too, which no `Fault` has.
// kept: `Err` of a place where no fault is met, and no `Option`, since `note` takes and hands back any place beside no fault.
#[tactic(auto, unfolding(crate::specs::mirror::Least::noted))]
pub fn note(
    least: Result<Fault, usize>,
    test: bool,
    place: usize,
    number: u8,
) -> Result<Fault, usize>
    ensures { blamed_of result ≡ noted (blamed_of least) test place number }
{
    let Some(number) = NonZeroU8::new(number).filter(|_| test) else {
        return least;
    };
    let met = Fault { place, number };
    match least {
        Ok(least) => Ok(least.min(met)),
        Err(_) => Ok(met),
    }
}
