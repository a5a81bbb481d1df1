// Lines of decimal numbers: read from an input, taken apart, fitted into narrower kinds, written. Two functions have a `requires`: `each`,
// that its closure may be called, and `Width::of`, that the number fits.
#![tactic(auto)]

mod called;
mod fit;
mod input;
mod line;
mod read;
mod write;

pub use called::each;
pub use fit::{Width, copy, cut, narrow, wide};
pub use input::{Answerer, answer_all};
pub use line::Line;
pub use read::numbers;
pub use write::text;
