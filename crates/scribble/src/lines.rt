// The line of a place in a text.
ghost use Rattle.std.specs.Prelude.{◌≡◌};
ghost use Rattle.scribble.specs.Tokens.{line_of};

// One more than the newlines before `at`.
pub fn line_of(text: &[u8], at: usize) -> usize
    ensures { result ≡ line_of text.now at }
{
    1 + text.iter().take(at).filter(|b| **b == b'\n').count()
}
