// The words of a text: where the next one starts and ends, and what it is.
// kept: a text and a place in it are two parameters, since the place is what is asked and answered from call to call; a struct of both would be taken apart in each function.
ghost use Rattle.std.specs.Prelude.{◌≡◌, ◌≤◌, ◌+◌, length, drop, get_or};
ghost use Rattle.std.specs.List.{prefix_len};
ghost use Rattle.scribble.specs.Tokens.{is_blank, in_name, gap, name_length};
ghost use Rattle.scribble.specs.mirror.Scan.{goes_on, in_comment};

// Space, tab, carriage return, newline.
#[tactic(auto, unfolding(crate::specs::Tokens::is_blank))]
fn blank(b: u8) -> bool
    ensures { result ≡ is_blank b }
{
    matches!(b, b' ' | b'\t' | b'\r' | b'\n')
}

// A letter, a digit or `_`.
#[tactic(auto, unfolding(crate::specs::Tokens::in_name))]
pub fn in_name(b: u8) -> bool
    ensures { result ≡ in_name b }
{
    b.is_ascii_alphanumeric() || b == b'_'
}

// The byte at i, or 0 past the end.
// kept: the same as `words::peek` over bytes, since std's `Default` is a relation and gives generic code no value to name
pub fn byte(text: &[u8], i: usize) -> u8
    ensures { result ≡ get_or text.now i 0 }
{
    text.get(i).copied().unwrap_or(0)
}

// What stands at `at` and behind it: nothing past the end.
pub(crate) fn rest(text: &[u8], at: usize) -> &[u8]
    ensures { result.now ≡ drop at text.now }
{
    text.get(at..).unwrap_or(&[])
}

// How many bytes of a name stand at the front.
pub(crate) fn name_length(bytes: &[u8]) -> usize
    ensures count { result ≡ prefix_len in_name bytes.now }
    ensures inside { result ≤ length bytes.now }
{
    bytes.iter().take_while(|b| in_name(**b)).count()
}

// The end of the name at `at`; `at` where no name stands there.
#[tactic(auto, using(crate::proofs::Scanning::name_length_front))]
pub fn name_end(text: &[u8], at: usize) -> usize
    ensures { result ≡ at + name_length (drop at text.now) }
{
    at + name_length(rest(text, at))
}

// A byte of white space or of a comment stands at i; `comment`: in a comment.
#[tactic(auto, unfolding(crate::specs::mirror::Scan::goes_on))]
fn goes_on(text: &[u8], i: usize, comment: bool) -> bool
    ensures { result ≡ goes_on comment (drop i text.now) }
{
    let Some(&b) = text.get(i) else {
        return false;
    };
    comment || blank(b) || (b == b'/' && byte(text, i + 1) == b'/')
}

// Behind such a byte, in a comment.
#[tactic(auto, unfolding(crate::specs::mirror::Scan::in_comment))]
fn in_comment(comment: bool, b: u8) -> bool
    ensures { result ≡ in_comment comment b }
{
    if comment { b != b'\n' } else { !blank(b) }
}

// The place of the first word at `at` or behind it: past white space and comments.
#[tactic(auto, unfolding(crate::specs::mirror::Scan::gap_left), using(crate::proofs::Scanning::gap_more, crate::proofs::Scanning::gap_over))]
pub fn skip(text: &[u8], at: usize) -> usize
    ensures { result ≡ at + gap (drop at text.now) }
{
    let mut comment = false;
    for i in at..text.len() {
        if !goes_on(text, i, comment) {
            return i;
        }
        comment = in_comment(comment, text[i]);
    }
    text.len().max(at)
}
