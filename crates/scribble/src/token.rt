// The words of a text, one after the other: what each is, where it starts and ends.
ghost use Rattle.std.specs.Prelude.{◌≡◌, map};
ghost use Rattle.scribble.specs.Tokens.{sort_number, a_name, reserved_sort};
ghost use Rattle.scribble.specs.mirror.Scan.{mark_of, keyword_of, IsNext};
ghost use Rattle.scribble.specs.mirror.Sorts.{sort_meant, reserved_as};

use crate::{names, scan};

// What a word of a text is: a name, a keyword, a mark, any other byte, or the end of the text.
#[derive(Clone, Copy, Debug, PartialEq, Eq)]
pub enum Sort {
    Name,
    Module,
    Global,
    Protocol,
    Role,
    Choice,
    At,
    Or,
    Rec,
    Continue,
    From,
    To,
    Open,
    Close,
    Left,
    Right,
    Comma,
    Semi,
    Dot,
    Other,
    End,
}

#[derive(Clone, Copy, Debug, PartialEq, Eq)]
pub struct Token {
    pub sort: Sort,
    pub start: usize,
    pub end: usize,
}

// What a byte is that no name has.
#[tactic(auto, unfolding(crate::specs::mirror::Scan::mark_of))]
fn mark(b: u8) -> Sort
    ensures { sort_meant result ≡ mark_of b }
{
    match b {
        b'{' => Sort::Open,
        b'}' => Sort::Close,
        b'(' => Sort::Left,
        b')' => Sort::Right,
        b',' => Sort::Comma,
        b';' => Sort::Semi,
        b'.' => Sort::Dot,
        _ => Sort::Other,
    }
}

// How each keyword is written, and what it is.
static KEYWORDS: [(&[u8], Sort); 11] = [
    (b"module", Sort::Module),
    (b"global", Sort::Global),
    (b"protocol", Sort::Protocol),
    (b"role", Sort::Role),
    (b"choice", Sort::Choice),
    (b"at", Sort::At),
    (b"or", Sort::Or),
    (b"rec", Sort::Rec),
    (b"continue", Sort::Continue),
    (b"from", Sort::From),
    (b"to", Sort::To),
];

// What the table says of the name: no keyword, where it says nothing.
fn lookup(table: &[(&[u8], Sort)], name: &[u8]) -> Sort
    ensures { sort_meant result ≡ reserved_sort (map (λ entry. reserved_as entry.0.now entry.1) table.entry.now) a_name name.now }
{
    match table.iter().find(|(word, _)| *word == name) {
        Some((_, sort)) => *sort,
        None => Sort::Name,
    }
}

// What a name is: a keyword, or no keyword.
#[tactic(auto, unfolding(crate::specs::mirror::Scan::keyword_of))]
fn keyword(name: &[u8]) -> Sort
    ensures { sort_meant result ≡ keyword_of name.now }
{
    lookup(&KEYWORDS, name)
}

// The first word at `at` or behind it; at the end of the text its end, of no byte.
#[tactic(auto, using(crate::proofs::Nexting::next_end, crate::proofs::Nexting::next_name, crate::proofs::Nexting::next_mark))]
pub fn next(text: &[u8], at: usize) -> Token
    ensures { IsNext text.now at (sort_number (sort_meant result.sort)) result.start result.end }
{
    let start = scan::skip(text, at);
    let Some(&first) = text.get(start) else {
        return Token {
            sort: Sort::End,
            start,
            end: start,
        };
    };
    if !scan::in_name(first) {
        return Token {
            sort: mark(first),
            start,
            end: start + 1,
        };
    }
    let name = names::name(text, start);
    Token {
        sort: keyword(name),
        start,
        end: start + name.len(),
    }
}
