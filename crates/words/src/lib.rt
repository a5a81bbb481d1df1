// Rows of four 16-bit words in a lent slice: reads and writes that are right for any slice and any row.
#![tactic(auto)]

ghost use Rattle.std.specs.Prelude.{◌≡◌, get_or, set};
ghost use Rattle.words.specs.Rows.{word, row_words, put_row};

// The word at i, or 0 past the end.
pub fn peek(words: &[u16], i: usize) -> u16
    ensures { result ≡ get_or words.now i 0 }
{
    words.get(i).copied().unwrap_or(0)
}

// The word at i is `word`; nothing is done past the end.
// kept: by an index, since a proof knows nothing of the slice behind what `get_mut` lends in a pattern
pub fn poke(words: &mut [u16], i: usize, word: u16)
    ensures { words.new ≡ set words.old i word }
{
    if i < words.len() {
        words[i] = word;
    }
}

// The word k of a row, or 0 past the end. No sum is made that could wrap.
pub fn word(words: &[u16], row: usize, k: usize) -> u16
    ensures { result ≡ word words.now row k }
{
    if words.len() / 4 < row {
        return 0;
    }
    peek(&words[row * 4..], k)
}

// The four words of a row, 0 for each past the end. One test serves all four words of a row inside.
pub fn row(words: &[u16], row: usize) -> [u16; 4]
    ensures { result ≡ row_words words.now row }
{
    let rows = words.len() / 4;
    if row < rows {
        let at = row * 4;
        return [words[at], words[at + 1], words[at + 2], words[at + 3]];
    }
    [
        word(words, row, 0),
        word(words, row, 1),
        word(words, row, 2),
        word(words, row, 3),
    ]
}

// The row holds these four words; nothing is done where it is not wholly inside.
// kept: word by word, since the proof over `copy_from_slice` did not close
#[tactic(auto, unfolding(crate::specs::Rows::put_row))]
pub fn put_row(words: &mut [u16], row: usize, four: [u16; 4])
    ensures { words.new ≡ put_row words.old row (get_or four 0 0) (get_or four 1 0) (get_or four 2 0) (get_or four 3 0) }
{
    if row < words.len() / 4 {
        let at = row * 4;
        let [first, second, third, fourth] = four;
        words[at] = first;
        words[at + 1] = second;
        words[at + 2] = third;
        words[at + 3] = fourth;
    }
}
