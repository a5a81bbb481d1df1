// An answer as text.
ghost use Rattle.std.specs.Prelude.{◌≡◌, [], ◌∷◌, ◌++◌, ◌<◌, ◌≤◌, length, take};
ghost use Rattle.table.specs.Limits.{base};
ghost use Rattle.orders.specs.Lines.{worded};
ghost use Rattle.orders.specs.mirror.Said.{most_shown, most_bytes, says};

use crate::run::{ANSWER, Said};

// `?` and a newline.
// kept: beside the same in logs: one function for both would be no shorter than these two bytes, and public
pub(crate) fn ask(text: &mut [u8]) -> usize
    requires { 2 ≤ length text.old }
    ensures { (take result text.new ≡ 63 ∷ 10 ∷ []) × (result ≡ 2) }
{
    text[..2].copy_from_slice(b"?\n");
    2
}

// The numbers told and then the words that follow go to the start of `text`.
pub(crate) fn write(said: &Said, tables: &[u16], text: &mut [u8]) -> usize
    requires some { 0 < length said.now.told.items }
    requires short { said.now.shown ≤ most_shown base }
    requires room { length text.old ≡ most_bytes base }
    ensures { (take result text.new ≡ worded (says said.now tables.now).numbers) × (result ≡ length (worded (says said.now tables.now).numbers)) }
{
    let told = said.told.as_slice();
    let mut answer = [0u32; ANSWER];
    lines::copy(told, &mut answer);
    let end = lines::wide(lines::cut(tables, said.shown), &mut answer, told.len());
    lines::text(&answer[..end], text)
}
