// A report as a line of numbers.
ghost use Rattle.std.specs.Prelude.{◌≡◌, [], ◌∷◌, ◌++◌, ◌+◌, ◌*◌, ◌≤◌, ◌<◌, ◌^◌, length, take};
ghost use Rattle.table.specs.Limits.{base};
ghost use Rattle.hours.specs.Said.{figures_of};
ghost use Rattle.lines.specs.Text.{text_of};
ghost use Rattle.logs.specs.Lines.{told_of};

use hours::{Figures, Refusal};
use table::Table;

// Number, record, total, awake and asleep stand before the figures of one role alone; several and nobody behind them.
const FRONT: usize = 5;

const SEVERAL: usize = FRONT + Table::ROLES;

const TOLD: usize = SEVERAL + 2;

// A number has at most ten digits, and a blank or a newline behind it.
pub const TEXT: usize = TOLD * 11;

pub type Text = [u8; TEXT];

// `?` and a newline.
// kept: beside the same in orders: one function for both would be no shorter than these two bytes, and public
pub fn ask(text: &mut [u8]) -> usize
    requires { 2 ≤ length text.old }
    ensures { (take result text.new ≡ 63 ∷ 10 ∷ []) × (result ≡ 2) }
{
    text[..2].copy_from_slice(b"?\n");
    2
}

// All numbers of the line.
fn numbers(number: u8, place: u32, figures: Figures) -> [u32; TOLD]
    ensures { result ≡ number ∷ place ∷ figures.total ∷ figures.awake ∷ figures.asleep ∷ figures.alone ++ (figures.several ∷ figures.nobody ∷ []) }
{
    let mut numbers = [0; TOLD];
    numbers[..FRONT].copy_from_slice(&[
        u32::from(number),
        place,
        figures.total,
        figures.awake,
        figures.asleep,
    ]);
    numbers[FRONT..SEVERAL].copy_from_slice(&figures.alone);
    numbers[SEVERAL..].copy_from_slice(&[figures.several, figures.nobody]);
    numbers
}

fn told(report: Result<Figures, Refusal>) -> [u32; TOLD]
    requires { (figures_of base report).place < 2 ^ 32 }
    ensures { result ≡ told_of (figures_of base report) }
{
    match report {
        Ok(figures) => numbers(0, 0, figures),
        Err(refusal) => numbers(u8::from(refusal), refusal.place() as u32, Figures::NONE),
    }
}

// The line goes to the start of `text`.
pub fn show(report: Result<Figures, Refusal>, text: &mut [u8]) -> usize
    requires { ((figures_of base report).place < 2 ^ 32) × ((7 + base.roles) * 11 ≤ length text.old) }
    ensures { let line = text_of (told_of (figures_of base report)) in (take result text.new ≡ line) × (result ≡ length line) }
{
    lines::text(&told(report), text)
}
