// A row of a table, and the rules of its own words.
ghost use Rattle.std.specs.Prelude.{◌≡◌, get_or};
ghost use Rattle.words.specs.Rows.{row_words};
ghost use Rattle.table.specs.Limits.{base};
ghost use Rattle.table.specs.Rows.{row as row_at, row_of};
ghost use Rattle.table.specs.Rules.{kind_broken, field_broken, to_arm, to_other, link_broken};
ghost use Rattle.table.specs.mirror.Names.{near_link, far_link};
ghost use Rattle.table.specs.mirror.Read.{said, four_of};

use crate::Table;

// A row: its first word decides what the other three hold. The words that a kind does not use are kept, since a rule asks for 0 there, and
// so are those of a row of no kind: a row that was read still has its four words.
#[derive(Clone, Copy, Debug, PartialEq, Eq)]
pub enum Row {
    End(u16, u16, u16),
    // Arms are linked from the first; no next arm is 0.
    Exchange {
        sender: u16,
        receiver: u16,
        arms: u16,
    },
    Arm {
        label: u16,
        then: u16,
        next: u16,
    },
    Loop(u16, u16, u16),
    Back(u16, u16, u16),
    // No row has such a kind: the kind, and the three words behind it.
    Other(u16, u16, u16, u16),
}

impl From<[u16; 4]> for Row {
    ghost from_gives = { λ four row. (said row ≡ row_of (get_or four 0 0) (get_or four 1 0) (get_or four 2 0) (get_or four 3 0)) × (four_of row ≡ four) };

    fn from(four: [u16; 4]) -> Row {
        let [kind, first, second, third] = four;
        match kind {
            0 => Row::End(first, second, third),
            1 => Row::Exchange {
                sender: first,
                receiver: second,
                arms: third,
            },
            2 => Row::Arm {
                label: first,
                then: second,
                next: third,
            },
            3 => Row::Loop(first, second, third),
            4 => Row::Back(first, second, third),
            _ => Row::Other(kind, first, second, third),
        }
    }
}

// A row as it is read; past the end its words are 0.
pub fn read(words: &[u16], row: usize) -> Row
    ensures { (said result ≡ row_at words.now row) × (four_of result ≡ row_words words.now row) }
{
    Row::from(words::row(words, row))
}

impl Row {
    // A kind that no row has.
    pub fn kind_broken(self) -> bool
        ensures { result ≡ kind_broken (said self) }
    {
        matches!(self, Row::Other(..))
    }

    // An unused word not 0, a role not in range, sender equal to receiver, label over the limit.
    pub fn field_broken(self, roles: usize) -> bool
        ensures { result ≡ field_broken base roles (said self) }
    {
        match self {
            Row::End(a, b, c) => !(a == 0 && b == 0 && c == 0),
            Row::Exchange {
                sender,
                receiver,
                ..
            } => {
                let sender = usize::from(sender);
                let receiver = usize::from(receiver);
                !(sender < roles && receiver < roles && sender != receiver)
            }
            Row::Arm { label, .. } => !(usize::from(label) < Table::LABELS),
            Row::Loop(_, a, b) | Row::Back(_, a, b) => !(a == 0 && b == 0),
            Row::Other(..) => false,
        }
    }

    // The row that this one leads to: first arm, continuation or body; 0 for none.
    // kept: 0 for none, here and below, as the table's words have it; rule 7 counts these links by that word
    pub fn near_link(self) -> usize
        ensures { result ≡ near_link (said self) }
    {
        match self {
            Row::Exchange { arms, .. } => usize::from(arms),
            Row::Arm { then, .. } => usize::from(then),
            Row::Loop(body, _, _) => usize::from(body),
            _ => 0,
        }
    }

    // An Arm's next arm; 0 for none.
    pub fn far_link(self) -> usize
        ensures { result ≡ far_link (said self) }
    {
        match self {
            Row::Arm { next, .. } => usize::from(next),
            _ => 0,
        }
    }
}

// A link from a row goes to a higher row inside the table, and that row is an Arm.
fn to_arm(words: &[u16], row: usize, link: u16) -> bool
    ensures { result ≡ to_arm words.now row link }
{
    let to = usize::from(link);
    row < to && to < words.len() / 4 && matches!(read(words, to), Row::Arm { .. })
}

// The same to a row that is no Arm.
// kept: beside `to_arm`, since one function with a flag or a kind to compare with is longer than both
fn to_other(words: &[u16], row: usize, link: u16) -> bool
    ensures { result ≡ to_other words.now row link }
{
    let to = usize::from(link);
    row < to && to < words.len() / 4 && !matches!(read(words, to), Row::Arm { .. })
}

// A link broken, or row 0 an Arm. Only a next arm may be 0, for none.
pub fn link_broken(words: &[u16], row: usize) -> bool
    ensures { result ≡ link_broken words.now row (row_at words.now row) }
{
    match read(words, row) {
        Row::Exchange { arms, .. } => !to_arm(words, row, arms),
        Row::Arm { then, next, .. } => {
            row == 0 || !(to_other(words, row, then) && (next == 0 || to_arm(words, row, next)))
        }
        Row::Loop(body, _, _) => !to_other(words, row, body),
        _ => false,
    }
}
