// The rows of one role's block.
ghost use Rattle.std.specs.Prelude.{◌≡◌, ◌+◌, ◌*◌, ◌<◌, ◌≤◌, get_or};
ghost use Rattle.words.specs.Rows.{row_words};
ghost use Rattle.table.specs.Limits.{base};
ghost use Rattle.blocks.specs.Block.{part_row_of, part_row, block_rows, is_head};
ghost use Rattle.blocks.specs.Head.{head, arms_of, find, lowest_label};
ghost use Rattle.blocks.specs.mirror.Rows.{said, four_of, row_at, follow_at, chain_at, found_of};

use table::Table;

// The first word of a row decides what the other three hold.
// kept: beside the row of a table, which has other kinds, and whose Back holds a depth and not a row
#[derive(Clone, Copy, Debug, PartialEq, Eq)]
pub enum Row {
    // Three unused words.
    End(u16, u16, u16),
    // Label, continuation, next arm (0 for none).
    Arm(u16, u16, u16),
    // Body, two unused words.
    Loop(u16, u16, u16),
    // Its loop's row, two unused words.
    Back(u16, u16, u16),
    // Peer, first arm, an unused word.
    Send(u16, u16, u16),
    Receive(u16, u16, u16),
    // A kind that is none of these: the kind, and the three words behind it.
    Other(u16, u16, u16, u16),
}

impl From<[u16; 4]> for Row {
    ghost from_gives = { λ four row. (said row ≡ part_row_of (get_or four 0 0) (get_or four 1 0) (get_or four 2 0) (get_or four 3 0)) × (four_of row ≡ four) };

    fn from([kind, first, second, third]: [u16; 4]) -> Self {
        match kind {
            0 => Row::End(first, second, third),
            2 => Row::Arm(first, second, third),
            3 => Row::Loop(first, second, third),
            4 => Row::Back(first, second, third),
            5 => Row::Send(first, second, third),
            6 => Row::Receive(first, second, third),
            _ => Row::Other(kind, first, second, third),
        }
    }
}

impl Row {
    // The lowest label of no arm: no label is so high.
    // kept: a number for none, since what is offered is handed to callers in C as a number
    pub const NOLABEL: u16 = Table::LABELS as u16;

    // A Send, a Receive or an End: where a role stands still.
    pub fn stands(self) -> bool
        ensures { result ≡ is_head (said self) }
    {
        matches!(self, Row::End(..) | Row::Send(..) | Row::Receive(..))
    }
}

// A row of the block that begins at row `start`; past the end of the tables its words are 0.
// kept: docs/landings/ name this function and `head`, so they take any numbers and no block, as `find_arm` does.
pub fn row_at(tables: &[u16], start: usize, row: usize) -> Row
    ensures { (said result ≡ row_at tables.now start row) × (four_of result ≡ row_words tables.now (start + row)) }
{
    Row::from(words::row(tables, start.saturating_add(row)))
}

// The row that a row's word names.
fn row_in(tables: &[u16], start: usize, row: u16) -> Row
    ensures { (said result ≡ row_at tables.now start row) × (four_of result ≡ row_words tables.now (start + row)) }
{
    row_at(tables, start, usize::from(row))
}

// The row where a role at `row` comes to stand: on through Loop and Back rows, at most as often as the block has rows.
#[tactic(auto, unfolding(crate::specs::mirror::Rows::follow_at))]
pub fn head(tables: &[u16], start: usize, rows: usize, row: u16) -> u16
    ensures { result ≡ follow_at rows tables.now start row }
{
    let mut at = row;
    for _step in 0..rows {
        match row_in(tables, start, at) {
            Row::Loop(on, ..) | Row::Back(on, ..) => at = on,
            _ => return at,
        }
    }
    at
}

// The continuation of the arm with that label, in the chain that starts at `first`, of at most that many rows: the one lookup of send,
// receive and awaited. A lookup that fails has met every arm, and so knows the lowest label.
// kept: docs/THEOREMS.md names this function, so it takes any tables, start and number of rows and no block.
#[tactic(auto, unfolding(crate::specs::mirror::Rows::lookup), using(crate::proofs::Walk::chain_none, crate::proofs::Walk::chain_met, crate::proofs::Walk::lookup_is))]
pub fn find_arm(
    tables: &[u16],
    start: usize,
    rows: usize,
    first: u16,
    label: usize,
) -> Result<u16, u16>
    ensures { result ≡ found_of (find label (chain_at rows tables.now start first)) (lowest_label base.labels (chain_at rows tables.now start first)) }
{
    let mut arm = first;
    let mut least = Row::NOLABEL;
    for _ in 0..rows {
        if arm == 0 {
            return Err(least);
        }
        let Row::Arm(offered, then, next) = row_in(tables, start, arm) else {
            return Err(least);
        };
        if usize::from(offered) == label {
            return Ok(then);
        }
        least = least.min(offered);
        arm = next;
    }
    Err(least)
}

// A role's rows in the tables of so many roles, which make equal blocks.
#[derive(Clone, Copy)]
pub struct Block<'a> {
    pub tables: &'a [u16],
    pub roles: usize,
    pub role: usize,
    // How many rows the block has, and the first of them among the rows of the tables.
    pub rows: u16,
    pub start: u16,
    pub ghost few: { (role < roles) × (roles ≤ base.roles) × (0 < rows) × (rows ≤ base.rows) },
    pub ghost rows_are: { rows ≡ block_rows tables.now roles },
    pub ghost starts: { start ≡ role * rows },
}

impl<'a> Block<'a> {
    // A role's block, of so many rows.
    pub(crate) fn new(tables: &'a [u16], roles: usize, rows: u16, role: usize) -> Self
        requires { (role < roles) × (roles ≤ base.roles) × (0 < rows) × (rows ≤ base.rows) × (rows ≡ block_rows tables.now roles) }
        ensures { (result.tables.now ≡ tables.now) × (result.roles ≡ roles) × (result.rows ≡ rows) × (result.role ≡ role) }
    {
        Block {
            tables,
            roles,
            role,
            rows,
            start: role as u16 * rows,
        }
    }

    // The block of another role of the same tables.
    pub(crate) fn of_role(&self, role: usize) -> Self
        requires { role < self.now.roles }
        ensures { (result.tables.now ≡ self.now.tables.now) × (result.roles ≡ self.now.roles) × (result.rows ≡ self.now.rows) × (result.role ≡ role) }
    {
        Block::new(self.tables, self.roles, self.rows, role)
    }

    // A row of the block. Past the block's end it is the next block's, and past the end of the tables its words are 0.
    pub fn row(&self, row: u16) -> Row
        ensures { (said result ≡ part_row self.now.tables.now self.now.roles self.now.role row)
            × (four_of result ≡ row_words self.now.tables.now (self.now.start + row)) }
    {
        row_in(self.tables, usize::from(self.start), row)
    }

    // The row where a role at `row` comes to stand.
    pub fn head(&self, row: u16) -> u16
        ensures { result ≡ head self.now.tables.now self.now.roles self.now.role row }
    {
        let start = usize::from(self.start);
        head(self.tables, start, usize::from(self.rows), row)
    }

    // The lookup of an arm in this block.
    pub fn find_arm(&self, first: u16, label: usize) -> Result<u16, u16>
        ensures { result ≡ found_of (find label (arms_of self.now.tables.now self.now.roles self.now.role first)) (lowest_label base.labels (arms_of self.now.tables.now self.now.roles self.now.role first)) }
    {
        let start = usize::from(self.start);
        find_arm(self.tables, start, usize::from(self.rows), first, label)
    }
}

#[cfg(test)]
mod tests {
    use super::*;
    use crate::tables::Blocks;

    // Role 0 sends label 0 to role 1, and both end.
    const TABLES: [u16; 24] = [
        5, 1, 1, 0, 2, 0, 2, 0, 0, 0, 0, 0, 6, 0, 1, 0, 2, 0, 2, 0, 0, 0, 0, 0,
    ];

    #[test]
    fn rows_are_read_whole(rt: HostRuntime) {
        let blocks = Blocks::of(&TABLES, 2).expect(&rt, "the tables are well formed");
        let block = blocks.block(1);
        assert_eq!(rt; block.row(0), Row::Receive(0, 1, 0));
        assert_eq!(rt; block.row(1), Row::Arm(0, 2, 0));
        assert_eq!(rt;
            block.row(9),
            Row::End(0, 0, 0),
            "past the end of the tables"
        );
        assert_eq!(rt; row_at(&[7, 1, 2, 3], 0, 0), Row::Other(7, 1, 2, 3));
        let bad = Block {
            tables: &[7, 1, 2, 3],
            roles: 1,
            role: 0,
            rows: 1,
            start: 0,
        };
        assert_eq!(rt; bad.row(0), Row::Other(7, 1, 2, 3));
    }
}
