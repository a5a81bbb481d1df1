// Rule 12: tables that are well formed for a step.
ghost use Rattle.std.specs.Prelude.{◌≡◌, true, false, ◌-◌, ◌<◌, ◌≤◌, MatchOption};
ghost use Rattle.words.specs.Below.{every};
ghost use Rattle.table.specs.Limits.{base};
ghost use Rattle.blocks.specs.Block.{block_rows};
ghost use Rattle.blocks.specs.Tables.{to_arm, to_other, is_peer, row_good, tables_good};
ghost use Rattle.blocks.specs.mirror.Tables.{to_next, to_loop, sized_rows};
ghost use Rattle.blocks.specs.mirror.Heads.{Bad};

use crate::heads::Notes;
use crate::rows::{Block, Row};
use table::Table;

impl<'a> Block<'a> {
    ghost use Rattle.blocks.specs.mirror.Rows.{said};
    ghost use Rattle.blocks.specs.Tables.{row_holds};

    // A link from a row to an Arm of a higher number, inside the block.
    fn to_arm(&self, row: u16, link: u16) -> bool
        ensures { result ≡ to_arm self.now.tables.now self.now.roles self.now.role row link }
    {
        (row < link) && (link < self.rows) && matches!(self.row(link), Row::Arm(..))
    }

    // A link from a row to a row that is no Arm, of a higher number, inside the block.
    // kept: beside `to_arm`, since one function with a flag is longer than both
    fn to_other(&self, row: u16, link: u16) -> bool
        ensures { result ≡ to_other self.now.tables.now self.now.roles self.now.role row link }
    {
        (row < link) && (link < self.rows) && !matches!(self.row(link), Row::Arm(..))
    }

    // After an arm with this label none comes, or one with a higher label.
    fn to_next(&self, row: u16, label: u16, link: u16) -> bool
        ensures { result ≡ to_next self.now.tables.now self.now.roles self.now.role row label link }
    {
        if link == 0 {
            return true;
        }
        match self.row(link) {
            Row::Arm(higher, ..) => (row < link) && (link < self.rows) && (label < higher),
            _ => false,
        }
    }

    // A Back's word: a Loop of a lower number.
    fn to_loop(&self, row: u16, link: u16) -> bool
        ensures { result ≡ to_loop self.now.tables.now self.now.roles self.now.role row link }
    {
        (link < row) && matches!(self.row(link), Row::Loop(..))
    }

    // A peer is another role.
    fn is_peer(&self, peer: u16) -> bool
        ensures { result ≡ is_peer self.now.roles self.now.role peer }
    {
        let other = usize::from(peer);
        (other < self.roles) && (other != self.role)
    }

    // The kind of a row chooses the tests of its fields and links.
    #[tactic(auto, unfolding(crate::specs::Tables::row_holds))]
    fn row_holds(&self, row: u16, part: Row) -> bool
        ensures { result ≡ row_holds base self.now.tables.now self.now.roles self.now.role row (said part) }
    {
        match part {
            Row::End(first, second, third) => (first == 0) && (second == 0) && (third == 0),
            Row::Arm(label, then, next) => {
                let low = usize::from(label) < Table::LABELS;
                (row != 0) && low && self.to_other(row, then) && self.to_next(row, label, next)
            }
            Row::Loop(body, second, third) => {
                self.to_other(row, body) && (second == 0) && (third == 0)
            }
            Row::Back(to, second, third) => self.to_loop(row, to) && (second == 0) && (third == 0),
            Row::Send(peer, first, third) | Row::Receive(peer, first, third) => {
                self.is_peer(peer) && self.to_arm(row, first) && (third == 0)
            }
            Row::Other(..) => false,
        }
    }
}

impl<'a> Notes<'a> {
    // A row is well formed, and has a head if it is no Arm. Only a Loop or a Back is followed: a row of another kind is its own head.
    fn row_good(&mut self, row: u16) -> bool
        requires { row < self.old.block.rows }
        ensures { (result ≡ true → row_good base self.old.block.tables.now self.old.block.roles self.old.block.role row ≡ true)
            × (result ≡ false → Bad self.old.block.tables.now self.old.block.roles self.old.block.role)
            × (self.new.block ≡ self.old.block) }
    {
        let part = self.block.row(row);
        if !self.block.row_holds(row, part) {
            return false;
        }
        match part {
            Row::Loop(on, ..) | Row::Back(on, ..) => self.has_head(on),
            _ => true,
        }
    }

    // kept: `all` was tried, and gets no proof, since its closure changes the notes
    fn block_good(&mut self) -> bool
        ensures { (result ≡ every (λ i. row_good base self.old.block.tables.now self.old.block.roles self.old.block.role i) (block_rows self.old.block.tables.now self.old.block.roles))
            × (self.new.block ≡ self.old.block) }
    {
        for row in 0..self.block.rows {
            if !self.row_good(row) {
                return false;
            }
        }
        true
    }
}

// How many rows each role's block has, by the length of the tables; none where the roles are too few or too many, or the words do not make
// equal blocks of 1 to the limit's rows.
fn block_rows(tables: &[u16], roles: usize) -> Option<u16>
    ensures { result ≡ sized_rows base tables.now roles }
{
    if !(Table::FEWEST_ROLES..=Table::ROLES).contains(&roles) {
        return None;
    }
    let rows = tables.len() / 4 / roles;
    if (roles * rows * 4 == tables.len()) && (0 < rows) && (rows <= Table::ROWS) {
        Some(rows as u16)
    } else {
        None
    }
}

// Tables that are well formed for a step: each role has a block of so many rows.
#[derive(Clone, Copy)]
pub struct Blocks<'a> {
    pub tables: &'a [u16],
    pub roles: usize,
    pub rows: u16,
    pub ghost few: { (roles ≤ base.roles) × (0 < rows) × (rows ≤ base.rows) },
    pub ghost rows_are: { rows ≡ block_rows tables.now roles },
    pub ghost good: { tables_good base tables.now roles ≡ true },
}

impl<'a> Blocks<'a> {
    // The one test of rule 12: none for tables that are not well formed.
    pub fn of(tables: &'a [u16], roles: usize) -> Option<Self>
        ensures { MatchOption result (tables_good base tables.now roles ≡ false)
            (λ blocks. (tables_good base tables.now roles ≡ true) × (blocks.tables.now ≡ tables.now) × (blocks.roles ≡ roles)) }
    {
        let rows = block_rows(tables, roles)?;
        let mut notes = Notes::new(Block::new(tables, roles, rows, 0));
        for role in 0..roles {
            notes.enter(role);
            if !notes.block_good() {
                return None;
            }
        }
        Some(Blocks {
            tables,
            roles,
            rows,
        })
    }

    // The block of a role; for a role that is not there, the last role's.
    pub fn block(&self, role: usize) -> Block<'a>
        ensures { (result.tables.now ≡ self.now.tables.now) × (result.roles ≡ self.now.roles) × (role < self.now.roles → result.role ≡ role)
            × (self.now.roles ≤ role → result.role ≡ self.now.roles - 1) }
    {
        let role = role.min(self.roles - 1);
        Block::new(self.tables, self.roles, self.rows, role)
    }
}
