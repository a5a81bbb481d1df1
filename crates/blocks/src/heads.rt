// How far the rows of a block are from their heads. The rows of a long way are noted, and no later way goes on past a noted row: so the
// steps of all rows of a block together are at most a few for each, whatever its words.
ghost use Rattle.std.specs.Prelude.{◌≡◌, true, false, ◌-◌, ◌<◌, ◌≤◌};
ghost use Rattle.table.specs.Limits.{base};
ghost use Rattle.blocks.specs.mirror.Heads.{has_head_in, Far, Noted, Headless, Steps};

use crate::rows::{Block, Row};
use table::Table;

// A block, and of each of its rows the steps to its head after the block's `start`; at most `start` where nothing is known of the row. The
// blocks share one array of notes: what an earlier block left there is at most the next block's `start`.
#[derive(Drop)]
pub struct Notes<'a> {
    pub block: Block<'a>,
    pub noted: [u16; Table::ROWS],
    pub ghost right: { Noted block.tables.now block.roles block.role noted },
}

impl<'a> Notes<'a> {
    // So few steps are sooner gone again than noted. Few tables have a head further away.
    const NEAR: u16 = 4;

    // Nothing is known yet.
    pub fn new(block: Block<'a>) -> Self
        ensures { result.block ≡ block.entry }
    {
        Notes {
            block,
            noted: [0; Table::ROWS],
        }
    }

    // Goes on to the block of this role or of a later one.
    pub fn enter(&mut self, role: usize)
        requires { (self.old.block.role ≤ role) × (role < self.old.block.roles) }
        ensures { (self.new.block.tables.now ≡ self.old.block.tables.now) × (self.new.block.roles ≡ self.old.block.roles) × (self.new.block.role ≡ role) }
    {
        self.block = self.block.of_role(role);
    }

    // How many steps lead from a row to its head; none where there is no head that near. Whoever leaves the block came from a row that does
    // not hold, and is not followed further.
    fn steps(&self, row: u16) -> Option<u16>
        requires { row < self.now.block.rows }
        ensures { Steps self.now.block.tables.now self.now.block.roles self.now.block.role row result }
    {
        let rows = self.block.rows;
        let mut at = row;
        for taken in 0..rows {
            let part = self.block.row(at);
            let on = match part {
                Row::Loop(on, ..) | Row::Back(on, ..) => on,
                _ => return part.stands().then_some(taken),
            };
            let left = words::peek(&self.noted, usize::from(at)).saturating_sub(self.block.start);
            if 0 < left {
                let far = taken + left;
                return (far < rows).then_some(far);
            }
            if rows <= on {
                return None;
            }
            at = on;
        }
        None
    }

    // Notes the rows on the way to a head, up to the first that was noted before.
    fn note(&mut self, row: u16, far: u16)
        requires { (far ≤ self.old.block.rows) × Far self.old.block.tables.now self.old.block.roles self.old.block.role row far }
        ensures { self.new.block ≡ self.old.block }
    {
        let mut at = row;
        for taken in 0..far {
            let place = usize::from(at);
            if self.block.start < words::peek(&self.noted, place) {
                return;
            }
            words::poke(&mut self.noted, place, self.block.start + (far - taken));
            match self.block.row(at) {
                Row::Loop(on, ..) | Row::Back(on, ..) => at = on,
                _ => return,
            }
        }
    }

    // Whether fewer steps than the block has rows lead from a row to its head.
    pub fn has_head(&mut self, row: u16) -> bool
        requires { row < self.old.block.rows }
        ensures { (result ≡ true → has_head_in (self.old.block.rows - 1) self.old.block.tables.now self.old.block.roles self.old.block.role row ≡ true)
            × (result ≡ false → Headless self.old.block.tables.now self.old.block.roles self.old.block.role row)
            × (self.new.block ≡ self.old.block) }
    {
        let Some(far) = self.steps(row) else {
            return false;
        };
        if Self::NEAR < far {
            self.note(row, far);
        }
        true
    }
}
