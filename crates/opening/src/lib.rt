// Opening a protocol table: rules 1 to 11 in order, and the room that is lent.
#![tactic(auto)]

pub mod marked;

ghost use Rattle.std.specs.Prelude.{◌≡◌, ◌++◌, ◌*◌, ◌≤◌, OnOk, length, drop};
ghost use Rattle.table.specs.Limits.{base};
ghost use Rattle.table.specs.Refusals.{verdict_of};
ghost use Rattle.opening.specs.Opening.{open_of, blocks, Opens};
ghost use Rattle.projection.specs.mirror.Projects.{Complete};

use projection::PARTS;
use table::{Refusal, Rule, Table};

// Every refusal is found here, before a word of the room is written. Accepted, the words of the parts stand in `parts`.
fn judge(table: &[u16], roles: usize, room: usize, parts: &mut [u16; PARTS]) -> Result<(), Refusal>
    ensures verdict { verdict_of result ≡ open_of base table.now roles room }
    ensures parts { OnOk result (Complete table.now roles parts.new) }
    ensures room { OnOk result (roles * length table.now ≤ room) }
{
    Table::sizes(table, roles)?;
    if room < roles * table.len() {
        return Err(Refusal::of_all(Rule::Room));
    }
    projection::parts(table, roles, parts)
}

// The blocks, role 0 first, over the first words of the room.
fn fill(table: &[u16], roles: usize, parts: &[u16; PARTS], room: &mut [u16])
    requires { Complete table.now roles parts.now × (roles * length table.now ≤ length room.old) }
    ensures { room.new ≡ blocks table.now roles ++ drop (roles * length table.now) room.old }
{
    let rows = table.len() / 4;
    let mut loops = [0u16; Table::ROWS];
    let mut code = 0;
    for role in 0..roles {
        code = layout::lay_out(parts, code, room, role * rows, rows, &mut loops);
    }
}

// Opens a table: the room holds every role's part, or stays as it was.
pub fn open(table: &[u16], roles: usize, room: &mut [u16]) -> Result<(), Refusal>
    ensures { Opens base table.now roles room.old (verdict_of result) room.new }
{
    let mut parts = [0u16; PARTS];
    judge(table, roles, room.len(), &mut parts)?;
    fill(table, roles, &parts, room);
    Ok(())
}
