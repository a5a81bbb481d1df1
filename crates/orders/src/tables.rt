// The orders that set tables.
ghost use Rattle.std.specs.Prelude.{◌≡◌, ◌*◌, ◌≤◌, OnOk, length, take};
ghost use Rattle.table.specs.Limits.{base};
ghost use Rattle.table.specs.Refusals.{verdict_of};
ghost use Rattle.opening.specs.Opening.{open_of, blocks};
ghost use Rattle.orders.specs.Orders.{opened, open_order, table_order};
ghost use Rattle.orders.specs.Lines.{keeps};
ghost use Rattle.orders.specs.mirror.Said.{Says, Replies};

use crate::run::{BLOCKS, LONGEST, Run, Said, Words, tell};
use session::Session;
use table::Refusal;

// Opens a table into the first words of `tables`.
// No opening is refused for a room of BLOCKS words: ROLES roles of ROWS rows are the most that pass rules 1 and 2, which come before the room's rule 3.
// So a longer room is lent at this length.
fn lend(table: &[u16], roles: usize, room: usize, tables: &mut Words) -> Result<(), Refusal>
    ensures { (verdict_of result ≡ open_of base table.now roles room)
        × OnOk result (take (roles * length table.now) tables.new ≡ blocks table.now roles) }
{
    let lent = room.min(BLOCKS);
    opening::open(table, roles, &mut tables[..lent])
}

// Refused, an opening leaves no tables.
fn open_table(run: Run, table: &[u16], roles: usize, room: usize, tables: &mut Words) -> Said
    ensures { Says result tables.new (opened base (keeps run tables.old) roles room table.now) }
{
    match lend(table, roles, room, tables) {
        Ok(()) => {
            let words = roles * table.len();
            Said {
                told: tell(&[0, 0]),
                shown: words,
                run: Run {
                    roles,
                    words,
                    ..run
                },
            }
        }
        Err(refusal) => {
            let number = u8::from(refusal.rule);
            Said {
                told: tell(&[u32::from(number), refusal.place as u32]),
                shown: 0,
                run: Run {
                    roles,
                    words: 0,
                    ..run
                },
            }
        }
    }
}

// `o ROLES ROOM WORD...`
// kept: `as usize`, here and below, since Rust has no `From<u32>` for it
// kept: `requires`, here and below, since the numbers of a line are a slice, whose length no type bounds
pub(crate) fn open(run: Run, numbers: &[u32], tables: &mut Words) -> Option<Said>
    requires { length numbers.now ≤ 65536 }
    ensures { Replies result run tables.old tables.new (open_order base (keeps run tables.old) numbers.now) }
{
    let mut words = [0u16; LONGEST];
    let [roles, room, table @ ..] = numbers else {
        return None;
    };
    if !lines::narrow(table, &mut words) {
        return None;
    }
    let table = lines::cut(&words, table.len());
    Some(open_table(run, table, *roles as usize, *room as usize, tables))
}

// `t ROLES WORD...`
pub(crate) fn set(run: Run, numbers: &[u32], tables: &mut Words) -> Option<Said>
    requires { length numbers.now ≤ 65536 }
    ensures { Replies result run tables.old tables.new (table_order base (keeps run tables.old) numbers.now) }
{
    let (roles, words) = numbers.split_first()?;
    let roles = *roles as usize;
    if !lines::narrow(words, tables) {
        return None;
    }
    let fresh = Session::fresh(lines::cut(tables, words.len()), roles);
    Some(Said {
        told: tell(&[u32::from(fresh.number())]),
        shown: 0,
        run: Run {
            roles,
            words: words.len(),
            ..run
        },
    })
}
