// Which roles stay in a Loop: those in an Exchange of its body, and all of them where a Back of its body leaves it.
ghost use Rattle.std.specs.Prelude.{◌||◌, List, ◌≡◌, ℕ, ◌<◌, max, get_or};
ghost use Rattle.table.specs.Limits.{base};
ghost use Rattle.table.specs.Rows.{row as row_at};
ghost use Rattle.table.specs.Tree.{Global, loop};
ghost use Rattle.table.specs.Check.{accepted, check_of};
ghost use Rattle.table.specs.mirror.Read.{said};
ghost use Rattle.parts.specs.Absent.{takes_part, leaves};
ghost use Rattle.parts.specs.mirror.Grows.{Grows};
ghost use Rattle.projection.specs.mirror.Reach.{alone, nothing, both, placed, next_of, reach_of, stay_of};
ghost use Rattle.projection.specs.mirror.Keeps.{Keeps};

use table::{Row, Table};

// What a row and the rows below it reach.
#[derive(Clone, Copy, Debug, PartialEq, Eq)]
struct Reach {
    // The roles in their Exchanges: role k is the digit of weight 2 ^ k.
    roles: u16,
    // How far out their Backs lead: past the d nearest Loops around the row exactly when d < out. 0 when none leads out.
    out: u16,
}

// The set of one role. A role out of range, which only a broken table has, is in no set.
// kept: checked_shl would put the roles 8 to 15 in sets.
fn only(role: usize) -> u16
    ensures { result ≡ alone role }
{
    if role < Table::ROLES { 1u16 << role } else { 0 }
}

// Every role.
const ALL: u16 = (1 << Table::ROLES) - 1;

impl Reach {
    const NOTHING: Reach = Reach { roles: 0, out: 0 };

    // What two rows reach together.
    fn and(self, other: Reach) -> Reach
        ensures { result ≡ both self other }
    {
        Reach {
            roles: self.roles | other.roles,
            out: self.out.max(other.out),
        }
    }

    // What the row that a link leads to reaches.
    fn at(found: &[Reach], row: usize) -> Reach
        ensures { result ≡ placed found.now row }
    {
        found.get(row).copied().unwrap_or(Reach::NOTHING)
    }

    // What the arms after an Arm reach: nothing where there is none.
    // kept: 0 for none, as the table's word has it
    fn at_next(found: &[Reach], next: usize) -> Reach
        ensures { result ≡ next_of (placed found.now) next }
    {
        if next == 0 {
            Reach::NOTHING
        } else {
            Reach::at(found, next)
        }
    }

    // What a row reaches, from what the rows that its links lead to reach.
    fn of(row: Row, found: &[Reach]) -> Reach
        ensures { result ≡ reach_of (placed found.now) (said row) }
    {
        match row {
            Row::Exchange {
                sender,
                receiver,
                arms,
            } => {
                let arms = Reach::at(found, usize::from(arms));
                Reach {
                    roles: only(usize::from(sender)) | only(usize::from(receiver)) | arms.roles,
                    ..arms
                }
            }
            Row::Arm { then, next, .. } => Reach::at(found, usize::from(then)).and(Reach::at_next(
                found,
                usize::from(next),
            )),
            Row::Loop(body, _, _) => {
                let body = Reach::at(found, usize::from(body));
                Reach {
                    out: body.out.saturating_sub(1),
                    ..body
                }
            }
            // Only a broken table has a depth for which there is no next number.
            Row::Back(depth, _, _) => Reach {
                roles: 0,
                out: depth.saturating_add(1),
            },
            Row::End(_, _, _) | Row::Other(..) => Reach::NOTHING,
        }
    }

    // The roles that stay in a Loop that reaches this: all of them where a Back leads out of it.
    fn stay(self) -> u16
        ensures { result ≡ stay_of self }
    {
        if 0 < self.out { ALL } else { self.roles }
    }
}

// For each Loop, the roles whose part in it is a Loop and not End: role k is the digit of weight 2 ^ k. Links lead to higher rows, so one
// pass from the last row to row 0 finds what each row reaches. The places of the other rows mean nothing.
pub fn kept_roles(table: &[u16]) -> [u16; Table::ROWS]
    ensures { (roles : ℕ) → check_of base table.now roles ≡ accepted → Keeps table.now result }
{
    let mut found = [Reach::NOTHING; Table::ROWS];
    let mut kept = [0u16; Table::ROWS];
    let rows = Table::ROWS.min(table.len() / 4);
    for row in (0..rows).rev() {
        let reach = Reach::of(table::read(table, row), &found);
        found[row] = reach;
        kept[row] = reach.stay();
    }
    kept
}

// Whether the part of a role in the Loop at a row is a Loop: the role is in an Exchange of the body, or a Back of the body leaves the Loop.
// Otherwise the part is End.
pub fn stays(kept: &[u16], row: usize, role: usize) -> bool
    ensures { (t : List ℕ) (B : Global ℕ) → Keeps t kept.now → Grows t row (loop B) → role < base.roles
        → result ≡ (takes_part role B || leaves 1 B) }
{
    words::peek(kept, row) & only(role) != 0
}
