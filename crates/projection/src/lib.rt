// The parts of the roles: a projection that goes on to higher rows and calls the merge. A part is one word a row in the order met, a kind and an
// argument (specs/mirror/Codes.antt of parts). `work` is a stack of such words, with `at` its height; `spare` is lent to the merges. What every
// role needs of the table is found once: `kept`, the roles that stay in each Loop, and `order`, the arms of each chain in rising label order.
#![tactic(auto)]

mod chains;
mod reach;

ghost use Rattle.std.specs.Prelude.{◌≡◌, ℕ, ◌*◌, ◌<◌, ◌≤◌, min, length, get_or, OnOk};
ghost use Rattle.words.specs.Rows.{rows_of};
ghost use Rattle.table.specs.Limits.{base};
ghost use Rattle.table.specs.Check.{accepted, check_of};
ghost use Rattle.table.specs.Refusals.{verdict_of};
ghost use Rattle.table.specs.Tree.{Global, loop, Arms, exchange};
ghost use Rattle.parts.specs.mirror.Grows.{Grows, Chain, ordered};
ghost use Rattle.parts.specs.mirror.Kinds.{argument_of, word_of};
ghost use Rattle.projection.specs.mirror.Keeps.{Keeps};
ghost use Rattle.projection.specs.mirror.Orders.{Listed};
ghost use Rattle.projection.specs.mirror.Projects.{SMALL, Coded, Pushed, PlannedBy, Planned, Enters, Walks, Closed, ArmRead, Chooses, Projects, Owns, Folds, Parted, parts_of, Complete};

use parts::Code;
use table::{Refusal, Row, Rule, Table};

// What a row asks for a role.
#[derive(Clone, Copy, Debug, PartialEq, Eq)]
enum Plan {
    // The word is the whole part.
    Leaf { word: u16 },
    // The word, then the part of the row.
    Body { word: u16, row: usize },
    // The word, then the arms from the row `first` on, in rising order.
    Action { word: u16, first: usize },
    // The merge of the parts of the arms from the row `first` on.
    Others { first: usize },
}

// The row that a row leads on to, the height of the stack before its part, and how many marks are put behind its part.
#[derive(Clone, Copy, Debug, PartialEq, Eq)]
struct Step {
    row: usize,
    at: usize,
    marks: usize,
}

// A plan, the height of the stack before its part, how many marks are put behind it, and how many links are left to follow below its row.
#[derive(Clone, Copy, Debug, PartialEq, Eq)]
struct Way {
    plan: Plan,
    at: usize,
    marks: usize,
    left: usize,
}

// An arm: its word, its continuation and the arm after it in the chain, 0 for none.
// kept: 0 for none, as the table's word has it. An Option would be made from it and taken apart again at each arm.
#[derive(Clone, Copy, Debug, PartialEq, Eq)]
struct Arm {
    word: u16,
    then: usize,
    next: usize,
}

// The words of the parts of any table have room here: a part has at most two for each row.
pub const PARTS: usize = Table::ROLES * Table::ROWS * 2;

// A merge of two parts of one table has at most two words for each row, and two arm lists have one mark more.
const SPARE: usize = Table::ROWS * 2 + 1;

// The word of a code; only a broken table has an argument for which there is none.
fn word(code: Code) -> u16
    ensures { argument_of code < SMALL → result ≡ word_of code }
{
    u16::try_from(code).unwrap_or(0)
}

// One word more on the stack; nothing where it is full, so that no sum wraps.
// kept: the stack is a lent slice with its height beside it, and the height is answered. A struct around the `&mut` is no plainer: each clause
// would say besides that the same slice is left in it, as long as it was.
fn push(work: &mut [u16], at: usize, word: u16) -> usize
    ensures { Pushed work.old at word work.new result }
{
    if at < work.len() {
        work[at] = word;
        return at + 1;
    }
    at
}

// Puts so many marks on the stack.
fn close(work: &mut [u16], at: usize, marks: usize) -> usize
    ensures { Closed marks work.old at work.new result }
{
    let mut top = at;
    for _ in 0..marks {
        top = push(work, top, word(Code::Mark));
    }
    top
}

// What the part of a role is made from: a table with what is found in it, and the role.
// kept: what is known of these (`Known`) stands in the relations. It holds lists of rows, which no ghost field may: such a fact has one proof.
#[derive(Clone, Copy)]
struct Projection<'a> {
    table: &'a [u16],
    kept: &'a [u16],
    order: &'a [u16],
    role: usize,
}

impl<'a> Projection<'a> {
    // A Loop: where the role is in no exchange below and no Back below leaves the Loop, its part is end.
    fn at_loop(&self, row: usize, body: usize) -> Plan
        ensures { (B : Global ℕ) → Keeps self.now.table.now self.now.kept.now → self.now.role < base.roles
            → Grows self.now.table.now row (loop B) → Grows self.now.table.now body B → PlannedBy result self.now (loop B) }
    {
        if reach::stays(self.kept, row, self.role) {
            Plan::Body {
                word: word(Code::Loop),
                row: body,
            }
        } else {
            Plan::Leaf {
                word: word(Code::End),
            }
        }
    }

    // An Exchange: the role sends, receives, or stands by. `least`: the arm with the lowest label; `first`: the first of the chain.
    fn at_exchange(&self, sender: u16, receiver: u16, least: usize, first: usize) -> Plan
        ensures { (cs : Arms ℕ) → Coded (exchange sender receiver cs)
            → Listed self.now.table.now self.now.order.now least (ordered cs) → Chain self.now.table.now first cs
            → PlannedBy result self.now (exchange sender receiver cs) }
    {
        if self.role == usize::from(sender) {
            return Plan::Action {
                word: word(Code::Send(receiver)),
                first: least,
            };
        }
        if self.role == usize::from(receiver) {
            return Plan::Action {
                word: word(Code::Receive(sender)),
                first: least,
            };
        }
        Plan::Others { first }
    }

    // The arm with the lowest label of an Exchange, or the one with the next higher label behind an Arm; 0 for none.
    fn after(&self, row: usize) -> usize
        ensures { result ≡ get_or self.now.order.now row 0 }
    {
        usize::from(words::peek(self.order, row))
    }

    // The plan for the role at a row.
    fn plan_at(&self, row: usize) -> Plan
        ensures { Planned self.now row result }
    {
        match table::read(self.table, row) {
            Row::Exchange {
                sender,
                receiver,
                arms,
            } => self.at_exchange(sender, receiver, self.after(row), usize::from(arms)),
            Row::Loop(body, _, _) => self.at_loop(row, usize::from(body)),
            Row::Back(depth, _, _) => Plan::Leaf {
                word: word(Code::Back(depth)),
            },
            _ => Plan::Leaf {
                word: word(Code::End),
            },
        }
    }

    // The arm at a row; none where the row is no Arm.
    fn arm_at(&self, row: usize) -> Option<Arm>
        ensures { ArmRead self.now.table.now row result }
    {
        let Row::Arm { label, then, next } = table::read(self.table, row) else {
            return None;
        };
        Some(Arm {
            word: word(Code::Arm(label)),
            then: usize::from(then),
            next: usize::from(next),
        })
    }

    // Where a plan is a Loop, or an exchange with one arm, its part is that of one other row, with words before and marks behind: puts the
    // words before it on the stack. None where the plan leads on to no single row.
    fn enter(&self, plan: Plan, work: &mut [u16], at: usize) -> Option<Step>
        ensures { Enters self.now plan work.old at work.new result }
    {
        match plan {
            Plan::Leaf { .. } => None,
            Plan::Body { word, row } => Some(Step {
                row,
                at: push(work, at, word),
                marks: 0,
            }),
            Plan::Action { word, first } => {
                if first == 0 || self.after(first) != 0 {
                    return None;
                }
                let arm = self.arm_at(first)?;
                let arms = push(work, at, word);
                Some(Step {
                    row: arm.then,
                    at: push(work, arms, arm.word),
                    marks: 1,
                })
            }
            Plan::Others { first } => {
                let arm = self.arm_at(first)?;
                if arm.next != 0 {
                    return None;
                }
                Some(Step {
                    row: arm.then,
                    at,
                    marks: 0,
                })
            }
        }
    }

    // Goes from a row to the first one that is a leaf or has several arms; none where the links run out before. A loop, so that no long talk
    // stands on the call stack.
    fn walk(&self, row: usize, work: &mut [u16], at: usize, left: usize) -> Option<Way>
        ensures { Walks self.now left row work.old at work.new result }
    {
        let mut here = row;
        let mut top = at;
        let mut marks = 0;
        for less in (0..left).rev() {
            let plan = self.plan_at(here);
            let Some(step) = self.enter(plan, work, top) else {
                return Some(Way {
                    plan,
                    at: top,
                    marks,
                    left: less,
                });
            };
            here = step.row;
            top = step.at;
            marks += step.marks;
        }
        None
    }

    // Puts the part of a plan on the stack.
    #[cycle(project)]
    fn choose(&self, way: Way, work: &mut [u16], spare: &mut [u16]) -> Option<usize>
        ensures { Chooses self.now way.plan way.left work.old way.at spare.old work.new result }
    {
        let at = way.at;
        let left = way.left;
        match way.plan {
            Plan::Leaf { word } => Some(push(work, at, word)),
            Plan::Body { word, row } => {
                let body = push(work, at, word);
                self.project(row, work, body, spare, left)
            }
            Plan::Action { word, first } => {
                let arms = push(work, at, word);
                self.own(first, work, arms, spare, left)
            }
            Plan::Others { first } => {
                let arm = self.arm_at(first)?;
                let end = self.project(arm.then, work, at, spare, left)?;
                self.fold(arm.next, work, at, end, spare, left)
            }
        }
    }

    // Puts the part of the role in the tree of a row on the stack; at most `left` links are followed. None where there is no part.
    #[cycle(project)]
    fn project(
        &self,
        row: usize,
        work: &mut [u16],
        at: usize,
        spare: &mut [u16],
        left: usize,
    ) -> Option<usize>
        ensures { Projects self.now left row work.old at spare.old work.new result }
    {
        let way = self.walk(row, work, at, left)?;
        let end = self.choose(way, work, spare)?;
        Some(close(work, end, way.marks))
    }

    // Puts the arms of the role's own action on the stack, from a row on in rising label order, and the mark behind them.
    #[cycle(project)]
    fn own(
        &self,
        row: usize,
        work: &mut [u16],
        at: usize,
        spare: &mut [u16],
        left: usize,
    ) -> Option<usize>
        ensures { Owns self.now left row work.old at spare.old work.new result }
    {
        if row == 0 || left == 0 {
            return Some(push(work, at, word(Code::Mark)));
        }
        let less = left - 1;
        let arm = self.arm_at(row)?;
        let cont = push(work, at, arm.word);
        let end = self.project(arm.then, work, cont, spare, less)?;
        self.own(self.after(row), work, end, spare, less)
    }

    // Merges the part from `at` up to `end`, the last on the stack, with the parts of the arms from a row on, one after the other.
    #[cycle(project)]
    fn fold(
        &self,
        row: usize,
        work: &mut [u16],
        at: usize,
        end: usize,
        spare: &mut [u16],
        left: usize,
    ) -> Option<usize>
        ensures { Folds self.now left row work.old at end spare.old work.new result }
    {
        if row == 0 || left == 0 {
            return Some(end);
        }
        let less = left - 1;
        let arm = self.arm_at(row)?;
        self.project(arm.then, work, end, spare, less)?;
        let top = merge::join(work, spare, at, end).ok()?;
        self.fold(arm.next, work, at, top, spare, less)
    }
}

// Puts the parts of the roles in a table that the check accepts one after the other, up to the lowest role that has none. The merges are lent
// a word for each that two parts of this table can have.
fn project_all(table: &[u16], roles: usize, work: &mut [u16]) -> Result<(), Refusal>
    requires { (check_of base table.now roles ≡ accepted) × (roles * (rows_of table.now * 2) ≤ length work.old) }
    ensures { Parted table.now roles work.new result }
{
    let kept = reach::kept_roles(table);
    let order = chains::arms_in_order(table);
    // kept: arrays of the largest size, since memory is fixed.
    let mut spare = [0u16; SPARE];
    let rows = table.len() / 4;
    let words = rows * 2 + 1;
    let mut at = 0;
    for role in 0..roles {
        let projection = Projection {
            table,
            kept: &kept,
            order: &order,
            role,
        };
        let part = projection.project(0, work, at, &mut spare[..words], rows);
        at = part.ok_or(Refusal {
            rule: Rule::NoPart,
            place: role,
        })?;
    }
    Ok(())
}

// Rules 1, 2 and 4 to 11: the verdict on a table and on its parts. Where every role has one, the words of all parts stand in `work`, one part
// after the other. Only a table that keeps the rules is projected, and there no row is met twice for a role.
pub fn parts(table: &[u16], roles: usize, work: &mut [u16; PARTS]) -> Result<(), Refusal>
    ensures verdict { verdict_of result ≡ parts_of base table.now roles }
    ensures complete { OnOk result (Complete table.now roles work.new) }
{
    rules::check(table, roles)?;
    project_all(table, roles, work)
}
