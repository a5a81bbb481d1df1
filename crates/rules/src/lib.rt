// The check of a table: rules 1, 2 and 4 to 10 in order, each naming the lowest row that breaks it.
#![tactic(auto)]

ghost use Rattle.std.specs.Prelude.{◌≡◌, cond, ◌+◌, ◌≤◌, ◌<◌, get_or, ℕ};
ghost use Rattle.words.specs.Rows.{rows_of};
ghost use Rattle.words.specs.Below.{one};
ghost use Rattle.table.specs.Limits.{base};
ghost use Rattle.table.specs.Rows.{row as row_at, is_loop};
ghost use Rattle.table.specs.Above.{above, loops as loops_of};
ghost use Rattle.table.specs.Rules.{named_broken, unbound_broken, unguarded_broken, rules as rules_in_order};
ghost use Rattle.table.specs.Check.{accepted, tested, Checks};
ghost use Rattle.table.specs.Refusals.{number_of, verdict_of};
ghost use Rattle.table.specs.mirror.Names.{Rising};
ghost use Rattle.rules.specs.mirror.Names.{FewRows, placed, named_by, times_of, around_of, near_of, Namers, Inside, Counts, Around};
ghost use Rattle.rules.specs.mirror.Chain.{repeated_of, chain_of};
ghost use Rattle.rules.specs.mirror.Blame.{Refuses, IsLeast};

use table::{Refusal, Row, Rule, Table, link_broken, read};
use words::word;

// ---- rule 7: who names whom

// The lowest row with a link to a row, and how many links name it.
#[derive(Clone, Copy, Debug, PartialEq, Eq)]
struct Name {
    by: Option<u16>,
    times: u16,
}

// The row names `to`: a place past the last is no row's, and is left out.
fn add_name(names: &mut [Name; Table::ROWS], to: usize, row: u16)
    requires { get_or (times_of names.old) to 0 < 65535 }
    ensures by { (none : ℕ) → named_by none names.new ≡ placed (named_by none names.old) to row }
    ensures times { times_of names.new ≡ placed (times_of names.old) to (get_or (times_of names.old) to 0 + 1) }
{
    if to < Table::ROWS {
        names[to] = Name {
            by: Some(row),
            times: names[to].times + 1,
        };
    }
}

// Who names each row of a table inside the limit. Place 0 means nothing: no rule asks who names row 0.
#[derive(Drop)]
struct Names<'a> {
    words: &'a [u16],
    rows: [Name; Table::ROWS],
    ghost few: { FewRows words.now },
    ghost by: { Namers words.now (named_by (rows_of words.now) rows) },
    ghost inside: { Inside words.now (named_by 0 rows) },
    ghost times: { Counts words.now (times_of rows) },
}

impl<'a> Names<'a> {
    // Rows are taken from the last to the first, so the lowest that names a row is written last.
    fn of(words: &'a [u16]) -> Names<'a>
        requires { FewRows words.now }
        ensures { result.words.now ≡ words.now }
    {
        let count = words.len() / 4;
        let mut rows = [Name { by: None, times: 0 }; Table::ROWS];
        for row in (0..count).rev() {
            let this = read(words, row);
            add_name(&mut rows, this.near_link(), row as u16);
            add_name(&mut rows, this.far_link(), row as u16);
        }
        Names { words, rows }
    }

    // A row but 0 not named exactly once.
    fn broken(&self, row: usize) -> bool
        requires { row < rows_of self.now.words.now }
        ensures { result ≡ named_broken self.now.words.now row }
    {
        row != 0 && self.rows[row].times != 1
    }
}

// ---- rule 8: labels of a chain

// Every arm of a chain compared with every earlier one: the row of the first that repeats a label. Arms are counted, so that it ends for
// any words.
fn repeated(words: &[u16], first: usize) -> Option<usize>
    ensures { result ≡ repeated_of words.now first }
{
    let rows = words.len() / 4;
    let mut row = first;
    let mut passed = 0;
    // kept: a rule of the project, nested loops over the chain left by a label at the first repeated label; `passed` counts the arms for both
    'chain: loop {
        if row == 0 || rows <= passed {
            break 'chain None;
        }
        let label = word(words, row, 1);
        let mut earlier = first;
        for _ in 0..passed {
            if word(words, earlier, 1) == label {
                break 'chain Some(row);
            }
            earlier = usize::from(word(words, earlier, 3));
        }
        row = usize::from(word(words, row, 3));
        passed += 1;
    }
}

// The same for the chain of an Exchange; other rows have none.
fn twice(words: &[u16], row: usize) -> Option<usize>
    ensures { result ≡ chain_of words.now (row_at words.now row) }
{
    match read(words, row) {
        Row::Exchange { arms, .. } => repeated(words, usize::from(arms)),
        _ => None,
    }
}

// The lowest of these over all chains.
// kept: `filter_map(..).min()` was tried, and its proof did not close
fn lowest_twice(words: &[u16]) -> Option<usize>
    ensures { IsLeast (λ row. chain_of words.now (row_at words.now row)) (rows_of words.now) result }
{
    let mut least: Option<usize> = None;
    for row in 0..words.len() / 4 {
        if let Some(arm) = twice(words, row) {
            least = Some(least.map_or(arm, |low| low.min(arm)));
        }
    }
    least
}

// ---- rules 9 and 10: the Loops around a Back

// How many Loops stand around a row, and how many of these with only Loops between.
#[derive(Clone, Copy, Debug, PartialEq, Eq)]
struct Nest {
    around: u16,
    near: u16,
}

impl Nest {
    // What stands under a row has the Loops of that row, and that row itself where it is a Loop.
    fn under(self, looped: bool) -> Nest
        requires { (self.around < 65535) × (self.near < 65535) }
        ensures { (result.around ≡ self.around + one looped) × (result.near ≡ cond looped (self.near + 1) 0) }
    {
        if looped {
            Nest {
                around: self.around + 1,
                near: self.near + 1,
            }
        } else {
            Nest {
                around: self.around,
                near: 0,
            }
        }
    }
}

// The row is a Loop.
fn is_loop(words: &[u16], row: usize) -> bool
    ensures { result ≡ is_loop (row_at words.now row) }
{
    matches!(read(words, row), Row::Loop(..))
}

// The Loops around each row of a table. Where rule 6 or 7 is broken the places hold anything: rules 9 and 10 come later.
#[derive(Drop)]
struct Nests<'a> {
    words: &'a [u16],
    rows: [Nest; Table::ROWS],
    ghost few: { FewRows words.now },
    ghost filled: { Around words.now (around_of rows) (near_of rows) },
}

impl<'a> Nests<'a> {
    // Rows are taken from the first to the last, so the place of the row over each is filled before its own.
    fn of(names: &Names<'a>) -> Nests<'a>
        ensures { result.words.now ≡ names.now.words.now }
    {
        let words = names.words;
        let mut rows = [Nest { around: 0, near: 0 }; Table::ROWS];
        for row in 1..words.len() / 4 {
            if let Some(over) = names.rows[row].by {
                let over = usize::from(over);
                rows[row] = rows[over].under(is_loop(words, over));
            }
        }
        Nests { words, rows }
    }

    // A Back with too few Loops around it.
    fn unbound_broken(&self, row: usize) -> bool
        requires { (row < rows_of self.now.words.now) × (Rising self.now.words.now) }
        ensures { result ≡ unbound_broken self.now.words.now row (row_at self.now.words.now row) }
    {
        match read(self.words, row) {
            Row::Back(depth, ..) => self.rows[row].around <= depth,
            _ => false,
        }
    }

    // A Back with only Loops between it and its Loop.
    fn unguarded_broken(&self, row: usize) -> bool
        requires { (row < rows_of self.now.words.now) × (Rising self.now.words.now) }
        ensures { result ≡ unguarded_broken self.now.words.now row (row_at self.now.words.now row) }
    {
        match read(self.words, row) {
            Row::Back(depth, ..) => depth < self.rows[row].near,
            _ => false,
        }
    }
}

// ---- the rules in order

// The rule is refused at the lowest of the rows that breaks it.
fn refuse_lowest<F: Fn(usize) -> bool>(rule: Rule, rows: usize, broken: F) -> Result<(), Refusal>
    requires { (row : ℕ) → row < rows → F.pre broken row }
    ensures { Refuses (number_of rule) rows (λ row b. F.post broken row b) (verdict_of result) }
{
    for place in 0..rows {
        if broken(place) {
            return Err(Refusal { rule, place });
        }
    }
    Ok(())
}

// Rules 4 to 10 in order, each over all rows. Who names each row is found once, in one pass, and how many Loops stand around it in a
// second. A rule then looks at each row once, `Rule::Twice` also at each two arms of a chain. So the time of each other rule is linear in the rows.
fn rules(words: &[u16], roles: usize) -> Result<(), Refusal>
    requires { FewRows words.now }
    ensures { verdict_of result ≡ tested base words.now roles rules_in_order accepted }
{
    let rows = words.len() / 4;
    let names = Names::of(words);
    let nests = Nests::of(&names);
    refuse_lowest(Rule::Kind, rows, |row| read(words, row).kind_broken())?;
    refuse_lowest(
        Rule::Field,
        rows,
        |row| read(words, row).field_broken(roles),
    )?;
    refuse_lowest(Rule::Link, rows, |row| link_broken(words, row))?;
    refuse_lowest(Rule::Named, rows, |row| names.broken(row))?;
    if let Some(place) = lowest_twice(words) {
        return Err(Refusal {
            rule: Rule::Twice,
            place,
        });
    }
    refuse_lowest(Rule::Unbound, rows, |row| nests.unbound_broken(row))?;
    refuse_lowest(Rule::Unguarded, rows, |row| nests.unguarded_broken(row))
}

// Rules 1, 2 and 4 to 10 in order, each naming the lowest row that breaks it.
pub fn check(words: &[u16], roles: usize) -> Result<(), Refusal>
    ensures { Checks base words.now roles (verdict_of result) }
{
    Table::sizes(words, roles)?;
    rules(words, roles)
}
