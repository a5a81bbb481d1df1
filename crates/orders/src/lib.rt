// What a line of `bench` asks for, and what is answered: the tables and the calls, each by its letter.
#![tactic(auto)]

mod calls;
mod read;
mod run;
mod shown;
mod tables;

ghost use Rattle.std.specs.Prelude.{◌≡◌, ◌≤◌, length};
ghost use Rattle.table.specs.Limits.{base};
ghost use Rattle.orders.specs.Orders.{order_of};
ghost use Rattle.orders.specs.Lines.{keeps, reply_to, Answers};
ghost use Rattle.orders.specs.mirror.Said.{Replies};

use run::Said;
pub use run::{Answered, LONGEST, Numbers, Run, TEXT, Text, Words, start};

// The order with that letter and those numbers; none for a letter that no order has, or where the numbers are not that order's.
// kept: `requires`, since the numbers of a line are a slice, whose length no type bounds
#[tactic(auto, unfolding(crate::specs::Orders::order_of))]
fn order(letter: u8, run: Run, numbers: &[u32], tables: &mut Words) -> Option<Said>
    requires { length numbers.now ≤ 65536 }
    ensures { Replies result run tables.old tables.new (order_of base (keeps run tables.old) letter numbers.now) }
{
    match letter {
        b'o' => tables::open(run, numbers, tables),
        b't' => tables::set(run, numbers, tables),
        b'f' => calls::fresh(run, numbers, tables),
        b'h' => calls::hand(run, numbers, tables),
        b's' => calls::send(run, numbers, tables),
        b'r' => calls::receive(run, numbers, tables),
        _ => None,
    }
}

// The order that a line is; none for a malformed line.
fn obey(run: Run, line: &[u8], numbers: &mut Numbers, tables: &mut Words) -> Option<Said>
    ensures { Replies result run tables.old tables.new (reply_to base (keeps run tables.old) line.now) }
{
    let count = lines::numbers(line, numbers)?;
    let letter = line.first()?;
    order(*letter, run, lines::cut(numbers, count), tables)
}

// The answer to the line is the text's first bytes; a malformed line is answered `?` and changes nothing.
pub fn answer(
    run: Run,
    line: &[u8],
    numbers: &mut Numbers,
    tables: &mut Words,
    text: &mut Text,
) -> Answered
    ensures { Answers base run tables.old line.now result tables.new text.new }
{
    match obey(run, line, numbers, tables) {
        Some(said) => Answered {
            length: shown::write(&said, tables, text),
            run: said.run,
        },
        None => Answered {
            length: shown::ask(text),
            run,
        },
    }
}
