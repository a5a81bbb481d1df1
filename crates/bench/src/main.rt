// The line protocol over opening and session: one line in, one line out, to the end of the input.
//
// A line of more than 65,536 bytes is answered `?`, as is every line that is malformed.
#![tactic(auto)]

use lines::{Answerer, Line};
use orders::{LONGEST, Numbers, Run, TEXT, Words};
use std::io;
use std::io::Write;

// One byte more than the longest line, so that a longer one shows.
const ROOM: usize = LONGEST + 1;

// Where the answers go, and what is kept from line to line.
#[derive(Drop)]
struct Desk<'a, P: Print> {
    rt: &'a P,
    run: Run,
    numbers: Numbers,
    tables: Words,
}

impl<P: Print> Answerer for Desk<'_, P> {
    ghost use Rattle.std.specs.Prelude.{◌≡◌, ℕ, List};
    ghost use Rattle.table.specs.Limits.{base};
    ghost use Rattle.orders.specs.Lines.{Answers};
    ghost use Rattle.orders.specs.declared.run.Answered.{Answered};

    // The line was answered: what is kept is what its answer leaves.
    ghost took = { λ desk line after. (said : Answered) × (text : List ℕ) × Answers base desk.run desk.tables line said after.tables text × (after.run ≡ said.run) };

    fn answer(&mut self, line: &[u8]) -> io::Result<()> {
        let mut text = [0u8; TEXT];
        let answered = orders::answer(
            self.run,
            line,
            &mut self.numbers,
            &mut self.tables,
            &mut text,
        );
        self.run = answered.run;
        io::writer(self.rt).write_all(lines::cut(&text, answered.length))
    }
}

fn main(rt: HostRuntime) -> io::Result<()> {
    let mut line = Line::<ROOM>::behind(b"");
    let mut desk = Desk {
        rt: &rt,
        run: orders::start(),
        numbers: [0; LONGEST],
        tables: [0; LONGEST],
    };
    lines::answer_all(&mut rt.reader(), &mut line, &mut desk)
}
