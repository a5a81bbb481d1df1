// The yearly report: the lines of a log in, the line that answers them out, and behind it a table for a person.
#![tactic(auto)]

mod sheet;

use lines::{Answerer, Line};
use logs::{LONGEST, Log, Numbers, TEXT};
use sheet::Sheet;
use std::io;
use std::io::Write;

// One byte more than the longest line, so that a longer one shows.
const WIDEST: usize = LONGEST + 1;

// The log, and room for the numbers of a line.
#[derive(Drop)]
struct Book {
    log: Log,
    numbers: Numbers,
}

impl Answerer for Book {
    ghost use Rattle.logs.specs.Logs.{Takes};

    // The log has taken the line.
    ghost took = { λ book line after. Takes book.log line after.log };

    fn answer(&mut self, line: &[u8]) -> io::Result<()> {
        self.log.take(line, &mut self.numbers);
        Ok(())
    }
}

// The answer, and the table of a log without a malformed line.
fn tell(rt: &impl Print, log: &Log) -> io::Result<()> {
    let mut text = [0; TEXT];
    let length = log.answer(&mut text);
    io::writer(rt).write_all(lines::cut(&text, length))?;
    let Some(roles) = log.roles() else {
        return Ok(());
    };
    match log.figures() {
        Ok(figures) => print!(rt; "{}", Sheet { figures, roles }),
        Err(refusal) => println!(rt; "refused: {refusal}"),
    }
}

fn main(rt: HostRuntime) -> io::Result<()> {
    // a line stands behind a letter and a blank
    let mut line: Line<WIDEST> = Line::behind(b"r ");
    let mut book = Book {
        log: Log::new(),
        numbers: [0; LONGEST],
    };
    lines::answer_all(&mut rt.reader(), &mut line, &mut book)?;
    tell(&rt, &book.log)
}
