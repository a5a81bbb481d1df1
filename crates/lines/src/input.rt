// The lines of an input: a reader that is run to its end.
ghost use Rattle.std.specs.Prelude.{◌≡◌, ◌<◌, ℕ, List, length, OnOk, MatchOption};
ghost use Rattle.lines.specs.Input.{ended, begun, Taken, AllTaken};
ghost use Rattle.lines.specs.Held.{front_of, held};
ghost use Rattle.lines.specs.mirror.Runs.{run};

use crate::line::Line;
use std::io;
use std::io::Read;

// As many bytes as are read at once.
pub(crate) const CHUNK: usize = 65536;

// Where the first newline stands.
fn newline(bytes: &[u8]) -> Option<usize>
    ensures { MatchOption result (run bytes.now ≡ length bytes.now) (λ end. (end ≡ run bytes.now) × (end < length bytes.now)) }
{
    bytes.iter().position(|byte| *byte == b'\n')
}

// What answers the lines of an input, one behind another.
// kept: a trait beside `each`, which takes a closure: a function may call one only where it `requires` that of its caller
pub trait Answerer {
    // What it is after a line that it did not refuse.
    ghost took: { Self → List ℕ → Self → Type 0 };

    fn answer(&mut self, line: &[u8]) -> io::Result<()>
        ensures { OnOk result (took self.old line.now self.new) };
}

// Each line that ends among the bytes is answered. A line that is refused ends it.
fn take_all<const ROOM: usize, A: Answerer>(
    line: &mut Line<ROOM>,
    input: &[u8],
    answerer: &mut A,
) -> io::Result<()>
    ensures front { front_of line.new ≡ front_of line.old }
    ensures rest { OnOk result (held line.new
        ≡ begun ROOM (front_of line.old) (held line.old) input.now) }
    ensures answered { OnOk result (Taken A.took answerer.old
        (ended ROOM (front_of line.old) (held line.old) input.now) answerer.new) }
{
    let mut rest = input;
    while let Some(end) = newline(rest) {
        let (run, behind) = rest.split_at(end);
        line.extend(run);
        answerer.answer(line.as_slice())?;
        line.clear();
        rest = &behind[1..];
    }
    line.extend(rest);
    Ok(())
}

// Each line of the input is answered, the last one too where no newline ends it. A line that is refused ends it, and so does a read.
pub fn answer_all<const ROOM: usize, R: Read, A: Answerer>(
    reader: &mut R,
    line: &mut Line<ROOM>,
    answerer: &mut A,
) -> io::Result<()>
    ensures { OnOk result (AllTaken A.took ROOM (front_of line.old) (held line.old)
        answerer.old (R.remaining reader.old) answerer.new) }
{
    let mut input = [0u8; CHUNK];
    // A proved loop has to end, and nothing says that the input does: no run uses these turns up.
    for _turn in 0..u64::MAX {
        let count = reader.read(&mut input)?;
        if count == 0 {
            if !line.is_empty() {
                answerer.answer(line.as_slice())?;
                line.clear();
            }
            return Ok(());
        }
        take_all(line, &input[..count], answerer)?;
    }
    Ok(())
}
