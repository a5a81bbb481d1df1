// The lines of an input, answered by a closure.
ghost use Rattle.std.specs.Prelude.{◌≡◌, OnOk};
ghost use Rattle.lines.specs.Input.{ended, begun, Answered, AllAnswered};
ghost use Rattle.lines.specs.Held.{front_of, held};

use crate::input::CHUNK;
use crate::line::Line;
use std::io;
use std::io::Read;

// Each line that ends among the bytes is answered. A line that is refused ends it.
fn take_in<const ROOM: usize, F: FnMut(&[u8]) -> io::Result<()>>(
    line: &mut Line<ROOM>,
    input: &[u8],
    answer: &mut F,
) -> io::Result<()>
    requires { F.IsAlwaysCallable answer.old }
    ensures callable { F.IsAlwaysCallable answer.new }
    ensures front { front_of line.new ≡ front_of line.old }
    ensures rest { OnOk result (held line.new
        ≡ begun ROOM (front_of line.old) (held line.old) input.now) }
    ensures answered { OnOk result (Answered F.FnMut answer.old
        (ended ROOM (front_of line.old) (held line.old) input.now) answer.new) }
{
    for byte in input {
        if *byte == b'\n' {
            answer(line.as_slice())?;
            line.clear();
        } else {
            line.push(*byte);
        }
    }
    Ok(())
}

// Each line of the input is answered, the last one too where no newline ends it. A line that is refused ends it, and so does a read.
// kept: loops of its own and no call of `answer_all`: an Answerer is asked with no `requires`, and a closure may be called only under one
pub fn each<const ROOM: usize, R: Read, F: FnMut(&[u8]) -> io::Result<()> + Drop>(
    reader: &mut R,
    line: &mut Line<ROOM>,
    mut answer: F,
) -> io::Result<()>
    requires { F.IsAlwaysCallable answer }
    ensures { OnOk result (AllAnswered F.FnMut ROOM (front_of line.old) (held line.old)
        answer (R.remaining reader.old)) }
{
    let mut input = [0u8; CHUNK];
    // A proved loop has to end, and nothing says that the input does: no run uses these turns up.
    for _turn in 0..u64::MAX {
        let count = reader.read(&mut input)?;
        if count == 0 {
            if !line.is_empty() {
                answer(line.as_slice())?;
                line.clear();
            }
            return Ok(());
        }
        take_in(line, &input[..count], &mut answer)?;
    }
    Ok(())
}

#[cfg(test)]
mod tests {
    use super::each;
    use crate::fit::put;
    use crate::line::Line;
    use std::io;

    #[test]
    fn each_line_comes_in_order(rt: HostRuntime) -> io::Result<()> {
        let mut input = b"one\ntwo\nthree".as_slice();
        let mut line = Line::<16>::behind(b"> ");
        let mut seen = [b'.'; 24];
        let mut at = 0;
        each(&mut input, &mut line, |line| {
            at = put(line, &mut seen, at);
            at = put(b"|", &mut seen, at);
            Ok(())
        })?;
        assert_eq!(rt; seen.as_slice(), b"> one|> two|> three|....".as_slice());
        Ok(())
    }

    #[test]
    fn no_bytes_call_nothing(rt: HostRuntime) -> io::Result<()> {
        let mut input = b"".as_slice();
        let mut line = Line::<16>::behind(b"> ");
        let mut called = false;
        each(&mut input, &mut line, |_line| {
            called = true;
            Ok(())
        })?;
        assert!(rt; !called);
        Ok(())
    }
}
