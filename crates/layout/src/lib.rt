// The codes of a part written as rows of four words.
#![tactic(auto)]

ghost use Rattle.std.specs.Prelude.{◌≡◌, ◌+◌, ◌-◌, ◌<◌, ◌≤◌};
ghost use Rattle.layout.specs.mirror.Lay.{LIMIT, inside, InRange, loop_row, next_row, waits, resume, close_arm, run_s, rest, clear_s, lay_out};

use parts::Code;

// Codes, rows and Loops are counted up to this, so that a row's number is a word.
const LIMIT: usize = 65535;

// The kind of an arm's row.
// kept: a word of the format, which is written and not matched on
const ARM: u16 = 2;

// Where the writing of a part stands.
// kept: `loops` is lent beside it, since memory is fixed, and `depth` says how much of it is in use.
// kept: that `wait` is small stays a clause; as a ghost field it would have to be shown of each Walk that the mirrors build.
#[derive(Clone, Copy, Debug, PartialEq, Eq)]
struct Walk {
    // The next code, and the row that it gets.
    code: usize,
    row: usize,
    // How many Loops are around.
    depth: usize,
    // The row of the innermost arm whose continuation is being written.
    wait: Option<usize>,
    // How many codes may still come.
    left: usize,
}

impl Walk {
    // A code may come, and all that is counted is small.
    fn is_in_range(self, from: usize) -> bool
        ensures { result ≡ inside self.left self.code from self.row self.depth }
    {
        0 < self.left
            && self.code < LIMIT
            && from <= LIMIT
            && self.row < LIMIT
            && self.depth < LIMIT
    }

    // The arm that waits, as the row of an arm keeps it: 1 + its row, 0 for none.
    fn waits(self) -> u16
        requires { waits self.wait ≤ LIMIT }
        ensures { result ≡ waits self.wait }
    {
        match self.wait {
            Some(arm) => (arm + 1) as u16,
            None => 0,
        }
    }
}

// The row of the Loop that a Back of this depth names, of the Loops around it; none where they are too few.
fn loop_row(back: u16, loops: &[u16], depth: usize) -> Option<u16>
    ensures { result ≡ loop_row back loops.now depth }
{
    let back = usize::from(back);
    if back < depth {
        Some(words::peek(loops, depth - 1 - back))
    } else {
        None
    }
}

// The row, where an arm stands at the code.
fn next_row(src: &[u16], code: usize, row: usize) -> Option<u16>
    ensures { result ≡ next_row src.now code row }
{
    let code = Code::from(words::peek(src, code));
    if row <= LIMIT && matches!(code, Code::Arm(_)) {
        Some(row as u16)
    } else {
        None
    }
}

// The part that ends before `at` is the continuation of the arm that waits: the arm gets its links, and what its row kept comes back.
// Where none waits the whole is written, and nothing is left.
fn end_part(src: &[u16], at: Walk, out: &mut [u16], from: usize) -> Walk
    requires { (from ≤ LIMIT) × (waits at.wait ≤ LIMIT) }
    ensures { (result ≡ resume out.old from at) × (waits result.wait ≤ LIMIT)
        × (out.new ≡ close_arm src.now out.old from at.code at.row (waits at.wait)) }
{
    let Some(arm) = at.wait else {
        return Walk {
            depth: 0,
            wait: None,
            left: 0,
            ..at
        };
    };
    let [_, label, depth, outer] = words::row(out, from + arm);
    let next = next_row(src, at.code, at.row).unwrap_or(0);
    words::put_row(out, from + arm, [ARM, label, at.waits(), next]);
    Walk {
        depth: usize::from(depth),
        wait: usize::from(outer).checked_sub(1),
        ..at
    }
}

// One turn of `lay`: the code there is written. An arm's last two words keep, until its continuation is there, what has to come back then:
// the Loops around it and the arm that waits around it. The turns from the answer on leave what those from here on leave.
fn turn(src: &[u16], at: Walk, out: &mut [u16], from: usize, loops: &mut [u16]) -> Walk
    requires { InRange at.left at.code from at.row at.depth × (waits at.wait ≤ LIMIT) }
    ensures { (rest src.now from at out.old loops.old ≡ rest src.now from result out.new loops.new)
        × (result.left < at.left) × (waits result.wait ≤ LIMIT) }
{
    let code = Code::from(words::peek(src, at.code));
    let (kind, argument) = code.split();
    let row = from + at.row;
    let next = Walk {
        code: at.code + 1,
        row: at.row + 1,
        left: at.left - 1,
        ..at
    };
    match code {
        Code::End => {
            words::put_row(out, row, [kind, 0, 0, 0]);
            end_part(src, next, out, from)
        }
        Code::Mark => {
            // it has no row
            end_part(
                src,
                Walk {
                    row: at.row,
                    ..next
                },
                out,
                from,
            )
        }
        Code::Back(back) => {
            let home = loop_row(back, loops, at.depth).unwrap_or(0);
            words::put_row(out, row, [kind, home, 0, 0]);
            end_part(src, next, out, from)
        }
        Code::Arm(label) => {
            words::put_row(out, row, [kind, label, at.depth as u16, at.waits()]);
            Walk {
                wait: Some(at.row),
                ..next
            }
        }
        Code::Loop => {
            words::put_row(out, row, [kind, next.row as u16, 0, 0]);
            words::poke(loops, at.depth, at.row as u16);
            Walk {
                depth: at.depth + 1,
                ..next
            }
        }
        Code::Send(_) | Code::Receive(_) => {
            words::put_row(out, row, [kind, argument, next.row as u16, 0]);
            next
        }
        Code::Other => Walk { left: 0, ..at },
    }
}

// The codes of a part from `code` on written as the rows of the block that starts at row `from`. An arm's links are known when its
// continuation is there, so the arms whose continuation is being written are chained through their own rows: the innermost is the one
// that waits. Every turn is one code, so that `left` is never short of them.
// kept: `out` comes whole, with `from` beside it: rows are counted from its start, as the block's readers count them; in a sub-slice each
// function would count from another place than what is promised of it.
fn lay(src: &[u16], code: usize, out: &mut [u16], from: usize, loops: &mut [u16]) -> Walk
    ensures { (result.code ≡ (run_s LIMIT src.now from code out.old 0 loops.old 0 0).res.code)
        × (result.row ≡ (run_s LIMIT src.now from code out.old 0 loops.old 0 0).res.row)
        × (out.new ≡ (run_s LIMIT src.now from code out.old 0 loops.old 0 0).out)
        × (loops.new ≡ (run_s LIMIT src.now from code out.old 0 loops.old 0 0).loops) }
{
    let mut at = Walk {
        code,
        row: 0,
        depth: 0,
        wait: None,
        left: LIMIT,
    };
    // kept: no index is counted, a turn says where the next one stands
    while at.is_in_range(from) {
        at = turn(src, at, out, from, loops);
    }
    at
}

// Zeros in the rows from `first` up to `rows` of the block that starts at row `from`.
fn clear(out: &mut [u16], from: usize, first: usize, rows: usize)
    requires { (from ≤ LIMIT) × (rows ≤ LIMIT) }
    ensures { out.new ≡ clear_s out.old (from + first) (rows - first) }
{
    for row in first..rows {
        words::put_row(out, from + row, [0; 4]);
    }
}

// A block of so many rows, the first of them row `from` of the words, holds the part whose codes stand at `code`, then zeros. The answer is the
// place behind those codes. `loops` is lent to keep the rows of the Loops around. What is written of a part's codes is proved in
// proofs/Written.antt.
pub fn lay_out(
    src: &[u16],
    code: usize,
    out: &mut [u16],
    from: usize,
    rows: usize,
    loops: &mut [u16],
) -> usize
    ensures { (result ≡ (lay_out src.now code out.old from rows loops.old).res.code)
        × (out.new ≡ (lay_out src.now code out.old from rows loops.old).out)
        × (loops.new ≡ (lay_out src.now code out.old from rows loops.old).loops) }
{
    if LIMIT < from || LIMIT < rows {
        return code;
    }
    let end = lay(src, code, out, from, loops);
    clear(out, from, end.row, rows);
    end.code
}
