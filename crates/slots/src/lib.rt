// One pair's four slots in a column of the state, taken and returned by value: a message put behind the others, the oldest taken out.
#![tactic(auto)]

ghost use Rattle.std.specs.Prelude.{◌≡◌, ◌*◌, ◌<◌};
ghost use Rattle.table.specs.Limits.{base};
ghost use Rattle.slots.specs.mirror.Slots.{pairs, slots, written, pushed_at, oldest, came_forward};

use table::Table;

// The slots of a queue.
pub const DEPTH: usize = 4;

// The ordered pairs of roles, and the slots of all their queues.
pub const PAIRS: usize = Table::ROLES * Table::ROLES;

pub const SLOTS: usize = PAIRS * DEPTH;

// The columns of a state.
pub type Heads = [u16; Table::ROLES];

pub type Counts = [u8; PAIRS];

pub type Column<T> = [T; SLOTS];

pub type Labels = Column<u8>;

pub type Payloads = Column<u32>;

// The slots of one pair, the oldest first.
// kept: four reads; `try_into` is no plainer, since it leaves a Result whose Err cannot be.
fn slots_of<T: Copy>(column: &Column<T>, pair: usize) -> [T; DEPTH]
    requires { pair < pairs base }
    ensures { result ≡ slots base column.now pair }
{
    let at = pair * DEPTH;
    [column[at], column[at + 1], column[at + 2], column[at + 3]]
}

// The pair's slots hold these.
fn put<T: Copy>(column: &mut Column<T>, pair: usize, held: [T; DEPTH])
    requires { pair < pairs base }
    ensures { column.new ≡ written base column.old pair held }
{
    let at = pair * DEPTH;
    // kept: a part of an array is not made a slice in one step: the borrow checker asks for the whole of it first.
    let words = &mut column[..];
    words[at..at + DEPTH].copy_from_slice(&held);
}

// The word into that slot of one pair. Nothing changes where there is no such slot.
pub fn push<T: Copy>(column: &mut Column<T>, pair: usize, slot: usize, word: T)
    ensures { column.new ≡ pushed_at base column.old pair slot word }
{
    if PAIRS <= pair || DEPTH <= slot {
        return;
    }
    let mut held = slots_of(column, pair);
    held[slot] = word;
    put(column, pair, held);
}

// The oldest word out of one pair's slots: the rest come forward, and `free` fills the last. It is `free`, and nothing changes, where there is
// no such pair.
pub fn take<T: Copy>(column: &mut Column<T>, pair: usize, free: T) -> T
    ensures { (result ≡ oldest base free column.old pair) × (column.new ≡ came_forward base free column.old pair) }
{
    if PAIRS <= pair {
        return free;
    }
    let [first, second, third, fourth] = slots_of(column, pair);
    put(column, pair, [second, third, fourth, free]);
    first
}
