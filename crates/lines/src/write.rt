// Numbers in decimal, a blank after each but the last, a newline after that. What `out` has no room for is not written.
ghost use Rattle.std.specs.Prelude.{◌≡◌, [], ◌∷◌};
ghost use Rattle.lines.specs.Text.{decimal};
ghost use Rattle.lines.specs.Promises.{Puts, Writes};

// One byte at place `at`, if there is room. Answers the place after it.
fn put_byte(byte: u8, out: &mut [u8], at: usize) -> usize
    ensures { Puts at (byte ∷ []) out.old result out.new }
{
    if out.len() <= at {
        return at;
    }
    out[at] = byte;
    at + 1
}

// The bytes from place `at` on, as many as there is room for. Answers the place after the last.
// kept: byte by byte and no `put` of fit, whose copy of a block is a call that costs more than the few digits of a number
fn put_few(bytes: &[u8], out: &mut [u8], at: usize) -> usize
    ensures { Puts at bytes.now out.old result out.new }
{
    let mut end = at;
    for byte in bytes {
        end = put_byte(*byte, out, end);
    }
    end
}

// The bytes that are lent for a text, and how many of them are written.
// kept: no `ArrayVec`, which owns its items: these bytes are lent, and `text` promises those that it leaves as they were
#[derive(Drop)]
struct Written<'a> {
    out: &'a mut [u8],
    length: usize,
}

impl Written<'_> {
    fn put(&mut self, bytes: &[u8])
        ensures same_reference { self.new.out.ghost_name ≡ self.old.out.ghost_name }
        ensures written { Puts self.old.length bytes.now self.old.out.now self.new.length self.new.out.now }
    {
        self.length = put_few(bytes, self.out, self.length);
    }

    fn put_number(&mut self, n: u32)
        ensures same_reference { self.new.out.ghost_name ≡ self.old.out.ghost_name }
        ensures written { Puts self.old.length (decimal n) self.old.out.now self.new.length self.new.out.now }
    {
        let mut digits = [0u8; 20];
        // kept: the digits by `io`, since no clause of `fmt::Formatter` says how much `write!` leaves in a buffer that is too short
        let count = io::decimal(u64::from(n), &mut digits);
        self.put(&digits[..count]);
    }
}

// Writes the numbers to the start of `out`, and answers how many bytes that took.
pub fn text(numbers: &[u32], out: &mut [u8]) -> usize
    ensures { Writes numbers.now out.old result out.new }
{
    let Some((last, front)) = numbers.split_last() else {
        return 0;
    };
    let mut text = Written { out, length: 0 };
    for n in front {
        text.put_number(*n);
        text.put(b" ");
    }
    text.put_number(*last);
    text.put(b"\n");
    text.length
}
