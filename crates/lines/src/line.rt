// A line that comes in piece by piece.
ghost use Rattle.std.specs.Prelude.{◌≡◌, ◌≤◌, ◌==◌, take, length};
ghost use Rattle.lines.specs.Input.{longer};
ghost use Rattle.lines.specs.mirror.Runs.{lengthened};

use crate::fit;

// A line that comes in piece by piece behind a front that each line has. What its room does not hold is not kept.
// kept: no plainer as `ArrayVec<u8, ROOM>`: the front's length and `within` stay beside it, and its `truncate` blanks each byte given up
#[derive(Drop)]
pub struct Line<const ROOM: usize> {
    bytes: [u8; ROOM],
    front: usize,
    length: usize,
    ghost within: { (front ≤ length) × (length ≤ ROOM) },
}

impl<const ROOM: usize> Line<ROOM> {
    ghost use Rattle.lines.specs.Held.{front_of, held};

    // An empty line behind the front, as far as there is room for that.
    pub fn behind(front: &[u8]) -> Line<ROOM>
        ensures front { front_of result ≡ take ROOM front.now }
        ensures line { held result ≡ take ROOM front.now }
    {
        let length = front.len().min(ROOM);
        let mut bytes = [0u8; ROOM];
        bytes[..length].copy_from_slice(&front[..length]);
        Line {
            bytes,
            front: length,
            length,
        }
    }

    // One byte more.
    pub fn push(&mut self, byte: u8)
        ensures front { front_of self.new ≡ front_of self.old }
        ensures line { held self.new ≡ longer ROOM (held self.old) byte }
    {
        if self.length < ROOM {
            self.bytes[self.length] = byte;
            self.length += 1;
        }
    }

    // More bytes.
    pub(crate) fn extend(&mut self, bytes: &[u8])
        ensures front { front_of self.new ≡ front_of self.old }
        ensures line { held self.new ≡ lengthened ROOM (held self.old) bytes.now }
    {
        self.length = fit::put(bytes, &mut self.bytes, self.length);
    }

    pub fn as_slice(&self) -> &[u8]
        ensures { result.now ≡ held self.now }
    {
        &self.bytes[..self.length]
    }

    pub fn clear(&mut self)
        ensures front { front_of self.new ≡ front_of self.old }
        ensures line { held self.new ≡ front_of self.old }
    {
        self.length = self.front;
    }

    pub fn is_empty(&self) -> bool
        ensures { result ≡ (length (held self.now) == length (front_of self.now)) }
    {
        self.length == self.front
    }
}
