// The records of a log, as far as there is room for them.
ghost use Rattle.std.specs.Prelude.{◌≡◌, ◌≤◌, []};
ghost use Rattle.logs.specs.declared.records.TheConstants.{ROOM};

use hours::{Figures, Record};

// One record more than a log may have: a log that is too long is kept so far.
pub const ROOM: usize = Figures::MOST + 1;

const BLANK: Record = Record {
    minute: 0,
    awake: false,
    set: 0,
};

// The first `count` items are the records.
// kept: a buffer with its length, and no `ArrayVec`, which is not `Copy`; nor a `Model`, which would bar `Copy` too
#[derive(Clone, Copy)]
pub struct Records {
    items: [Record; ROOM],
    count: usize,
    ghost within: { count ≤ ROOM },
}

impl Records {
    ghost use Rattle.logs.specs.Lines.{record_more};
    ghost use Rattle.logs.specs.Logs.{kept};

    pub fn new() -> Records
        ensures { kept result ≡ [] }
    {
        Records {
            items: [BLANK; ROOM],
            count: 0,
        }
    }

    pub fn clear(&mut self)
        ensures { kept self.new ≡ [] }
    {
        self.count = 0;
    }

    // One record more, where there is room for it.
    pub fn push(&mut self, record: Record)
        ensures { kept self.new ≡ record_more (kept self.old) «record» }
    {
        if self.count < ROOM {
            self.items[self.count] = record;
            self.count += 1;
        }
    }

    pub fn as_slice(&self) -> &[Record]
        ensures { result.now ≡ kept self.now }
    {
        &self.items[..self.count]
    }
}
