// Sessions over opened tables: the state, and the answers of its calls.
#![tactic(auto)]

mod answers;
mod heads;

ghost use Rattle.std.specs.Prelude.{◌≡◌, ◌<◌};
ghost use Rattle.table.specs.Limits.{base};
ghost use Rattle.state.specs.mirror.State.{seen};
ghost use Rattle.session.specs.State.{listed, nothing, held, moved, pushed, taken};
ghost use Rattle.session.specs.Promises.{Freshens, Sends, Receives, Awaits};
ghost use Rattle.session.specs.Results.{answered, delivered, told};
ghost use Rattle.session.specs.mirror.Taken.{first_message};

pub use answers::{Answer, Awaited, Message};
use blocks::rows::Row;
use blocks::tables::Blocks;
use slots::{Counts, Heads, Labels, Payloads};
pub use state::Refusal;
use state::State;
use table::Table;

// Each role's head row, and for each ordered pair of roles (sender x ROLES + receiver) a queue of DEPTH slots, the oldest message in
// the first.
// kept: flat arrays of labels and payloads are the customer's form of a state, and the C interface lends a state as these four.
#[derive(Clone, Copy, Debug, PartialEq, Eq)]
pub struct Session {
    pub heads: Heads,
    pub counts: Counts,
    pub labels: Labels,
    pub payloads: Payloads,
}

// kept: the tables, their roles, sender, receiver and label are plain parameters, since a session's public functions take them so and may
// ask no more of callers than they did; `put` and `get` hand them on to the tests, and no fact about them holds before rule 14.
impl Session {
    pub const ROLES: usize = Table::ROLES;

    pub const PAIRS: usize = slots::PAIRS;

    pub const DEPTH: usize = slots::DEPTH;

    pub const SLOTS: usize = slots::SLOTS;

    // Nothing is offered: no label is so high.
    // kept: a number, since the C interface hands out this one for no label.
    pub const NOLABEL: u16 = Row::NOLABEL;

    // Every role at the head of row 0, the queues empty.
    pub fn fresh(tables: &[u16], roles: usize) -> Answer<()>
        ensures { Freshens base tables.now roles (answered base result) }
    {
        let Some(blocks) = Blocks::of(tables, roles) else {
            return Answer {
                result: Err(Refusal::Tables),
                state: Session::empty(),
            };
        };
        let mut state = Session::empty();
        state.heads = heads::first_heads(&blocks);
        Answer {
            result: Ok(()),
            state,
        }
    }

    // The state with nothing in it.
    fn empty() -> Session
        ensures { result ≡ nothing base }
    {
        Session {
            heads: [0; Session::ROLES],
            counts: [0; Session::PAIRS],
            labels: [0; Session::SLOTS],
            payloads: [0; Session::SLOTS],
        }
    }

    // What the tests of a call look at.
    fn view(&self) -> State<'_>
        ensures { seen result ≡ listed self.now }
    {
        State {
            heads: &self.heads,
            counts: &self.counts,
            labels: &self.labels,
            payloads: &self.payloads,
        }
    }

    // The sender sends the label with the payload to the receiver, and moves to the head of that arm's continuation.
    pub fn send(
        mut self,
        tables: &[u16],
        roles: usize,
        sender: usize,
        receiver: usize,
        label: usize,
        payload: u32,
    ) -> Answer<()>
        ensures { Sends base tables.now roles sender receiver label payload self (answered base result) }
    {
        let result = self.put(tables, roles, sender, receiver, label, payload);
        Answer {
            result,
            state: self,
        }
    }

    // Refused, the state is as it was.
    fn put(
        &mut self,
        tables: &[u16],
        roles: usize,
        sender: usize,
        receiver: usize,
        label: usize,
        payload: u32,
    ) -> Result<(), Refusal>
        ensures { Sends base tables.now roles sender receiver label payload self.old (answered base (record { result = result; state = self.new })) }
    {
        let head = self
            .view()
            .judge_send(tables, roles, sender, receiver, label)?;
        self.push(sender, receiver, label, payload, head);
        Ok(())
    }

    // The message behind those that the queue holds, and its sender on that row.
    // kept: the pair as two numbers, as `send` got them; what is asked of them here the tests of the call have proved.
    fn push(&mut self, sender: usize, receiver: usize, label: usize, payload: u32, head: u16)
        requires { (sender < base.roles) × (receiver < base.roles) × (label < base.labels) × (held base self.old sender receiver < base.depth) }
        ensures { self.new ≡ moved (pushed base self.old sender receiver label payload) sender head }
    {
        let pair = sender * Session::ROLES + receiver;
        let count = self.counts[pair];
        let free = usize::from(count);
        slots::push(&mut self.labels, pair, free, label as u8);
        slots::push(&mut self.payloads, pair, free, payload);
        self.counts[pair] = count + 1;
        self.heads[sender] = head;
    }

    // The receiver takes the oldest message from the sender, and moves to the head of that arm's continuation.
    pub fn receive(
        mut self,
        tables: &[u16],
        roles: usize,
        sender: usize,
        receiver: usize,
    ) -> Answer<Message>
        ensures { Receives base tables.now roles sender receiver self (delivered base result) }
    {
        let result = self.get(tables, roles, sender, receiver);
        Answer {
            result,
            state: self,
        }
    }

    // Refused, the state is as it was.
    fn get(
        &mut self,
        tables: &[u16],
        roles: usize,
        sender: usize,
        receiver: usize,
    ) -> Result<Message, Refusal>
        ensures { Receives base tables.now roles sender receiver self.old (delivered base (record { result = result; state = self.new })) }
    {
        let head = self.view().judge_receive(tables, roles, sender, receiver)?;
        Ok(self.take(sender, receiver, head))
    }

    // The oldest message out of the queue, and its receiver on that row.
    fn take(&mut self, sender: usize, receiver: usize, head: u16) -> Message
        requires { (sender < base.roles) × (receiver < base.roles) × (0 < held base self.old sender receiver) }
        ensures { (result ≡ first_message base self.old sender receiver) × (self.new ≡ moved (taken base self.old sender receiver) receiver head) }
    {
        let pair = sender * Session::ROLES + receiver;
        let label = slots::take(&mut self.labels, pair, 0);
        let payload = slots::take(&mut self.payloads, pair, 0);
        self.counts[pair] -= 1;
        self.heads[receiver] = head;
        Message { label, payload }
    }

    // The roles that have a call which would be accepted.
    pub fn awaited(self, tables: &[u16], roles: usize) -> Answer<Awaited>
        ensures { Awaits base tables.now roles self (told base result) }
    {
        Answer {
            result: self.acting(tables, roles),
            state: self,
        }
    }

    fn acting(&self, tables: &[u16], roles: usize) -> Result<Awaited, Refusal>
        ensures { Awaits base tables.now roles self.now (told base (record { result = result; state = self.now })) }
    {
        let set = self.view().awaited_roles(tables, roles)?;
        Ok(Awaited { set })
    }
}
