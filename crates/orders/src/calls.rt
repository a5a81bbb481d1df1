// The calls of a session.
ghost use Rattle.std.specs.Prelude.{◌≡◌, ◌∷◌};
ghost use Rattle.table.specs.Limits.{base};
ghost use Rattle.session.specs.Results.{answered, delivered, told};
ghost use Rattle.orders.specs.Orders.{awaited, awaited_in, sent, received, call_order};
ghost use Rattle.orders.specs.Lines.{keeps};
ghost use Rattle.orders.specs.mirror.Said.{Says, Replies};

use crate::read;
use crate::run::{Run, Said, TOLD, Told, tell};
use session::{Answer, Awaited, Message, Session};

// A number, and every role's head.
fn heads_told(number: u8, heads: [u16; Session::ROLES]) -> Told
    ensures { result.items ≡ number ∷ heads }
{
    let mut numbers = [0; TOLD];
    numbers[0] = u32::from(number);
    lines::wide(&heads, &mut numbers, 1);
    Told::from(numbers)
}

// The awaited roles: the set, how many they are, and the lowest.
fn roles_told(answer: Answer<Awaited>) -> [u32; 3]
    ensures { result ≡ awaited (told base answer) }
{
    let roles = answer.result.unwrap_or(Awaited::NOBODY);
    [u32::from(roles.set), roles.count(), roles.lowest()]
}

// Who is awaited in that state.
fn waiting(run: Run, state: Session, words: &[u16]) -> [u32; 3]
    ensures { result ≡ awaited (awaited_in base (keeps run words.now) state) }
{
    roles_told(state.awaited(run.tables(words), run.roles))
}

// `f`
// kept: run, numbers and words side by side, in the tables too: a struct of the three would be made for each line and taken apart in each order
pub(crate) fn fresh(run: Run, numbers: &[u32], words: &[u16]) -> Option<Said>
    ensures { Replies result run words.now words.now (call_order base (keeps run words.now) 102 numbers.now) }
{
    if !numbers.is_empty() {
        return None;
    }
    let answer = Session::fresh(run.tables(words), run.roles);
    let state = answer.state;
    Some(run.called(heads_told(answer.number(), state.heads), state))
}

// `h` and the numbers of a state
pub(crate) fn hand(run: Run, numbers: &[u32], words: &[u16]) -> Option<Said>
    ensures { Replies result run words.now words.now (call_order base (keeps run words.now) 104 numbers.now) }
{
    let state = read::state_of(numbers)?;
    let answer = state.awaited(run.tables(words), run.roles);
    let number = u32::from(answer.number());
    let [set, count, lowest] = roles_told(answer);
    Some(run.called(tell(&[number, set, count, lowest]), state))
}

// A send's number, what it offers, and the awaited roles after it.
fn sent(run: Run, answer: Answer<()>, words: &[u16]) -> Said
    ensures { Says result words.now (sent base (keeps run words.now) (answered base answer)) }
{
    let number = u32::from(answer.number());
    let offered = u32::from(answer.offered());
    let after = answer.state;
    let [set, count, lowest] = waiting(run, after, words);
    run.called(tell(&[number, offered, set, count, lowest]), after)
}

// `s SENDER RECEIVER LABEL PAYLOAD`
// kept: `as usize`, here and below, since Rust has no `From<u32>` for it
#[tactic(auto, using(crate::proofs::Replies::no_send))]
pub(crate) fn send(run: Run, numbers: &[u32], words: &[u16]) -> Option<Said>
    ensures { Replies result run words.now words.now (call_order base (keeps run words.now) 115 numbers.now) }
{
    let &[sender, receiver, label, payload] = numbers else {
        return None;
    };
    let state = run.state;
    let answer = state.send(
        run.tables(words),
        run.roles,
        sender as usize,
        receiver as usize,
        label as usize,
        payload,
    );
    Some(sent(run, answer, words))
}

// A receive's number and message, what it offers, and the awaited roles after it. A refused one has the message 0 0.
fn received(run: Run, answer: Answer<Message>, words: &[u16]) -> Said
    ensures { Says result words.now (received base (keeps run words.now) (delivered base answer)) }
{
    let number = u32::from(answer.number());
    let offered = u32::from(answer.offered());
    let message = answer.result.unwrap_or(Message::NONE);
    let state = answer.state;
    let [set, count, lowest] = waiting(run, state, words);
    let label = u32::from(message.label);
    run.called(
        tell(&[number, label, message.payload, offered, set, count, lowest]),
        state,
    )
}

// `r SENDER RECEIVER`
#[tactic(auto, using(crate::proofs::Replies::no_receive))]
pub(crate) fn receive(run: Run, numbers: &[u32], words: &[u16]) -> Option<Said>
    ensures { Replies result run words.now words.now (call_order base (keeps run words.now) 114 numbers.now) }
{
    let &[sender, receiver] = numbers else {
        return None;
    };
    let state = run.state;
    let answer = state.receive(
        run.tables(words),
        run.roles,
        sender as usize,
        receiver as usize,
    );
    Some(received(run, answer, words))
}
