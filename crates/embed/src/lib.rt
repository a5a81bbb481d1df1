// The C boundary: numbers and slices only. A state is lent as four slices of any lengths; it is copied in, the session's call is
// made, and what the call hands back is copied out.
// kept: the parameters of the exports and the numbers that they answer are the C interface.
#![tactic(auto)]

ghost use Rattle.std.specs.Prelude.{◌≡◌};
ghost use Rattle.table.specs.Limits.{base};
ghost use Rattle.table.specs.Check.{says};
ghost use Rattle.opening.specs.Opening.{Opens};
ghost use Rattle.embed.specs.Lent.{wrong_number, fresh_lent, send_lent, receive_lent, awaited_lent, Handed, Answered, Delivered, Told};

use blocks::tables::Blocks;
use session::{Awaited, Message, Refusal, Session};

// The number for slices that are no state: 13, or 12 where the tables are not well formed either.
fn wrong_number(tables: &[u16], roles: usize) -> u8
    ensures { result ≡ wrong_number base tables.now roles }
{
    if Blocks::of(tables, roles).is_none() {
        u8::from(Refusal::Tables)
    } else {
        u8::from(Refusal::State)
    }
}

// Opens a table; the place goes to `place`.
#[unsafe(no_mangle)]
pub extern "C" fn gaugetwinkle_open(
    table: &[u16],
    roles: usize,
    room: &mut [u16],
    place: &mut usize,
) -> u8
    ensures { Opens base table.now roles room.old (says result place.new) room.new }
{
    match opening::open(table, roles, room) {
        Ok(()) => {
            *place = 0;
            0
        }
        Err(refusal) => {
            *place = refusal.place;
            u8::from(refusal.rule)
        }
    }
}

// A fresh state.
#[unsafe(no_mangle)]
pub extern "C" fn gaugetwinkle_fresh(
    tables: &[u16],
    roles: usize,
    heads: &mut [u16],
    counts: &mut [u8],
    labels: &mut [u8],
    payloads: &mut [u32],
) -> u8
    ensures { Handed (fresh_lent base tables.now roles heads.old counts.old labels.old payloads.old)
        result heads.new counts.new labels.new payloads.new }
{
    if lent::read_in(heads, counts, labels, payloads).is_err() {
        return wrong_number(tables, roles);
    }
    let answer = Session::fresh(tables, roles);
    lent::put_back(answer.state, heads, counts, labels, payloads);
    answer.number()
}

// A send; what it offers goes to `offered`.
#[unsafe(no_mangle)]
pub extern "C" fn gaugetwinkle_send(
    tables: &[u16],
    roles: usize,
    sender: usize,
    receiver: usize,
    label: usize,
    payload: u32,
    offered: &mut u16,
    heads: &mut [u16],
    counts: &mut [u8],
    labels: &mut [u8],
    payloads: &mut [u32],
) -> u8
    ensures { Answered (send_lent base tables.now roles sender receiver label payload heads.old counts.old labels.old payloads.old)
        result offered.new heads.new counts.new labels.new payloads.new }
{
    let Ok(state) = lent::read_in(heads, counts, labels, payloads) else {
        *offered = Session::NOLABEL;
        return wrong_number(tables, roles);
    };
    let answer = state.send(tables, roles, sender, receiver, label, payload);
    *offered = answer.offered();
    lent::put_back(answer.state, heads, counts, labels, payloads);
    answer.number()
}

// A receive; its label, its payload and what it offers go to `label`, `payload` and `offered`.
#[unsafe(no_mangle)]
pub extern "C" fn gaugetwinkle_receive(
    tables: &[u16],
    roles: usize,
    sender: usize,
    receiver: usize,
    label: &mut u8,
    payload: &mut u32,
    offered: &mut u16,
    heads: &mut [u16],
    counts: &mut [u8],
    labels: &mut [u8],
    payloads: &mut [u32],
) -> u8
    ensures { Delivered (receive_lent base tables.now roles sender receiver heads.old counts.old labels.old payloads.old)
        result label.new payload.new offered.new heads.new counts.new labels.new payloads.new }
{
    let Ok(state) = lent::read_in(heads, counts, labels, payloads) else {
        *label = 0;
        *payload = 0;
        *offered = Session::NOLABEL;
        return wrong_number(tables, roles);
    };
    let answer = state.receive(tables, roles, sender, receiver);
    let message = answer.result.unwrap_or(Message::NONE);
    *label = message.label;
    *payload = message.payload;
    *offered = answer.offered();
    lent::put_back(answer.state, heads, counts, labels, payloads);
    answer.number()
}

// The awaited roles, to `set`, `count` and `lowest`.
#[unsafe(no_mangle)]
pub extern "C" fn gaugetwinkle_awaited(
    tables: &[u16],
    roles: usize,
    set: &mut u8,
    count: &mut u32,
    lowest: &mut u32,
    heads: &[u16],
    counts: &[u8],
    labels: &[u8],
    payloads: &[u32],
) -> u8
    ensures { Told (awaited_lent base tables.now roles heads.now counts.now labels.now payloads.now)
        result set.new count.new lowest.new }
{
    let Ok(state) = lent::read_in(heads, counts, labels, payloads) else {
        *set = 0;
        *count = 0;
        *lowest = Awaited::NOBODY.lowest();
        return wrong_number(tables, roles);
    };
    let answer = state.awaited(tables, roles);
    let awaited = answer.result.unwrap_or(Awaited::NOBODY);
    *set = awaited.set;
    *count = awaited.count();
    *lowest = awaited.lowest();
    answer.number()
}
