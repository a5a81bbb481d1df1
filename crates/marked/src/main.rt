// One line for each marked table: its name, the number of the rule that refuses it, and the place.
#![tactic(auto)]

use opening::marked;
use opening::marked::Marked;
use std::io;
use table::Table;

// Any table with any number of roles has room enough here.
const ROOM: usize = Table::ROLES * Table::ROWS * 4;

fn show(rt: &impl Print, number: usize, marked: &Marked<'_>) -> io::Result<()> {
    let mut room = [0u16; ROOM];
    match opening::open(marked.words, marked.roles, &mut room) {
        Ok(()) => println!(rt; "T{number} 0 0"),
        Err(refusal) => println!(rt; "T{number} {} {}", u8::from(refusal.rule), refusal.place),
    }
}

fn main(rt: HostRuntime) -> io::Result<()> {
    for (place, marked) in marked::all().iter().enumerate() {
        show(&rt, place + 1, marked)?;
    }
    Ok(())
}
