// Functions below the C boundary that other crates may call, put at it for the tests of boundary/ alone: that each ends soon and goes no deeper
// than its table, whatever the words.
#![tactic(auto)]

use projection::PARTS;

#[unsafe(no_mangle)]
pub extern "C" fn probe_parts(table: &[u16], roles: usize) -> u8 {
    let mut work = [0u16; PARTS];
    match projection::parts(table, roles, &mut work) {
        Ok(()) => 0,
        Err(refusal) => u8::from(refusal.rule),
    }
}

#[unsafe(no_mangle)]
pub extern "C" fn probe_join(work: &mut [u16], spare: &mut [u16], a: usize, b: usize) -> bool {
    merge::join(work, spare, a, b).is_ok()
}
