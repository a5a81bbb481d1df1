// The tests of a call past rules 12 to 14: the kind of the role's head decides.
ghost use Rattle.std.specs.Prelude.{◌≡◌, ◌<◌, ◌≤◌, Err, true, false};
ghost use Rattle.table.specs.Limits.{base};
ghost use Rattle.blocks.specs.Block.{part_row};
ghost use Rattle.blocks.specs.Head.{find, arms_of};
ghost use Rattle.blocks.specs.mirror.Rows.{said};
ghost use Rattle.state.specs.State.{head_of, held, label_at};
ghost use Rattle.state.specs.Awaited.{is_found, is_awaited};
ghost use Rattle.state.specs.mirror.State.{seen};
ghost use Rattle.state.specs.declared.Refusal.TheVariants.{Party};
ghost use Rattle.state.specs.mirror.Turns.{send_from, receive_from, send_arm, receive_arm, LowPeer};

use crate::{Refusal, State};
use blocks::rows::{Block, Row};
use slots::DEPTH;
use table::Table;

impl State<'_> {
    // How many messages the queue of two roles holds.
    // kept: sender and receiver are two numbers here and below: one is a block's role, the other a call's or a row's peer, and rule 13 asks of
    // each two roles, also where they are no pair. A struct of a tested pair would be none where that cannot be.
    pub(crate) fn held(&self, sender: usize, receiver: usize) -> u8
        requires { (sender < base.roles) × (receiver < base.roles) }
        ensures { result ≡ held base (seen self.now) sender receiver }
    {
        self.counts[sender * Table::ROLES + receiver]
    }

    // The same of any two numbers: no message where one of them is above any role's.
    pub fn count(&self, sender: usize, receiver: usize) -> u8
        ensures { ((sender < base.roles) × (receiver < base.roles) → result ≡ held base (seen self.now) sender receiver)
            × (base.roles ≤ sender → result ≡ 0) × (base.roles ≤ receiver → result ≡ 0) }
    {
        if sender < Table::ROLES && receiver < Table::ROLES {
            self.held(sender, receiver)
        } else {
            0
        }
    }

    // The label of a queue's oldest message.
    fn oldest(&self, sender: usize, receiver: usize) -> u8
        requires { (sender < base.roles) × (receiver < base.roles) }
        ensures { result ≡ label_at base (seen self.now) sender receiver 0 }
    {
        self.labels[(sender * Table::ROLES + receiver) * DEPTH]
    }

    // Rules 16 and 17, for a Send of that first arm.
    #[tactic(auto, unfolding(crate::specs::mirror::Turns::send_found), using(crate::proofs::Turning::found_nothing, crate::proofs::Turning::found_at))]
    fn send_arm(
        &self,
        block: &Block<'_>,
        first: u16,
        receiver: usize,
        label: usize,
    ) -> Result<u16, Refusal>
        requires { receiver < base.roles }
        ensures { result ≡ send_arm base block.now.tables.now block.now.roles block.now.role first label (held base (seen self.now) block.now.role receiver) }
    {
        let then = block.find_arm(first, label).map_err(Refusal::Label)?;
        if DEPTH <= usize::from(self.held(block.role, receiver)) {
            return Err(Refusal::Full);
        }
        Ok(block.head(then))
    }

    // Rules 15 to 17 for a send of that label, by the role of that block: the kind of its head decides.
    #[tactic(auto, using(crate::proofs::Turning::no_send, crate::proofs::Turning::send_else, crate::proofs::Turning::send_there))]
    pub(crate) fn send_from(
        &self,
        block: &Block<'_>,
        receiver: usize,
        label: usize,
    ) -> Result<u16, Refusal>
        requires { receiver < base.roles }
        ensures { result ≡ send_from base block.now.tables.now block.now.roles block.now.role receiver label (seen self.now) }
    {
        match block.row(self.heads[block.role]) {
            Row::Send(peer, first, _) => {
                if usize::from(peer) != receiver {
                    return Err(Refusal::Turn);
                }
                self.send_arm(block, first, receiver, label)
            }
            _ => Err(Refusal::Turn),
        }
    }

    // The same for a receiver of any number: refused with rule 14 where that is above any role's.
    pub fn send_turn(
        &self,
        block: &Block<'_>,
        receiver: usize,
        label: usize,
    ) -> Result<u16, Refusal>
        ensures { (receiver < base.roles → result ≡ send_from base block.now.tables.now block.now.roles block.now.role receiver label (seen self.now))
            × (base.roles ≤ receiver → result ≡ Err Party) }
    {
        if receiver < Table::ROLES {
            self.send_from(block, receiver, label)
        } else {
            Err(Refusal::Party)
        }
    }

    // Rules 18 and 19, for a Receive of that first arm.
    #[tactic(auto, unfolding(crate::specs::mirror::Turns::receive_found), using(crate::proofs::Turning::found_nothing, crate::proofs::Turning::found_at))]
    fn receive_arm(&self, block: &Block<'_>, first: u16, sender: usize) -> Result<u16, Refusal>
        requires { sender < base.roles }
        ensures { result ≡ receive_arm base block.now.tables.now block.now.roles block.now.role first (held base (seen self.now) sender block.now.role) (label_at base (seen self.now) sender block.now.role 0) }
    {
        if self.held(sender, block.role) == 0 {
            return Err(Refusal::Empty);
        }
        let label = self.oldest(sender, block.role);
        let then = block
            .find_arm(first, usize::from(label))
            .map_err(Refusal::Stray)?;
        Ok(block.head(then))
    }

    // Rules 15, 18 and 19 for a receive by the role of that block.
    #[tactic(auto, using(crate::proofs::Turning::no_receive, crate::proofs::Turning::receive_else, crate::proofs::Turning::receive_there))]
    pub(crate) fn receive_from(&self, block: &Block<'_>, sender: usize) -> Result<u16, Refusal>
        requires { sender < base.roles }
        ensures { result ≡ receive_from base block.now.tables.now block.now.roles block.now.role sender (seen self.now) }
    {
        match block.row(self.heads[block.role]) {
            Row::Receive(peer, first, _) => {
                if usize::from(peer) != sender {
                    return Err(Refusal::Turn);
                }
                self.receive_arm(block, first, sender)
            }
            _ => Err(Refusal::Turn),
        }
    }

    // The same for a sender of any number: refused with rule 14 where that is above any role's.
    pub fn receive_turn(&self, block: &Block<'_>, sender: usize) -> Result<u16, Refusal>
        ensures { (sender < base.roles → result ≡ receive_from base block.now.tables.now block.now.roles block.now.role sender (seen self.now))
            × (base.roles ≤ sender → result ≡ Err Party) }
    {
        if sender < Table::ROLES {
            self.receive_from(block, sender)
        } else {
            Err(Refusal::Party)
        }
    }

    // The role of that block has a call that would be accepted.
    #[tactic(auto, unfolding(crate::specs::Awaited::can_act), using(crate::proofs::Turning::no_action, crate::proofs::Turning::found_nothing, crate::proofs::Turning::found_at))]
    pub(crate) fn is_awaited(&self, block: &Block<'_>) -> bool
        requires { LowPeer base (part_row block.now.tables.now block.now.roles block.now.role (head_of (seen self.now) block.now.role)) }
        ensures { result ≡ is_awaited base block.now.tables.now block.now.roles (seen self.now) block.now.role }
    {
        match block.row(self.heads[block.role]) {
            Row::Send(peer, ..) => usize::from(self.held(block.role, usize::from(peer))) < DEPTH,
            Row::Receive(peer, first, _) => {
                let sender = usize::from(peer);
                if self.held(sender, block.role) == 0 {
                    return false;
                }
                let label = self.oldest(sender, block.role);
                block.find_arm(first, usize::from(label)).is_ok()
            }
            _ => false,
        }
    }

    // The same where the peer of its head may be a number above any role's: then no call would be accepted.
    pub fn can_act(&self, block: &Block<'_>) -> bool
        ensures { (LowPeer base (part_row block.now.tables.now block.now.roles block.now.role (head_of (seen self.now) block.now.role))
            → result ≡ is_awaited base block.now.tables.now block.now.roles (seen self.now) block.now.role)
            × ((LowPeer base (part_row block.now.tables.now block.now.roles block.now.role (head_of (seen self.now) block.now.role)) → ⊥) → result ≡ false) }
    {
        has_peer(block.row(self.heads[block.role])) && self.is_awaited(block)
    }
}

// The peer of an action is a role.
fn has_peer(part: Row) -> bool
    ensures { (result ≡ true → LowPeer base (said part)) × (result ≡ false → LowPeer base (said part) → ⊥) }
{
    match part {
        Row::Send(peer, ..) | Row::Receive(peer, ..) => usize::from(peer) < Table::ROLES,
        _ => true,
    }
}

#[cfg(test)]
mod tests {
    use super::*;
    use blocks::tables::Blocks;
    use slots::{Counts, PAIRS, SLOTS};

    // Role 0 sends label 0 to role 1, and both end.
    const TABLES: [u16; 24] = [
        5, 1, 1, 0, 2, 0, 2, 0, 0, 0, 0, 0, 6, 0, 1, 0, 2, 0, 2, 0, 0, 0, 0, 0,
    ];

    // Both stand at their first row, and no queue but these holds a message.
    fn state_of<'a>(counts: &'a Counts) -> State<'a> {
        State {
            heads: &[0; Table::ROLES],
            counts,
            labels: &[0; SLOTS],
            payloads: &[0; SLOTS],
        }
    }

    #[test]
    fn turns_of_any_numbers(rt: HostRuntime) {
        let blocks = Blocks::of(&TABLES, 2).expect(&rt, "the tables are well formed");
        let (first, second) = (blocks.block(0), blocks.block(1));
        let none = [0; PAIRS];
        let state = state_of(&none);
        assert_eq!(rt; state.count(0, 1), 0);
        assert_eq!(rt; state.send_turn(&first, 1, 0), Ok(2));
        assert_eq!(rt; state.send_turn(&first, 1, 7), Err(Refusal::Label(0)));
        assert_eq!(rt; state.send_turn(&first, 8, 0), Err(Refusal::Party));
        assert_eq!(rt; state.receive_turn(&second, 0), Err(Refusal::Empty));
        assert!(rt; state.can_act(&first));
        assert!(rt; !state.can_act(&second));
        let mut sent = [0; PAIRS];
        sent[1] = 4;
        let state = state_of(&sent);
        assert_eq!(rt; state.count(0, 1), 4);
        assert_eq!(rt; state.count(0, 9), 0, "9 is no role");
        assert_eq!(rt; state.count(8, 1), 0, "8 is none either");
        assert_eq!(rt; state.send_turn(&first, 1, 0), Err(Refusal::Full));
        assert_eq!(rt; state.receive_turn(&second, 0), Ok(2));
        assert_eq!(rt;
            state.receive_turn(&second, usize::MAX),
            Err(Refusal::Party)
        );
        assert!(rt; !state.can_act(&first));
        assert!(rt; state.can_act(&second));
        let lonely = Block {
            tables: &[5, 8, 0, 0],
            roles: 1,
            role: 0,
            rows: 1,
            start: 0,
        };
        assert!(rt; !state.can_act(&lonely), "its peer is no role");
    }
}
