// The tests of the calls, from rule 12 on, over a lent state.
ghost use Rattle.std.specs.Prelude.{◌≡◌, true};
ghost use Rattle.words.specs.Below.{set_of};
ghost use Rattle.table.specs.Limits.{base};
ghost use Rattle.state.specs.State.{state_good};
ghost use Rattle.state.specs.Awaited.{is_awaited};
ghost use Rattle.state.specs.mirror.State.{seen};
ghost use Rattle.state.specs.mirror.Judged.{ground_of, paired_of, Stands, send_judged, receive_judged, waiting_of};

use crate::{Refusal, State, formed};
use blocks::tables::Blocks;

impl State<'_> {
    // Rules 12 and 13.
    fn ground<'t>(&self, tables: &'t [u16], roles: usize) -> Result<Blocks<'t>, Refusal>
        ensures { Stands tables.now roles (ground_of base tables.now roles (seen self.now)) result }
    {
        let blocks = Blocks::of(tables, roles).ok_or(Refusal::Tables)?;
        if self.is_good(&blocks) {
            Ok(blocks)
        } else {
            Err(Refusal::State)
        }
    }

    // Rules 12 to 14.
    // kept: sender and receiver are two numbers here and in the calls below, as a session's public calls take them: no fact about them holds
    // before rule 14 is tested here.
    fn paired<'t>(
        &self,
        tables: &'t [u16],
        roles: usize,
        sender: usize,
        receiver: usize,
    ) -> Result<Blocks<'t>, Refusal>
        ensures { Stands tables.now roles (paired_of base tables.now roles sender receiver (seen self.now)) result }
    {
        let blocks = self.ground(tables, roles)?;
        if formed::are_pair(roles, sender, receiver) {
            Ok(blocks)
        } else {
            Err(Refusal::Party)
        }
    }

    // Rules 12 to 17: the row that the sender moves to.
    #[tactic(auto, unfolding(crate::specs::mirror::Judged::send_judged), using(crate::proofs::Judging::judged_err, crate::proofs::Judging::judged_rest))]
    pub fn judge_send(
        &self,
        tables: &[u16],
        roles: usize,
        sender: usize,
        receiver: usize,
        label: usize,
    ) -> Result<u16, Refusal>
        ensures { result ≡ send_judged base tables.now roles sender receiver label (seen self.now) }
    {
        let blocks = self.paired(tables, roles, sender, receiver)?;
        self.send_from(&blocks.block(sender), receiver, label)
    }

    // Rules 12 to 15, 18 and 19: the row that the receiver moves to.
    #[tactic(auto, unfolding(crate::specs::mirror::Judged::receive_judged), using(crate::proofs::Judging::judged_err, crate::proofs::Judging::judged_rest))]
    pub fn judge_receive(
        &self,
        tables: &[u16],
        roles: usize,
        sender: usize,
        receiver: usize,
    ) -> Result<u16, Refusal>
        ensures { result ≡ receive_judged base tables.now roles sender receiver (seen self.now) }
    {
        let blocks = self.paired(tables, roles, sender, receiver)?;
        self.receive_from(&blocks.block(receiver), sender)
    }

    // The roles that have a call which would be accepted, over a good state.
    fn awaited_set(&self, blocks: &Blocks<'_>) -> u8
        requires { state_good base blocks.now.tables.now blocks.now.roles (seen self.now) ≡ true }
        ensures { result ≡ set_of (is_awaited base blocks.now.tables.now blocks.now.roles (seen self.now)) blocks.now.roles }
    {
        let mut set: u8 = 0;
        for role in 0..blocks.roles {
            if self.is_awaited(&blocks.block(role)) {
                set |= 1u8 << role;
            }
        }
        set
    }

    // The roles that have a call which would be accepted: refused with rules 12 and 13.
    #[tactic(auto, unfolding(crate::specs::mirror::Judged::waiting_of), using(crate::proofs::Judging::grounded_err, crate::proofs::Judging::grounded_rest))]
    pub fn awaited_roles(&self, tables: &[u16], roles: usize) -> Result<u8, Refusal>
        ensures { result ≡ waiting_of base tables.now roles (seen self.now) }
    {
        let blocks = self.ground(tables, roles)?;
        Ok(self.awaited_set(&blocks))
    }
}
