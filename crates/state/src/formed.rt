// Rule 13: a state that is well formed.
ghost use Rattle.std.specs.Prelude.{◌≡◌, ◌+◌, ◌*◌, ◌<◌, get_or};
ghost use Rattle.words.specs.Below.{every};
ghost use Rattle.table.specs.Limits.{base};
ghost use Rattle.slots.specs.mirror.Slots.{pairs};
ghost use Rattle.state.specs.State.{are_pair, held, head_good, queue_good, state_good};
ghost use Rattle.state.specs.mirror.State.{slot_holds, seen};

use crate::State;
use blocks::tables::Blocks;
use slots::DEPTH;
use table::Table;

// Two roles that have a queue: both present, and not the same.
pub fn are_pair(roles: usize, sender: usize, receiver: usize) -> bool
    ensures { result ≡ are_pair roles sender receiver }
{
    sender < roles && receiver < roles && sender != receiver
}

impl State<'_> {
    // A present role stands on a Send, Receive or End of its block; the place of an absent one is 0.
    fn head_good(&self, blocks: &Blocks<'_>, role: usize) -> bool
        requires { role < base.roles }
        ensures { result ≡ head_good blocks.now.tables.now blocks.now.roles (seen self.now) role }
    {
        let head = self.heads[role];
        if role < blocks.roles {
            head < blocks.rows && blocks.block(role).row(head).stands()
        } else {
            head == 0
        }
    }

    fn heads_good(&self, blocks: &Blocks<'_>) -> bool
        ensures { result ≡ every (head_good blocks.now.tables.now blocks.now.roles (seen self.now)) base.roles }
    {
        (0..Table::ROLES).all(|role| self.head_good(blocks, role))
    }

    // A slot in use holds a label; an unused slot is 0. `first` is the queue's first slot.
    fn slot_good(&self, count: usize, first: usize, slot: usize) -> bool
        requires { first + slot < pairs base * base.depth }
        ensures { result ≡ slot_holds base count slot (get_or self.now.labels.now (first + slot) 0) (get_or self.now.payloads.now (first + slot) 0) }
    {
        let at = first + slot;
        if slot < count {
            usize::from(self.labels[at]) < Table::LABELS
        } else {
            self.labels[at] == 0 && self.payloads[at] == 0
        }
    }

    fn queue_good(&self, roles: usize, sender: usize, receiver: usize) -> bool
        requires { (sender < base.roles) × (receiver < base.roles) }
        ensures { result ≡ queue_good base roles (seen self.now) sender receiver }
    {
        let count = usize::from(self.held(sender, receiver));
        let at = (sender * Table::ROLES + receiver) * DEPTH;
        count <= DEPTH
            && (are_pair(roles, sender, receiver) || count == 0)
            && (0..DEPTH).all(|slot| self.slot_good(count, at, slot))
    }

    fn sender_good(&self, roles: usize, sender: usize) -> bool
        requires { sender < base.roles }
        ensures { result ≡ every (queue_good base roles (seen self.now) sender) base.roles }
    {
        (0..Table::ROLES).all(|receiver| self.queue_good(roles, sender, receiver))
    }

    fn queues_good(&self, roles: usize) -> bool
        ensures { result ≡ every (λ p. every (queue_good base roles (seen self.now) p) base.roles) base.roles }
    {
        (0..Table::ROLES).all(|sender| self.sender_good(roles, sender))
    }

    // The one test of rule 13.
    #[tactic(auto, unfolding(crate::specs::State::state_good))]
    pub(crate) fn is_good(&self, blocks: &Blocks<'_>) -> bool
        ensures { result ≡ state_good base blocks.now.tables.now blocks.now.roles (seen self.now) }
    {
        self.heads_good(blocks) && self.queues_good(blocks.roles)
    }
}
