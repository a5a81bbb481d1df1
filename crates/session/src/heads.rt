// Where the roles of a fresh session stand.
ghost use Rattle.std.specs.Prelude.{◌≡◌};
ghost use Rattle.table.specs.Limits.{base};
ghost use Rattle.session.specs.Calls.{first_heads};

use crate::Session;
use blocks::tables::Blocks;

// Each role at the head of row 0 of its block, absent roles at 0.
pub fn first_heads(blocks: &Blocks<'_>) -> [u16; Session::ROLES]
    ensures { result ≡ first_heads blocks.now.tables.now blocks.now.roles base.roles }
{
    let mut heads = [0u16; Session::ROLES];
    for role in 0..Session::ROLES {
        if role < blocks.roles {
            heads[role] = blocks.block(role).head(0);
        }
    }
    heads
}
