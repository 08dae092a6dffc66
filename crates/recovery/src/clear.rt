// An unfinished xmax of a head is taken back.

ghost use Rattle.std.specs.Prelude.{◌≡◌};
ghost use Rattle.rules.specs.Admitted.{finished};
ghost use Rattle.rules.specs.Recovery.{clear};

use fields::lent::place;
use fields::txids::is_finished;
use records::{RowId, SlotPtr, Store};

// Heads past the last slot have no xmax.
pub fn clear_heads(xmax: &mut [u64; SlotPtr::PLACES], heads: &[u32; RowId::ROWS], s: &Store)
    ensures { xmax.new ≡ clear (finished s.now.active s.now.doomed) heads.now xmax.old }
{
    for head in heads {
        let i = place(*head);
        if i < SlotPtr::PLACES && !is_finished(&s.active, s.doomed, xmax[i]) {
            xmax[i] = 0;
        }
    }
}
