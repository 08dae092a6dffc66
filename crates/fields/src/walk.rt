// The walk of all chains.

ghost use Rattle.std.specs.Prelude.{◌≡◌};
ghost use Rattle.rules.specs.Chains.{Walk, walk};
ghost use Rattle.fields.specs.Lent.{at_rows, at_places};

use super::lent::place;
use records::{RowId, SlotPtr};

// Marks the slots that the chains reach, row by row; stops at the first slot reached twice.
pub fn walk_all<'a>(
    heads: &'a [u32; RowId::ROWS],
    next: &'a [u32; SlotPtr::PLACES],
    seen: &mut [u8; SlotPtr::PLACES],
) -> bool
    ensures { ◌≡◌ {A = Walk} (record { ok = result; seen = seen.new }) (walk (at_rows heads.now) (at_places next.now)) }
{
    *seen = [0; SlotPtr::PLACES];
    let mut ok = true;
    'rows: for head in heads {
        let mut p = *head;
        let mut left = SlotPtr::PLACES;
        while p != 0 {
            let i = place(p);
            if left == 0 || SlotPtr::SLOTS < i || seen[i] != 0 {
                ok = false;
                break 'rows;
            }
            seen[i] = 1;
            p = next[i];
            left -= 1;
        }
    }
    ok
}
