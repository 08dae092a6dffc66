// A txid's own slots, used and off every chain by the marks of the walk: what abort frees, and commit but for those it publishes.

ghost use Rattle.std.specs.Prelude.{◌≡◌};
ghost use Rattle.fields.specs.Lent.{at_places};
ghost use Rattle.visibility.specs.OwnMarks.{own_marks};

use super::slots::is_own;
use records::{SlotPtr, Txid};

// Marks them.
pub fn own_marks<'a>(
    xmin: &'a [u64; SlotPtr::PLACES],
    seen: &'a [u8; SlotPtr::PLACES],
    t: Txid,
) -> [bool; SlotPtr::PLACES]
    ensures { result ≡ own_marks (at_places xmin.now) (at_places seen.now) t.0 }
{
    let mut m = [false; SlotPtr::PLACES];
    for i in 0..SlotPtr::PLACES {
        if xmin[i] != 0 && is_own(xmin, seen, t, SlotPtr(i as u32)) {
            m[i] = true;
        }
    }
    m
}
