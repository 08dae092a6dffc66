// The version of a row that a transaction sees.

ghost use Rattle.std.specs.Prelude.{◌≡◌};
ghost use Rattle.rules.specs.Calls.{visible_version};
ghost use Rattle.fields.specs.Lent.{at_rows, at_places};

use super::sees;
use fields::lent::{head_of, pointer_at, txid_at};
use records::{RowId, SlotPtr, Store, Tx};

// The first version of the row's chain with a visible creator, null if there is none. A chain has no more versions than there are places.
pub fn visible_version(s: &Store, x: &Tx, r: RowId) -> SlotPtr
    ensures { result.0 ≡ visible_version (at_rows s.now.heads) (at_places s.now.next) (at_places s.now.xmin) x.now r.0 }
{
    let mut p = head_of(&s.heads, r);
    for _ in 0..SlotPtr::PLACES {
        // the null pointer belongs to its type: it ends a chain, and is the answer where no version is visible
        if p == SlotPtr::NULL || sees(x, txid_at(&s.xmin, p)) {
            return p;
        }
        p = pointer_at(&s.next, p);
    }
    SlotPtr::NULL
}
