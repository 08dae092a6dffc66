// What read and write find for a row. The null pointer belongs to its type, as the paper says: here it is 'no own write' and 'no version'.

ghost use Rattle.std.specs.Prelude.{◌≡◌};
ghost use Rattle.fields.specs.Lent.{at_rows, at_places};
ghost use Rattle.visibility.specs.Found.{read_ptr_of, base_of_row};

use super::chain::visible_version;
use super::own::last_own;
use records::{RowId, SlotPtr, Store, Tx};

// The last own write of the row, else the first chain version with a visible creator; null if there is neither.
pub fn read_ptr(s: &Store, x: &Tx, r: RowId) -> SlotPtr
    ensures { result.0 ≡ read_ptr_of (at_rows s.now.heads) (at_places s.now.next) (at_places s.now.xmin) x.now r.0 }
{
    let own = last_own(x, r);
    if own.new == SlotPtr::NULL {
        visible_version(s, x, r)
    } else {
        own.new
    }
}

// The base of a write of the row: kept from its last own write, else the visible version's pointer.
pub fn base_of(s: &Store, x: &Tx, r: RowId) -> SlotPtr
    ensures { result.0 ≡ base_of_row (at_rows s.now.heads) (at_places s.now.next) (at_places s.now.xmin) x.now r.0 }
{
    let last = last_own(x, r);
    if last.new == SlotPtr::NULL {
        visible_version(s, x, r)
    } else {
        last.base
    }
}
