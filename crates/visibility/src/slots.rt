// Slots: the lowest free one, what one holds, and which are a transaction's own.

ghost use Rattle.std.specs.Prelude.{◌≡◌};
ghost use Rattle.rules.specs.Store.{value_at};
ghost use Rattle.rules.specs.Calls.{lowest_free};
ghost use Rattle.fields.specs.Lent.{at_places, flags_at_places};
ghost use Rattle.visibility.specs.Slots.{own_slot};

use fields::lent::{flag_at, key_at, mark_at, txid_at};
use records::{SlotPtr, Store, Txid, Value};

// The lowest free slot; the null pointer, which belongs to its type, if there is none.
pub fn lowest_free(xmin: &[u64; SlotPtr::PLACES]) -> SlotPtr
    ensures { result.0 ≡ lowest_free (at_places xmin.now) }
{
    for i in 1..SlotPtr::PLACES {
        if xmin[i] == 0 {
            return SlotPtr(i as u32);
        }
    }
    SlotPtr::NULL
}

// The value of a slot; none for a free one, for null and for a slot that is none.
pub fn value_at(s: &Store, p: SlotPtr) -> Value
    ensures { result ≡ value_at (at_places s.now.key) (flags_at_places s.now.has) p.0 }
{
    if flag_at(&s.has, p) {
        Value::Key(key_at(&s.key, p))
    } else {
        Value::Absent
    }
}

// Created by t and off every chain, by the marks of the walk: what abort frees.
pub(crate) fn is_own<'a>(
    xmin: &'a [u64; SlotPtr::PLACES],
    seen: &'a [u8; SlotPtr::PLACES],
    t: Txid,
    p: SlotPtr,
) -> bool
    ensures { result ≡ own_slot (at_places xmin.now) (at_places seen.now) t.0 p.0 }
{
    txid_at(xmin, p) == t && mark_at(seen, p) == 0
}
