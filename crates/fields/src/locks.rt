// Who locks a slot.

ghost use Rattle.std.specs.Prelude.{◌≡◌};
ghost use Rattle.fields.specs.Lent.{at_places, flags_at_places, at_active};
ghost use Rattle.fields.specs.Locks.{locked_of};

use super::lent::{flag_at, txid_at};
use super::txids::is_active;
use records::{SlotPtr, Store, Txid};

// Locked by an active owner other than t: a lock whose owner isn't active is void.
pub fn locked_by_another(s: &Store, t: Txid, p: SlotPtr) -> bool
    ensures { result ≡ locked_of (flags_at_places s.now.locked) (at_places s.now.owner) (at_active s.now.active) t.0 p.0 }
{
    let o = txid_at(&s.owner, p);
    flag_at(&s.locked, p) && o != t && is_active(&s.active, o)
}
