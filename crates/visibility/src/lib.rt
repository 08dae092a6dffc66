// What a transaction sees: creators, versions of a row, its own writes, slots, the active list. Each function takes the store, its arrays or the
// transaction lent, and answers what its definition in the crate `rules` says, on every input. A contract reads the list of a lent array through `array`,
// whatever its length.

#![tactic(auto)]

ghost use Rattle.std.specs.Prelude.{◌≡◌};
ghost use Rattle.rules.specs.Transaction.{sees};

pub mod active;
pub mod chain;
pub mod found;
pub mod own;
pub mod own_slots;
pub mod slots;

use fields::txids::in_snapshot;
use records::{Tx, Txid};

// A creator is visible if it is the reader, or below snapshot_xmax and not in the snapshot.
pub fn sees(x: &Tx, t: Txid) -> bool
    ensures { result ≡ sees x.now t.0 }
{
    t == x.txid || t.0 < x.snapshot_xmax.0 && !in_snapshot(&x.snapshot, x.snapshot_count, t)
}
