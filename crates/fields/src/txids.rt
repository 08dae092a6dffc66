// Txids in the active list and in a snapshot, and finished ones.

ghost use Rattle.std.specs.Prelude.{◌≡◌, take};
ghost use Rattle.rules.specs.Lists.{memb};
ghost use Rattle.rules.specs.Store.{active_txids};
ghost use Rattle.rules.specs.Admitted.{finished};
ghost use Rattle.fields.specs.Lent.{at_active};

use records::Txid;

// A txid is active if it stands before the first 0.
pub fn is_active(active: &[u64; Txid::ACTIVE], t: Txid) -> bool
    ensures { result ≡ memb t.0 (active_txids (at_active active.now)) }
{
    active.iter().take_while(|a| **a != 0).any(|a| *a == t.0)
}

// A txid among the first `count` of a snapshot.
pub fn in_snapshot(snapshot: &[u64; Txid::ACTIVE], count: usize, t: Txid) -> bool
    ensures { result ≡ memb t.0 (take count (at_active snapshot.now)) }
{
    snapshot.iter().take(count).any(|a| *a == t.0)
}

// Neither active nor doomed, or no txid.
pub fn is_finished(active: &[u64], doomed: u64, t: u64) -> bool
    ensures { result ≡ finished active.now doomed t }
{
    t == 0 || t != doomed && !active.contains(&t)
}
