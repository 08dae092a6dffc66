// The active list.

ghost use Rattle.std.specs.Prelude.{◌≡◌, length, get_or};
ghost use Rattle.rules.specs.Store.{active_txids};
ghost use Rattle.fields.specs.Lent.{at_active};

use records::Txid;

// How many txids are active.
pub fn active_count(active: &[u64; Txid::ACTIVE]) -> usize
    ensures { result ≡ length (active_txids (at_active active.now)) }
{
    active.iter().take_while(|a| **a != 0).count()
}

// The smallest active txid: the list rises, so it is the first; `clock` if there is none.
pub fn oldest_active(active: &[u64; Txid::ACTIVE], clock: u64) -> u64
    ensures { result ≡ get_or (active_txids (at_active active.now)) 0 clock }
{
    let a = active[0];
    if a == 0 { clock } else { a }
}
