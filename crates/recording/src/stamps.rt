// The index reads of a transaction, with the stamp of a stripe recorded, and the conflict that the stamp may show.

ghost use Rattle.std.specs.Prelude.{◌≡◌, get_or};
ghost use Rattle.rules.specs.Store.{stripe_of};
ghost use Rattle.rules.specs.Transaction.{index_reads_of};
ghost use Rattle.rules.specs.Calls.{record_stamp};
ghost use Rattle.fields.specs.Lent.{at_stripes};
ghost use Rattle.recording.specs.StampList.{index_read_list, index_conflict};

use super::laid::{Laid, first_of};
use records::{IndexRead, Store, Tx, Txid};
use visibility::sees;

// Index reads in an array; a count above its places means that the last one has none.
pub type IndexReadList = Laid<IndexRead, { Tx::INDEX_READS }>;

// The present stamp of a key's stripe.
pub fn stamp_of(s: &Store, k: u32) -> Txid
    ensures { result.0 ≡ get_or (at_stripes s.now.stamps) (stripe_of k) 0 }
{
    Txid(s.stamps[k as usize % Store::STRIPES])
}

// The transaction's index reads with the stripe's stamp recorded once per stripe.
pub fn record_stamp(x: &Tx, stripe: u32, stamp: Txid) -> IndexReadList
    ensures { result ≡ index_read_list (record_stamp stripe stamp.0 (index_reads_of x.now)) }
{
    let mut l = Laid::first(&x.index_reads, x.index_read_count, IndexRead::NONE);
    if !first_of(&x.index_reads, x.index_read_count)
        .iter()
        .any(|e| e.stripe == stripe)
    {
        l.push(IndexRead { stripe, stamp });
    }
    l
}

// Raised already, or by a present stamp that is nonzero and not visible.
pub fn index_conflict(x: &Tx, stamp: Txid) -> bool
    ensures { result ≡ index_conflict x.now stamp.0 }
{
    x.index_conflict || stamp != Txid::NONE && !sees(x, stamp)
}
