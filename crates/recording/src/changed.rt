// The transaction with one of its lists changed.

ghost use Rattle.std.specs.Prelude.{◌≡◌, ◌∷◌, [], ◌++◌};
ghost use Rattle.records.specs.Zero.{only_txid};
ghost use Rattle.rules.specs.Transaction.{writes_of, with_writes};
ghost use Rattle.recording.specs.ReadList.{reads_from};
ghost use Rattle.recording.specs.StampList.{index_reads_from};

use super::laid::Laid;
use super::reads::ReadList;
use super::stamps::IndexReadList;
use records::{Tx, Txid, Write};

// Its reads those of a list.
pub fn with_reads(x: &Tx, l: ReadList) -> Tx
    ensures { result ≡ reads_from l x.now }
{
    let reads = l.at;
    Tx {
        reads,
        read_count: l.count,
        ..*x
    }
}

// Its index reads those of a list, its index_conflict as given.
pub fn with_index_reads(x: &Tx, l: IndexReadList, conflict: bool) -> Tx
    ensures { result ≡ index_reads_from l conflict x.now }
{
    let index_reads = l.at;
    Tx {
        index_reads,
        index_read_count: l.count,
        index_conflict: conflict,
        ..*x
    }
}

// One write more; where there is no place for it, only the count tells.
pub fn with_write(x: &Tx, w: Write) -> Tx
    ensures { result ≡ with_writes (writes_of x.now ++ w ∷ []) x.now }
{
    let mut l = Laid::first(&x.writes, x.write_count, Write::NONE);
    l.push(w);
    let writes = l.at;
    Tx {
        writes,
        write_count: l.count,
        ..*x
    }
}

// Zero but for the txid.
pub fn only_txid(t: Txid) -> Tx
    ensures { result ≡ only_txid t.0 }
{
    Tx {
        txid: t,
        ..Tx::zero()
    }
}
