// What commit leaves of a transaction.

ghost use Rattle.std.specs.Prelude.{◌≡◌};
ghost use Rattle.rules.specs.Transaction.{no_writes, no_accesses, emptied};

use records::{IndexRead, ReadRecord, Tx, Write};

// Writes alone emptied.
pub fn no_writes(x: &Tx) -> Tx
    ensures { result ≡ no_writes x.now }
{
    Tx {
        writes: [Write::NONE; Tx::WRITES],
        write_count: 0,
        ..*x
    }
}

// Writes, reads and index reads emptied.
pub fn no_accesses(x: &Tx) -> Tx
    ensures { result ≡ no_accesses x.now }
{
    Tx {
        reads: [ReadRecord::NONE; Tx::READS],
        read_count: 0,
        index_reads: [IndexRead::NONE; Tx::INDEX_READS],
        index_read_count: 0,
        ..no_writes(x)
    }
}

// All lists emptied and index_conflict lowered; the snapshot stays.
pub fn emptied(x: &Tx) -> Tx
    ensures { result ≡ emptied x.now }
{
    Tx {
        index_conflict: false,
        savepoints: [0; Tx::SAVEPOINTS],
        savepoint_count: 0,
        ..no_accesses(x)
    }
}
