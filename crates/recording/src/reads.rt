// The reads of a transaction, with more recorded.

ghost use Rattle.std.specs.Prelude.{◌≡◌, List, Ok};
ghost use Rattle.rules.specs.Transaction.{reads_of};
ghost use Rattle.rules.specs.Types.{ReadRecord};
ghost use Rattle.rules.specs.Calls.{same_read};
ghost use Rattle.fields.specs.Lent.{at_rows, at_places};
ghost use Rattle.recording.specs.ReadList.{reads_split, first_reads, held_reads, record_read_of};

use super::laid::Laid;
use fields::lent::txid_at;
use records::{ReadRecord, RowId, SlotPtr, Store, Tx};
use visibility::chain::visible_version;
use visibility::own::last_own;

// Reads in an array of as many places as a transaction has for them.
pub type ReadList = Laid<ReadRecord, { Tx::READS }>;

// The transaction's reads.
pub(crate) fn reads_of(x: &Tx) -> ReadList
    ensures { Ok result ≡ reads_split (reads_of x.now) }
{
    Laid::first(&x.reads, x.read_count, ReadRecord::NONE)
}

// The read of the row that finds the pointer: a version is recorded once per pointer, an absent row (pointer 0) once per row.
fn same_read(e: &ReadRecord, r: RowId, p: SlotPtr) -> bool
    ensures { result ≡ same_read r.0 p.0 e.now }
{
    (p != SlotPtr::NULL || e.row == r) && e.ptr == p
}

// Records a found version's pointer and xmin, of an absent row pointer 0 and xmin 0 (place 0 has no other); own writes are not recorded. An error,
// with the list as it was, where there is no place for the read.
pub(crate) fn record_read(
    s: &Store,
    x: &Tx,
    r: RowId,
    mut l: ReadList,
) -> Result<ReadList, ReadList>
    ensures whole { (m : List ReadRecord) → Ok l ≡ reads_split m
        → result ≡ reads_split (record_read_of (at_rows s.now.heads) (at_places s.now.next) (at_places s.now.xmin) x.now r.0 m) }
    ensures first { (m : List ReadRecord) → l ≡ first_reads m
        → held_reads result ≡ first_reads (record_read_of (at_rows s.now.heads) (at_places s.now.next) (at_places s.now.xmin) x.now r.0 m) }
{
    if last_own(x, r).new != SlotPtr::NULL {
        return Ok(l);
    }
    let p = visible_version(s, x, r);
    if l.as_slice().iter().any(|e| same_read(e, r, p)) {
        return Ok(l);
    }
    if Tx::READS <= l.count {
        return Err(l);
    }
    l.push(ReadRecord {
        row: r,
        ptr: p,
        xmin: txid_at(&s.xmin, p),
    });
    Ok(l)
}

// The transaction's reads with that of the row recorded; where there is no place for it, those before it as an error.
pub fn with_read(s: &Store, x: &Tx, r: RowId) -> Result<ReadList, ReadList>
    ensures { result ≡ reads_split
        (record_read_of (at_rows s.now.heads) (at_places s.now.next) (at_places s.now.xmin) x.now r.0 (reads_of x.now)) }
{
    record_read(s, x, r, reads_of(x))
}
