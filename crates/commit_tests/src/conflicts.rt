// The four tests of commit, each to the first yes, as the definition has it of every store with the lent store's arrays: `Err` of the place of the first
// entry that conflicts, or of their number `Ok`, if none does.

ghost use Rattle.std.specs.Prelude.{◌≡◌, take};
ghost use Rattle.rules.specs.Types.{Store};
ghost use Rattle.rules.specs.Tests.{index_read_conflict, row_lock_conflict, serialization_conflict, write_base_conflict};
ghost use Rattle.rules.specs.Tests.{index_read_place, row_lock_place, serialization_place, write_base_place};
ghost use Rattle.fields.specs.Lent.{at_rows, at_places, flags_at_places, at_active, at_stripes};
ghost use Rattle.commit_tests.specs.Conflicts.{tested, read_conflict_of};

use super::finals::{unwritten_from, written};
use fields::lent::{clipped, head_of, stamp_at, txid_at};
use fields::locks::locked_by_another;
use fields::txids::in_snapshot;
use records::{ReadRecord, SlotPtr, Store, Tx, Txid};

// 11: index_conflict, its entry 0, is set, or a recorded stamp differs.
pub fn index_read_conflict(s: &Store, x: &Tx) -> Result<usize, usize>
    ensures { (S : Store) → S.stamps ≡ at_stripes s.now.stamps
        → result ≡ tested (index_read_conflict S x.now) (index_read_place S x.now) }
{
    if x.index_conflict {
        return Err(0);
    }
    let differs = x
        .index_reads
        .iter()
        .take(x.index_read_count)
        .position(|e| stamp_at(&s.stamps, e.stripe) != e.stamp);
    match differs {
        Some(i) => Err(i + 1),
        None => Ok(clipped(x.index_read_count, Tx::INDEX_READS) + 1),
    }
}

// 12: a written row's head has a live lock of another.
pub fn has_row_lock_conflict(s: &Store, x: &Tx) -> Result<usize, usize>
    ensures { (S : Store) → S.heads ≡ at_rows s.now.heads → S.locked ≡ flags_at_places s.now.locked
        → S.owner ≡ at_places s.now.owner → S.active ≡ at_active s.now.active
        → result ≡ tested (row_lock_conflict S x.now) (row_lock_place S x.now) }
{
    let locked = x
        .writes
        .iter()
        .take(x.write_count)
        .position(|w| locked_by_another(s, x.txid, head_of(&s.heads, w.row)));
    match locked {
        Some(write) => Err(write),
        None => Ok(clipped(x.write_count, Tx::WRITES)),
    }
}

// One read. Of an absent row: it has a head now. Of a version: a changed xmin conflicts first; xmax 0 or own is none; xmax at or above snapshot_xmax,
// or in the snapshot, conflicts.
fn read_conflict(s: &Store, x: &Tx, e: &ReadRecord) -> bool
    ensures { result ≡ read_conflict_of (at_rows s.now.heads) (at_places s.now.xmin) (at_places s.now.xmax)
        (take x.now.snapshot_count (at_active x.now.snapshot)) x.now.txid.0 x.now.snapshot_xmax.0 e.now }
{
    if e.ptr == SlotPtr::NULL {
        return head_of(&s.heads, e.row) != SlotPtr::NULL;
    }
    if txid_at(&s.xmin, e.ptr) != e.xmin {
        return true;
    }
    let ender = txid_at(&s.xmax, e.ptr);
    if ender == Txid::NONE || ender == x.txid {
        return false;
    }
    x.snapshot_xmax.0 <= ender.0 || in_snapshot(&x.snapshot, x.snapshot_count, ender)
}

// 13: a read conflicts.
pub fn has_serialization_conflict(s: &Store, x: &Tx) -> Result<usize, usize>
    ensures { (S : Store) → S.heads ≡ at_rows s.now.heads → S.xmin ≡ at_places s.now.xmin
        → S.xmax ≡ at_places s.now.xmax
        → result ≡ tested (serialization_conflict S x.now) (serialization_place S x.now) }
{
    let conflicts = x
        .reads
        .iter()
        .take(x.read_count)
        .position(|e| read_conflict(s, x, e));
    match conflicts {
        Some(read) => Err(read),
        None => Ok(clipped(x.read_count, Tx::READS)),
    }
}

// 14: a final write's base is not the head, at its place among all writes. Whether a write is final is asked only where its base isn't the head.
pub fn has_write_base_conflict(s: &Store, x: &Tx) -> Result<usize, usize>
    ensures { (S : Store) → S.heads ≡ at_rows s.now.heads
        → result ≡ tested (write_base_conflict S x.now) (write_base_place S x.now) }
{
    let writes = written(x);
    for (i, w) in writes.iter().enumerate() {
        if head_of(&s.heads, w.row) != w.base && unwritten_from(writes, i + 1, w.row) {
            return Err(i);
        }
    }
    Ok(writes.len())
}
