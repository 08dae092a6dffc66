// Fit transactions.

ghost use Rattle.std.specs.Prelude.{◌≡◌, ◌≤◌, ◌&&◌, true, drop, leb};
ghost use Rattle.std.specs.List.{list_all};
ghost use Rattle.records.specs.Limits.{write_limit, read_limit, index_read_limit, savepoint_limit};
ghost use Rattle.rules.specs.Fit.{read_fit, fit};
ghost use Rattle.basic_laws.specs.Members.{pairs};
ghost use Rattle.fields.specs.Climb.{climb};
ghost use Rattle.fitting.specs.Apart.{stripe_fit, stripes_differ};
ghost use Rattle.fitting.specs.Fitting.{counts_by, write_at};
ghost use Rattle.fitting.specs.Fits.{fit_by};

use super::apart::all_apart;
use fields::lent::place;
use fields::walk::walk_all;
use records::{IndexRead, ReadRecord, RowId, SlotPtr, Store, Tx, Txid, Write};

// The elements from place n on are all `none`.
fn rest_is<T: PartialEq + Copy>(x: &[T], n: usize, none: T) -> bool
    ensures { result ≡ list_all (λ y. T.eq y none) (drop n x.now) }
{
    x.iter().skip(n).all(|y| *y == none)
}

// A row below the limit, a pointer from 1 to the last slot, or pointer 0 with xmin 0.
fn read_fit(e: &ReadRecord) -> bool
    ensures { result ≡ read_fit e.now }
{
    e.row.0 < RowId::ROWS
        && match place(e.ptr.0) {
            0 => e.xmin == Txid::NONE,
            p => p <= SlotPtr::SLOTS,
        }
}

// Each read.
fn reads_fit(reads: &[ReadRecord]) -> bool
    ensures { result ≡ list_all read_fit reads.now }
{
    reads.iter().all(read_fit)
}

// One write: the new pointer used, off every chain, with xmin the txid, next the base.
#[tactic(auto, unfolding(crate::specs::Fitting::write_at))]
fn write_fit(s: &Store, seen: &[u8; SlotPtr::PLACES], t: Txid, w: &Write) -> bool
    ensures { result ≡ write_at s.now.xmin s.now.next seen.now t.0 w.now }
{
    let i = place(w.new.0);
    w.row.0 < RowId::ROWS
        && place(w.base.0) <= SlotPtr::SLOTS
        && i <= SlotPtr::SLOTS
        && s.xmin[i] != 0
        && seen[i] == 0
        && s.xmin[i] == t.0
        && s.next[i] == w.base.0
}

// Each write.
fn writes_fit(s: &Store, seen: &[u8; SlotPtr::PLACES], t: Txid, writes: &[Write]) -> bool
    ensures { result ≡ list_all (write_at s.now.xmin s.now.next seen.now t.0) writes.now }
{
    writes.iter().all(|w| write_fit(s, seen, t, w))
}

// "stripes below 16 and distinct"
fn stripes_apart(reads: &[IndexRead]) -> bool
    ensures { result ≡ (list_all stripe_fit reads.now && pairs stripes_differ reads.now) }
{
    reads.iter().all(|r| place(r.stripe) < Store::STRIPES) && all_apart(reads)
}

// "savepoints non-falling and at most the write count"
fn savepoints_fit(points: &[usize], writes: usize) -> bool
    ensures { result ≡ climb (λ p. p) (λ p. leb p writes) 0 points.now }
{
    let mut least: usize = 0;
    for p in points {
        if *p < least || writes < *p {
            return false;
        }
        least = *p;
    }
    true
}

// "counts within limits, unused places zero"
#[tactic(auto, unfolding(crate::specs::Fitting::counts_by))]
fn counts_fit(x: &Tx) -> bool
    ensures tests { result ≡ counts_by x.now }
    ensures within { result ≡ true → (x.now.write_count ≤ write_limit) × (x.now.read_count ≤ read_limit)
        × (x.now.index_read_count ≤ index_read_limit) × (x.now.savepoint_count ≤ savepoint_limit) }
{
    x.write_count <= Tx::WRITES
        && x.read_count <= Tx::READS
        && x.index_read_count <= Tx::INDEX_READS
        && x.snapshot_count <= Txid::ACTIVE
        && x.savepoint_count <= Tx::SAVEPOINTS
        && rest_is(&x.writes, x.write_count, Write::NONE)
        && rest_is(&x.reads, x.read_count, ReadRecord::NONE)
        && rest_is(&x.index_reads, x.index_read_count, IndexRead::NONE)
        && rest_is(&x.snapshot, x.snapshot_count, 0)
        && rest_is(&x.savepoints, x.savepoint_count, 0)
}

// Fit for the store under the marks of its walk.
#[tactic(auto, unfolding(crate::specs::Fits::fit_by))]
pub fn fit_of(s: &Store, seen: &[u8; SlotPtr::PLACES], x: &Tx) -> bool
    ensures { result ≡ fit_by s.now.xmin s.now.next s.now.clock seen.now x.now }
{
    if !counts_fit(x) {
        return false;
    }
    let writes = &x.writes[..x.write_count];
    reads_fit(&x.reads[..x.read_count])
        && writes_fit(s, seen, x.txid, writes)
        && all_apart(writes)
        && stripes_apart(&x.index_reads[..x.index_read_count])
        && savepoints_fit(&x.savepoints[..x.savepoint_count], x.write_count)
        && x.snapshot_xmin.0 <= x.snapshot_xmax.0
        && x.snapshot_xmax.0 <= s.clock
}

// Fit for the store.
pub fn fit(s: Store, x: Tx) -> bool
    ensures { result ≡ fit s x }
{
    let mut seen = [0; SlotPtr::PLACES];
    let _ = walk_all(&s.heads, &s.next, &mut seen);
    fit_of(&s, &seen, &x)
}
