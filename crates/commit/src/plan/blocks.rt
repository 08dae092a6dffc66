// The blocks of a commit by their names, each pushed whole or its first `limit` puts. What a block is of, the store and the transaction,
// the contracts name; the code has it as marks and lists that were read off both before.

ghost use Rattle.std.specs.Prelude.{◌≡◌, true, map, reverse, ◌≤◌, length, take};
ghost use Rattle.records.specs.Limits.{places};
ghost use Rattle.rules.specs.Types.{Store, Tx};
ghost use Rattle.rules.specs.Transaction.{finals};
ghost use Rattle.rules.specs.Chains.{walk};
ghost use Rattle.rules.specs.Fit.{fit};
ghost use Rattle.rules.specs.Puts.{put_remove, abort_puts};
ghost use Rattle.rules.specs.Changes.{changes, destinations, sources, index_guards, partition_guards};
ghost use Rattle.rules.specs.Changes.{release, insertions, removals, publication, recycling, stamping};
ghost use Rattle.journal.specs.Adds.{Adds};
ghost use Rattle.commit.specs.Plan.Moves.{changed_marks};
ghost use Rattle.commit.specs.Plan.Guards.{guarded_marks, partition_marks};
ghost use Rattle.visibility.specs.OwnMarks.{own_marks};
ghost use Rattle.commit.specs.Plan.Own.{recycled_marks};

use super::moves::Codes;
use super::{publish, pushes};
use journal::at_marks::{push_frees, push_partitions, push_stamps, push_stripes};
use journal::{Journal, Put, at_marks};
use records::{RowId, SlotPtr, Store, Txid, Write};

// The stripe guards set to t: the txid to take them, none to let them go.
pub fn push_index_guards(stripes: &[bool; Store::STRIPES], t: Txid, j: &mut Journal)
    ensures { (S : Store) (x : Tx) → stripes.now ≡ guarded_marks (changes S x) x → fit S x ≡ true
        → Adds j.old (index_guards S x t.0) j.new }
{
    push_stripes(stripes, t, j);
}

// The partition guards set to t.
pub fn push_partition_guards(partitions: &[bool; RowId::PARTITIONS], t: Txid, j: &mut Journal)
    ensures { (x : Tx) → partitions.now ≡ partition_marks x → Adds j.old (partition_guards x t.0) j.new }
{
    push_partitions(partitions, t, j);
}

// All guards let go, the partitions' first.
pub fn push_release(
    stripes: &[bool; Store::STRIPES],
    partitions: &[bool; RowId::PARTITIONS],
    j: &mut Journal,
)
    ensures { (S : Store) (x : Tx) → stripes.now ≡ guarded_marks (changes S x) x → partitions.now ≡ partition_marks x
        → fit S x ≡ true → Adds j.old (release S x) j.new }
{
    push_partition_guards(partitions, Txid::NONE, j);
    push_index_guards(stripes, Txid::NONE, j);
}

// The first `limit` insertions of destinations.
pub fn push_insertions(into: &Codes, limit: usize, j: &mut Journal)
    ensures { (S : Store) (x : Tx) → into.now ≡ destinations (changes S x) → Adds j.old (take limit (insertions S x)) j.new }
{
    pushes::push_listed(into.first(limit), |c| Put::Insert(c), j);
}

// The first `limit` removals of sources.
pub fn push_removals(out: &Codes, limit: usize, j: &mut Journal)
    ensures { (S : Store) (x : Tx) → out.now ≡ sources (changes S x) → Adds j.old (take limit (removals S x)) j.new }
{
    pushes::push_listed(out.first(limit), |c| Put::Remove(c), j);
}

// The first `limit` removals of a rollback, which undoes the first `made` insertions from the last one back.
pub fn push_rollback(into: &Codes, made: usize, limit: usize, j: &mut Journal)
    ensures { (S : Store) (x : Tx) → into.now ≡ destinations (changes S x)
        → Adds j.old (take limit (map put_remove (reverse (take made (destinations (changes S x)))))) j.new }
{
    pushes::push_back(into.first(made), limit, j);
}

// The first `limit` puts of publication.
pub fn push_publication(writes: &[Write], t: Txid, limit: usize, j: &mut Journal)
    ensures { (x : Tx) → writes.now ≡ finals x → t ≡ x.txid → Adds j.old (take limit (publication x)) j.new }
{
    publish::push_writes(writes, t, limit, j);
}

// The first `limit` frees of recycling.
pub fn push_recycling(recycled: &[bool; SlotPtr::PLACES], limit: usize, j: &mut Journal)
    ensures { (S : Store) (x : Tx) → recycled.now ≡ recycled_marks S.xmin (walk S.heads S.next).seen x
        → length S.xmin ≤ places → Adds j.old (take limit (recycling S x)) j.new }
{
    push_frees(recycled, limit, j);
}

// The first `limit` stamps.
pub fn push_stamping(changed: &[bool; Store::STRIPES], t: Txid, limit: usize, j: &mut Journal)
    ensures { (S : Store) (x : Tx) → changed.now ≡ changed_marks (changes S x) → t ≡ x.txid
        → Adds j.old (take limit (stamping S x)) j.new }
{
    push_stamps(changed, t, limit, j);
}

// The own slots freed, then the txid dropped.
pub fn push_abort(own: &[bool; SlotPtr::PLACES], t: Txid, j: &mut Journal)
    ensures { (S : Store) → own.now ≡ own_marks S.xmin (walk S.heads S.next).seen t.0 → length S.xmin ≤ places
        → Adds j.old (abort_puts S t.0) j.new }
{
    at_marks::push_abort(own, t, j);
}
