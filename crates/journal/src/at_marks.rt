// Puts at marked places: runs of one kind, the frees of marked slots, and all that an abort stores.

ghost use Rattle.std.specs.Prelude.{◌≡◌, [], ◌∷◌, ◌++◌, ℕ, ◌<◌, length, take};
ghost use Rattle.rules.specs.Puts.{Put as RulesPut, put_stripe, put_partition, put_stamp, put_drop};
ghost use Rattle.journal.specs.Journal.{meant};
ghost use Rattle.journal.specs.Adds.{Adds};
ghost use Rattle.journal.specs.AtMarks.{placed, frees_at};

use super::{Journal, Put};
use records::{RowId, SlotPtr, Store, Txid};

// The put of each marked place, rising, and no more than `limit`.
fn push_marked<F: Fn(usize) -> Put>(marks: &[bool], put: F, limit: usize, j: &mut Journal)
    requires { (i : ℕ) → i < length marks.now → F.pre put i }
    ensures { (f : ℕ → RulesPut) → ((i : ℕ) (p : _) → i < length marks.now → F.post put i p → meant p ≡ f i)
        → Adds j.old (take limit (placed f marks.now)) j.new }
{
    // counted, since the checker refuses a loop over `filter` and `take` in a generic function (tried)
    let mut left = limit;
    for (i, mark) in marks.iter().enumerate() {
        if left == 0 {
            return;
        }
        if *mark {
            left -= 1;
            j.push(put(i));
        }
    }
}

// The guards of the marked stripes set to t: the txid to take them, none to let them go.
pub fn push_stripes(marks: &[bool; Store::STRIPES], t: Txid, j: &mut Journal)
    ensures { Adds j.old (placed (λ i. put_stripe i t.0) marks.now) j.new }
{
    push_marked(marks, |i| Put::Stripe(i, t), Store::STRIPES, j);
}

// The guards of the marked partitions.
pub fn push_partitions(marks: &[bool; RowId::PARTITIONS], t: Txid, j: &mut Journal)
    ensures { Adds j.old (placed (λ i. put_partition i t.0) marks.now) j.new }
{
    push_marked(marks, |i| Put::Partition(i, t), RowId::PARTITIONS, j);
}

// The first `limit` stamps of the marked stripes.
pub fn push_stamps(marks: &[bool; Store::STRIPES], t: Txid, limit: usize, j: &mut Journal)
    ensures { Adds j.old (take limit (placed (λ i. put_stamp i t.0) marks.now)) j.new }
{
    push_marked(marks, |i| Put::Stamp(i, t), limit, j);
}

// The first `limit` frees of the marked slots.
pub fn push_frees(marks: &[bool; SlotPtr::PLACES], limit: usize, j: &mut Journal)
    ensures { Adds j.old (take limit (frees_at marks.now)) j.new }
{
    push_marked(marks, |p| Put::Free(SlotPtr(p as u32)), limit, j);
}

// The marked slots freed, then the txid dropped.
pub fn push_abort(own: &[bool; SlotPtr::PLACES], t: Txid, j: &mut Journal)
    ensures { Adds j.old (frees_at own.now ++ put_drop t.0 ∷ []) j.new }
{
    push_frees(own, SlotPtr::PLACES, j);
    j.push(Put::Drop(t));
}
