// Publication, write by write.

ghost use Rattle.std.specs.Prelude.{◌≡◌, take};
ghost use Rattle.rules.specs.Lists.{flat};
ghost use Rattle.rules.specs.Changes.{publish_one};
ghost use Rattle.journal.specs.Adds.{Adds};
ghost use Rattle.commit.specs.Plan.Publish.{size_of};

use journal::{Journal, Put};
use records::{SlotPtr, Txid, Write};

// How many puts the publication of a write is.
fn size_of(w: Write) -> usize
    ensures { result ≡ size_of w }
{
    if w.base == SlotPtr::NULL { 1 } else { 2 }
}

// The publication of one write, and no more than `limit` puts of it: a nonzero base's xmax, then the head.
fn push_write(w: Write, t: Txid, limit: usize, j: &mut Journal)
    ensures { Adds j.old (take limit (publish_one t.0 w)) j.new }
{
    if limit == 0 {
        return;
    }
    if w.base == SlotPtr::NULL {
        j.push(Put::Head(w.row, w.new));
        return;
    }
    j.push(Put::Xmax(w.base, t));
    if 1 < limit {
        j.push(Put::Head(w.row, w.new));
    }
}

// The publication of these writes, and no more than `limit` puts of it.
pub(crate) fn push_writes(writes: &[Write], t: Txid, limit: usize, j: &mut Journal)
    ensures { Adds j.old (take limit (flat (publish_one t.0) writes.now)) j.new }
{
    // counted, and no `take` of a chain: a write is one put or two
    let mut left = limit;
    for w in writes {
        push_write(*w, t, left, j);
        left = left.saturating_sub(size_of(*w));
    }
}
