// The transaction's own writes.

ghost use Rattle.std.specs.Prelude.{◌≡◌, take};
ghost use Rattle.rules.specs.Transaction.{last_own, writes_of};

use records::{RowId, SlotPtr, Tx, Write};

// The last own write of a row; `Write::NONE`, whose new pointer is null, if there is none: the definition's answer then, by the paper's null pointer.
pub fn last_own(x: &Tx, r: RowId) -> Write
    ensures { result ≡ last_own r.0 (writes_of x.now) }
{
    last_in(&x.writes, x.write_count, r)
}

// The same of the first `count` writes, going back: an earlier one counts only as long as no later one has a slot. By itself, since the length of
// a lent array is known where it is a parameter.
fn last_in(writes: &[Write; Tx::WRITES], count: usize, r: RowId) -> Write
    ensures { result ≡ last_own r.0 (take count writes.now) }
{
    let n = count.min(Tx::WRITES);
    writes[..n].iter().rev().fold(Write::NONE, |own, w| {
        if own.new != SlotPtr::NULL {
            own
        } else if w.row == r {
            *w
        } else {
            Write::NONE
        }
    })
}
