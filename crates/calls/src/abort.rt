// Abort.

ghost use Rattle.std.specs.Prelude.{◌≡◌};
ghost use Rattle.rules.specs.Chains.{walk};
ghost use Rattle.rules.specs.Calls.{abort};
ghost use Rattle.journal.specs.Adds.{Adds};
ghost use Rattle.fields.specs.Lent.{at_rows, at_places};
ghost use Rattle.visibility.specs.OwnMarks.{abort_puts_of};

use admit::admission::admitted_marked;
use journal::Journal;
use journal::at_marks::push_abort;
use recording::changed::only_txid;
use records::{Refusal, Reply, SlotPtr, Store, Tx, Txid};
use visibility::own_slots::own_marks;

// Frees, rising, every off-chain slot of t, then drops it from the active list.
fn plan_abort(s: &Store, seen: &[u8; SlotPtr::PLACES], t: Txid, j: &mut Journal)
    ensures { seen.now ≡ (walk (at_rows s.now.heads) (at_places s.now.next)).seen
        → Adds j.old (abort_puts_of (at_rows s.now.heads) (at_places s.now.next) (at_places s.now.xmin) t.0) j.new }
{
    let own = own_marks(&s.xmin, seen, t);
    push_abort(&own, t, j);
}

// Frees the transaction's slots by the marks of the admission's walk, drops it, and zeroes it but for its txid; also on a poisoned store.
pub fn abort(s: Store, x: Tx) -> Reply
    ensures { result ≡ abort s x }
{
    let mut seen = [0; SlotPtr::PLACES];
    if let Err(why) = admitted_marked(&s, &x, true, &mut seen) {
        return Reply {
            refusal: why,
            store: s,
            tx: x,
        };
    }
    let mut j = Journal::new();
    plan_abort(&s, &seen, x.txid, &mut j);
    let t = j.apply(s, j.len());
    let y = only_txid(x.txid);
    Reply {
        refusal: Refusal::Done,
        store: t,
        tx: y,
    }
}
