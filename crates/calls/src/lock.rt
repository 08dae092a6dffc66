// Row lock.

ghost use Rattle.std.specs.Prelude.{◌≡◌, [], ◌∷◌};
ghost use Rattle.rules.specs.Calls.{row_lock};
ghost use Rattle.admit.specs.Admission.{as_result};
ghost use Rattle.calls.specs.Refused.{unless, first_tries};
ghost use Rattle.calls.specs.LockAnswer.{lock_tries};

use super::refusal::healthy;
use admit::admission::refuse;
use fields::lent::head_of;
use fields::locks::locked_by_another;
use journal::{Journal, Put};
use records::{Fate, Refusal, Reply, RowId, SlotPtr, Store, Tx};

// Numbers 1, 2, 3, 9, 23, 27 and 28.
fn lock_refusal(s: &Store, x: &Tx, r: RowId, head: SlotPtr, locked: bool) -> Result<(), Refusal>
    ensures { result ≡ as_result (unless (first_tries s.now x.now) (lock_tries r.0 locked head.0)) }
{
    healthy(s, x)?;
    refuse(RowId::ROWS <= r.0, Refusal::RowTooHigh(Fate::Open))?;
    refuse(locked, Refusal::LockedByAnother(Fate::Open))?;
    refuse(head == SlotPtr::NULL, Refusal::NoHead(Fate::Open))
}

// Locks the head of a row; a lock whose owner isn't active is void.
pub fn row_lock(s: Store, x: Tx, r: RowId) -> Reply
    ensures { result ≡ row_lock s x r.0 }
{
    let head = head_of(&s.heads, r);
    let locked = locked_by_another(&s, x.txid, head);
    if let Err(why) = lock_refusal(&s, &x, r, head, locked) {
        return Reply {
            refusal: why,
            store: s,
            tx: x,
        };
    }
    let mut j = Journal::new();
    j.push(Put::Lock(head, x.txid));
    let t = j.apply(s, j.len());
    Reply {
        refusal: Refusal::Done,
        store: t,
        tx: x,
    }
}
