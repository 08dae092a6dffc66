// Write.

ghost use Rattle.std.specs.Prelude.{◌≡◌, eqb};
ghost use Rattle.rules.specs.Store.{impossible};
ghost use Rattle.rules.specs.Puts.{take_slot};
ghost use Rattle.rules.specs.Calls.{write};
ghost use Rattle.journal.specs.Adds.{Adds};
ghost use Rattle.admit.specs.Admission.{as_result};
ghost use Rattle.calls.specs.Refused.{unless, first_tries};
ghost use Rattle.calls.specs.WriteAnswer.{write_tries};

use super::refusal::{healthy, impossible};
use admit::admission::refuse;
use journal::{Journal, Put};
use recording::changed::with_write;
use records::{Fate, Refusal, RowId, SlotPtr, Store, Tx, Txid, Value, Write, Written};
use visibility::found::base_of;
use visibility::slots::lowest_free;

// Numbers 1, 2, 3, 9, 23, 25, 31 and 26.
fn write_refusal(s: &Store, x: &Tx, r: RowId, v: Value, free: SlotPtr) -> Result<(), Refusal>
    ensures { result ≡ as_result (unless (first_tries s.now x.now) (write_tries r.0 x.now.write_count (impossible v) (eqb free.0 0))) }
{
    healthy(s, x)?;
    refuse(RowId::ROWS <= r.0, Refusal::RowTooHigh(Fate::Open))?;
    refuse(Tx::WRITES <= x.write_count, Refusal::WritesFull(Fate::Open))?;
    refuse(impossible(v), Refusal::ImpossibleMinute(Fate::Open))?;
    refuse(free == SlotPtr::NULL, Refusal::SlotsFull(Fate::Open))
}

// The slot taken for a version of t over its base.
fn plan_write(slot: SlotPtr, t: Txid, base: SlotPtr, v: Value, j: &mut Journal)
    ensures { Adds j.old (take_slot slot.0 t.0 base.0 v) j.new }
{
    j.push(Put::Xmin(slot, t));
    j.push(Put::Next(slot, base));
    if let Value::Key(k) = v {
        j.push(Put::Key(slot, k));
    }
}

// Takes the lowest free slot for a new version over the found one, and records no read.
pub fn write(s: Store, x: Tx, r: RowId, v: Value) -> Written
    ensures { result ≡ write s x r.0 v }
{
    let free = lowest_free(&s.xmin);
    if let Err(why) = write_refusal(&s, &x, r, v, free) {
        return Written {
            refusal: why,
            slot: SlotPtr::NULL,
            store: s,
            tx: x,
        };
    }
    let base = base_of(&s, &x, r);
    let mut j = Journal::new();
    plan_write(free, x.txid, base, v, &mut j);
    let y = with_write(
        &x,
        Write {
            row: r,
            base,
            new: free,
        },
    );
    let t = j.apply(s, j.len());
    Written {
        refusal: Refusal::Done,
        slot: free,
        store: t,
        tx: y,
    }
}
