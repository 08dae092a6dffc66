// Lookup.

ghost use Rattle.std.specs.Prelude.{◌≡◌, List, Some};
ghost use Rattle.rules.specs.Types.{ReadRecord};
ghost use Rattle.rules.specs.Calls.{lookup};
ghost use Rattle.fields.specs.Lent.{at_stripes};
ghost use Rattle.recording.specs.ReadList.{reads_within};
ghost use Rattle.admit.specs.Admission.{as_result};
ghost use Rattle.calls.specs.Refused.{unless, first_tries};
ghost use Rattle.calls.specs.LookupAnswer.{minute_tries, none_found, looked};

use super::refusal::{healthy, impossible};
use admit::admission::refuse;
use recording::candidates::candidates;
use recording::changed::{with_index_reads, with_reads};
use recording::lookup::{matching, record_marked};
use recording::reads::ReadList;
use recording::stamps::{index_conflict, record_stamp, stamp_of};
use records::{Fate, Found, Refusal, RowId, Store, Tx, Value};

// Numbers 1, 2, 3, 9 and 31.
fn lookup_refusal(s: &Store, x: &Tx, k: u32) -> Result<(), Refusal>
    ensures { result ≡ as_result (unless (first_tries s.now x.now) (minute_tries k)) }
{
    healthy(s, x)?;
    refuse(
        impossible(Value::Key(k)),
        Refusal::ImpossibleMinute(Fate::Open),
    )
}

// Refused: no row is found, and the transaction is as it was.
fn none_found(why: Refusal, x: Tx) -> Found
    ensures { result ≡ none_found x why }
{
    Found {
        refusal: why,
        rows: [RowId(0); RowId::ROWS],
        count: 0,
        tx: x,
    }
}

// The transaction with its reads those of the list, and the stamp of the key's stripe recorded.
fn looked(s: &Store, x: &Tx, l: ReadList, k: u32) -> Tx
    ensures { (m : List ReadRecord) → Some l ≡ reads_within m → result ≡ looked (at_stripes s.now.stamps) x.now m k }
{
    let t = stamp_of(s, k);
    let q = record_stamp(x, k % (Store::STRIPES as u32), t);
    let conflict = index_conflict(x, t);
    let y = with_reads(x, l);
    with_index_reads(&y, q, conflict)
}

// The rows whose read value is the key, rising; every candidate is recorded as by a read. The postings are searched once the store is known to rest,
// unpoisoned, so they rise.
pub fn lookup(s: Store, x: Tx, k: u32) -> Found
    ensures { result ≡ lookup s x k }
{
    if let Err(why) = lookup_refusal(&s, &x, k) {
        return none_found(why, x);
    }
    let marks = candidates(&s, &x, k);
    let Ok(l) = record_marked(&s, &marks, &x) else {
        return none_found(Refusal::ReadsFull(Fate::Open), x);
    };
    let found = matching(&s, &marks, &x, k);
    let y = looked(&s, &x, l, k);
    let rows = found.at;
    Found {
        refusal: Refusal::Done,
        rows,
        count: found.count,
        tx: y,
    }
}
