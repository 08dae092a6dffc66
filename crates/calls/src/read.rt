// Read.

ghost use Rattle.std.specs.Prelude.{◌≡◌};
ghost use Rattle.rules.specs.Calls.{read};
ghost use Rattle.admit.specs.Admission.{as_result};
ghost use Rattle.calls.specs.Refused.{unless, first_tries};
ghost use Rattle.calls.specs.ReadAnswer.{read_tries};

use super::refusal::healthy;
use admit::admission::refuse;
use recording::changed::with_reads;
use recording::reads::with_read;
use records::{Fate, Refusal, RowId, Seen, Store, Tx, Value};
use visibility::found::read_ptr;
use visibility::slots::value_at;

// Numbers 1, 2, 3, 9, 23 and 24.
fn read_refusal(s: &Store, x: &Tx, r: RowId, over: bool) -> Result<(), Refusal>
    ensures { result ≡ as_result (unless (first_tries s.now x.now) (read_tries r.0 over)) }
{
    healthy(s, x)?;
    refuse(RowId::ROWS <= r.0, Refusal::RowTooHigh(Fate::Open))?;
    refuse(over, Refusal::ReadsFull(Fate::Open))
}

// The value of the last own write, else of the first visible version, which is recorded.
pub fn read(s: Store, x: Tx, r: RowId) -> Seen
    ensures { result ≡ read s x r.0 }
{
    let reads = with_read(&s, &x, r).ok();
    if let Err(why) = read_refusal(&s, &x, r, reads.is_none()) {
        return Seen {
            refusal: why,
            value: Value::Absent,
            tx: x,
        };
    }
    let Some(l) = reads else {
        // 24 was tried
        unreachable!()
    };
    let v = value_at(&s, read_ptr(&s, &x, r));
    let y = with_reads(&x, l);
    Seen {
        refusal: Refusal::Done,
        value: v,
        tx: y,
    }
}
