// Refusals: the first test that holds says why.

ghost use Rattle.std.specs.Prelude.{◌≡◌};
ghost use Rattle.rules.specs.Store.{impossible};
ghost use Rattle.admit.specs.Admission.{as_result};
ghost use Rattle.calls.specs.Refused.{first_tries};

use admit::admission::{admitted, refuse};
use records::{Fate, Refusal, Store, Tx, Value};

// Numbers 1, 2, 3 and 9.
pub fn healthy(s: &Store, x: &Tx) -> Result<(), Refusal>
    ensures { result ≡ as_result (first_tries s.now x.now) }
{
    admitted(s, x, true)?;
    refuse(s.poisoned, Refusal::FoundPoisoned(Fate::Open))
}

// A key over the last minute of the year.
pub fn impossible(v: Value) -> bool
    ensures { result ≡ impossible v }
{
    matches!(v, Value::Key(k) if Value::LAST_MINUTE < k)
}
