// Admission: numbers 1, 2 and 3, asked once by each call but begin and recovery.

ghost use Rattle.std.specs.Prelude.{◌≡◌, ◌&&◌, cond};
ghost use Rattle.rules.specs.Numbers.{is_done};
ghost use Rattle.rules.specs.Chains.{walk};
ghost use Rattle.fields.specs.Lent.{at_rows, at_places};
ghost use Rattle.admit.specs.Admission.{as_result, tried_by, admitted};

use fields::txids::is_active;
use fitting::tx::fit_of;
use records::{Fate, Refusal, SlotPtr, Store, Tx};
use resting::rest::resting_marked;

// Nothing was refused.
pub fn is_done(why: Refusal) -> bool
    ensures { result ≡ is_done why }
{
    match why {
        Refusal::Done => true,
        _ => false,
    }
}

// Refuses where the test holds.
pub fn refuse(test: bool, why: Refusal) -> Result<(), Refusal>
    ensures { result ≡ cond test (Err why) (Ok tt) }
{
    if test { Err(why) } else { Ok(()) }
}

// The first of 1, 2 and 3 that holds.
#[tactic(auto, unfolding(crate::specs::Admission::tried_by))]
fn tried(rests: bool, fits: bool, planned: bool, active: bool) -> Result<(), Refusal>
    ensures { result ≡ as_result (tried_by rests (fits && planned) active) }
{
    refuse(!rests, Refusal::NotResting(Fate::Open))?;
    refuse(!fits, Refusal::Unfit(Fate::Open))?;
    refuse(!planned, Refusal::Unfit(Fate::Open))?;
    refuse(!active, Refusal::NotActive(Fate::Closed))
}

// The store is at rest, the transaction fit under the marks of the same walk, its schedule fit, and its txid active; `seen` comes back with
// the marks, so that a call which goes by them walks no chain again.
pub fn admitted_marked(
    s: &Store,
    x: &Tx,
    planned: bool,
    seen: &mut [u8; SlotPtr::PLACES],
) -> Result<(), Refusal>
    ensures answer { result ≡ as_result (admitted s.now x.now planned) }
    ensures marks { seen.new ≡ (walk (at_rows s.now.heads) (at_places s.now.next)).seen }
{
    let rests = resting_marked(s, seen);
    let fits = fit_of(s, seen, x);
    let active = is_active(&s.active, x.txid);
    tried(rests, fits, planned, active)
}

// The same of a call that needs no marks.
pub fn admitted(s: &Store, x: &Tx, planned: bool) -> Result<(), Refusal>
    ensures { result ≡ as_result (admitted s.now x.now planned) }
{
    let mut seen = [0; SlotPtr::PLACES];
    admitted_marked(s, x, planned, &mut seen)
}
