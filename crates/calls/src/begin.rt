// Begin.

ghost use Rattle.std.specs.Prelude.{◌≡◌, ◌<◌};
ghost use Rattle.records.specs.Limits.{clock_end};
ghost use Rattle.rules.specs.Admitted.{resting};
ghost use Rattle.rules.specs.Calls.{begin};
ghost use Rattle.journal.specs.Adds.{Adds};
ghost use Rattle.fields.specs.Lent.{at_active};
ghost use Rattle.admit.specs.Admission.{as_result};
ghost use Rattle.calls.specs.BeginAnswer.{begin_tries, begin_puts, begun_of};

use admit::admission::refuse;
use journal::{Journal, Put};
use records::{Fate, Refusal, Reply, SlotPtr, Store, Tx, Txid};
use resting::rest::resting_marked;
use visibility::active::{active_count, oldest_active};

// Numbers 1, 9, 21 and 22.
#[tactic(auto, unfolding(crate::specs::BeginAnswer::begin_tries))]
fn begin_refusal(s: &Store) -> Result<(), Refusal>
    ensures { result ≡ as_result (begin_tries (resting s.now) s.now.poisoned (at_active s.now.active) s.now.clock) }
{
    let mut seen = [0; SlotPtr::PLACES];
    refuse(
        !resting_marked(s, &mut seen),
        Refusal::NotResting(Fate::Open),
    )?;
    refuse(s.poisoned, Refusal::FoundPoisoned(Fate::Open))?;
    refuse(
        Txid::ACTIVE <= active_count(&s.active),
        Refusal::ActiveFull(Fate::Open),
    )?;
    refuse(u64::MAX <= s.clock, Refusal::ClockAtEnd(Fate::Open))
}

// The transaction that begins: its snapshot is the earlier active list.
fn begun(s: &Store) -> Tx
    ensures { result ≡ begun_of s.now.active s.now.clock }
{
    let clock = s.clock;
    Tx {
        txid: Txid(clock),
        snapshot_xmin: Txid(oldest_active(&s.active, clock)),
        snapshot_xmax: Txid(clock),
        snapshot: s.active,
        snapshot_count: active_count(&s.active),
        ..Tx::zero()
    }
}

// The txid enters the active list, and the clock rises.
fn plan_begin(clock: u64, j: &mut Journal)
    requires { clock < clock_end }
    ensures { Adds j.old (begin_puts clock) j.new }
{
    j.push(Put::Enter(Txid(clock)));
    j.push(Put::Clock(clock + 1));
}

// Txid and snapshot_xmax are the clock, which then rises.
pub fn begin(s: Store) -> Reply
    ensures { result ≡ begin s }
{
    if let Err(why) = begin_refusal(&s) {
        return Reply {
            refusal: why,
            store: s,
            tx: Tx::zero(),
        };
    }
    let mut j = Journal::new();
    plan_begin(s.clock, &mut j);
    let x = begun(&s);
    let t = j.apply(s, j.len());
    Reply {
        refusal: Refusal::Done,
        store: t,
        tx: x,
    }
}
