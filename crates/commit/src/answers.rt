// The answers of commit.

ghost use Rattle.std.specs.Prelude.{◌≡◌};
ghost use Rattle.rules.specs.Answer.{unchanged};
ghost use Rattle.commit_tests.specs.FinalTurns.{finals_laid};
ghost use Rattle.commit.specs.Run.{stop_at, cut_answer, whole_answer};

use commit_tests::faults::Letters;
use commit_tests::finals::Finals;
use records::{Answer, Cut, Fate, Refusal, Store, Tx};
use steps::answers::{events_of, record_of};
use steps::ends::{ending_at, tx_left};
use steps::gate::{Gate, passed_at};
use steps::none::{no_events, no_record};
use steps::stop::{Stop, place};

// All unchanged.
pub fn unchanged(s: Store, x: Tx, why: Refusal) -> Answer
    ensures { result ≡ unchanged s x why }
{
    Answer {
        refusal: why,
        record: no_record(),
        store: s,
        tx: x,
        events: no_events(),
        stores: 0,
    }
}

// How many of n stores are made.
pub fn stop_at(cut: Cut, n: usize) -> usize
    ensures { result ≡ stop_at cut n }
{
    match cut {
        Cut::Uncut => n,
        Cut::After(k) => n.min(k as usize),
    }
}

// Number 18, after n stores.
pub fn cut_answer(t: Store, n: usize) -> Answer
    ensures { result ≡ cut_answer t n }
{
    Answer {
        refusal: Refusal::CutOff(Fate::Closed),
        record: no_record(),
        store: t,
        tx: Tx::zero(),
        events: no_events(),
        stores: n,
    }
}

// The answer of a run that ended there, with all its n stores. Eight parameters stay: each is of another step of the run, and they meet here alone.
pub fn whole_answer(
    t: Store,
    x: &Tx,
    finals: &Finals,
    logged: bool,
    bound: bool,
    l: &Letters,
    stop: Result<(), Stop>,
    n: usize,
) -> Answer
    ensures { finals.now ≡ finals_laid x.now → result ≡ whole_answer t x.now logged bound l.now stop n }
{
    let end = ending_at(stop, l);
    let gate = place(stop);
    Answer {
        refusal: end.refusal,
        record: record_of(Gate::CLEAN <= gate, x, finals),
        store: t,
        tx: tx_left(stop, l, x),
        events: events_of(logged, bound, 0 < finals.count, passed_at(gate), &end),
        stores: n,
    }
}
