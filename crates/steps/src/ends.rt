// How a run of commit ends at each gate.

ghost use Rattle.std.specs.Prelude.{◌≡◌, true, false, cond, ◌||◌};
ghost use Rattle.rules.specs.Types.{Closed, Undone, PrepareFailed, PreparePanicked, Conflict, FoundPoisoned, CallbackFailed, CallbackPanicked, CleanupFailed};
ghost use Rattle.rules.specs.Numbers.{fate};
ghost use Rattle.rules.specs.Faults.{P, X, Q};
ghost use Rattle.records.specs.Zero.{only_txid};
ghost use Rattle.steps.specs.GateTable.{number_at, left_at};
ghost use Rattle.steps.specs.Stops.{hits};
ghost use Rattle.steps.specs.Ended.{stop_place, cause_of};
ghost use Rattle.commit_tests.specs.Striking.{letter_in};
ghost use Rattle.steps.specs.Ends.{stay_ending, abort_ending, insert_ending, callback_ending, spoil_ending, abort_fails, rollback_fails, ending_for, tx_for};

use super::gate::{Left, left_at, number_at};
use super::left::{emptied, no_accesses, no_writes};
use super::stop::{Stop, place};
use commit_tests::faults::Letters;
use recording::changed::only_txid;
use records::{Cause, Fate, Refusal, Tx};

// The refusal, and the four events that don't follow from the steps passed: a step poisons or finds poison, a preparation is to be cleaned up,
// the insertions are undone, the transaction is finished though its commit failed.
#[derive(Clone, Copy)]
pub struct Ending {
    pub refusal: Refusal,
    pub poisoned: bool,
    pub cleanup: bool,
    pub undone: bool,
    pub dropped: bool,
}

// Numbers 0, 4 and 8.
fn stays(why: Refusal) -> Ending
    ensures { result ≡ stay_ending why }
{
    Ending {
        refusal: why,
        poisoned: false,
        cleanup: false,
        undone: false,
        dropped: false,
    }
}

// Numbers 5, 6, 7 and 9, with what is answered instead if the abort failed.
fn aborts(failed: bool, why: Refusal, instead: Refusal, found: bool, preparing: bool) -> Ending
    ensures { result ≡ abort_ending failed why instead found preparing }
{
    let refusal = if failed { instead } else { why };
    Ending {
        poisoned: found || failed,
        cleanup: preparing && failed,
        ..stays(refusal)
    }
}

// Where the abort failed, 5 and 9 become number 19; 6 and 7 stay.
fn prepare_failed(failed: bool) -> Ending
    ensures { result ≡ abort_ending failed (PrepareFailed Closed) (CleanupFailed Undone) false true }
{
    aborts(
        failed,
        Refusal::PrepareFailed(Fate::Closed),
        Refusal::CleanupFailed(Fate::Undone),
        false,
        true,
    )
}

fn prepare_panicked(failed: bool) -> Ending
    ensures { result ≡ abort_ending failed (PreparePanicked Closed) (PreparePanicked Undone) false true }
{
    aborts(
        failed,
        Refusal::PreparePanicked(Fate::Closed),
        Refusal::PreparePanicked(Fate::Undone),
        false,
        true,
    )
}

fn conflict(failed: bool, cause: Cause) -> Ending
    ensures { result ≡ abort_ending failed (Conflict cause Closed) (Conflict cause Undone) false false }
{
    aborts(
        failed,
        Refusal::Conflict(cause, Fate::Closed),
        Refusal::Conflict(cause, Fate::Undone),
        false,
        false,
    )
}

fn found_poisoned(failed: bool, found: bool) -> Ending
    ensures { result ≡ abort_ending failed (FoundPoisoned Closed) (CleanupFailed Undone) found false }
{
    aborts(
        failed,
        Refusal::FoundPoisoned(Fate::Closed),
        Refusal::CleanupFailed(Fate::Undone),
        found,
        false,
    )
}

// Poisoned and undone where the call poisons; closed where the transaction was aborted; else open.
fn fate_of(poisons: bool, aborted: bool) -> Fate
    ensures { result ≡ fate poisons aborted }
{
    match (poisons, aborted) {
        (true, _) => Fate::Undone,
        (false, true) => Fate::Closed,
        (false, false) => Fate::Open,
    }
}

// Number 10.
fn insert_failed(unrolled: bool) -> Ending
    ensures { result ≡ insert_ending unrolled }
{
    Ending {
        poisoned: unrolled,
        ..stays(Refusal::InsertFailed(fate_of(unrolled, false)))
    }
}

// A panic keeps its number; a failure whose cleaning up failed is number 19.
fn callback_refusal(panics: bool, bad: bool, fate: Fate) -> Refusal
    ensures { result ≡ cond panics CallbackPanicked (cond bad CleanupFailed CallbackFailed) fate }
{
    match (panics, bad) {
        (true, _) => Refusal::CallbackPanicked(fate),
        (false, true) => Refusal::CleanupFailed(fate),
        (false, false) => Refusal::CallbackFailed(fate),
    }
}

// Numbers 11 and 12: rolled back, then aborted.
fn callback_ended(worse: bool, panics: bool, unrolled: bool, failed: bool) -> Ending
    ensures { result ≡ callback_ending worse panics unrolled failed }
{
    let bad = unrolled || failed;
    let poisoned = worse || bad;
    let refusal = callback_refusal(panics, bad, fate_of(poisoned, !failed));
    Ending {
        poisoned,
        undone: !unrolled,
        ..stays(refusal)
    }
}

// Numbers 13 to 17.
fn spoils(why: Refusal, drops: bool) -> Ending
    ensures { result ≡ spoil_ending why drops }
{
    Ending {
        poisoned: true,
        dropped: drops,
        ..stays(why)
    }
}

// The refusal and the flags of a run that ends there.
pub fn ending_at(stop: Result<(), Stop>, l: &Letters) -> Ending
    ensures { result ≡ ending_for (letter_in l.now) (cause_of stop) (number_at (stop_place stop)) }
{
    let Err(Stop { gate, cause }) = stop else {
        return stays(Refusal::Done);
    };
    let failed = l.strikes(23, b'F');
    match number_at(gate.place()) {
        4 => stays(Refusal::StepFailed(Fate::Open)),
        5 => prepare_failed(failed),
        6 => prepare_panicked(failed),
        7 => conflict(failed, cause),
        8 => stays(Refusal::BoundDurably(Fate::Open)),
        9 => found_poisoned(failed, !l.strikes(10, b'F')),
        10 => insert_failed(l.strikes(24, b'F')),
        11 => callback_at(l),
        13 => spoils(Refusal::RemoveFailed(Fate::Undone), false),
        14 => spoils(Refusal::PublishFailed(Fate::Undone), !l.strikes(21, b'F')),
        15 => spoils(Refusal::RecycleFailed(Fate::Undone), !l.strikes(21, b'F')),
        16 => spoils(Refusal::FinishFailed(Fate::Undone), false),
        17 => spoils(Refusal::StampFailed(Fate::Standing), false),
        _ => stays(Refusal::Done),
    }
}

fn callback_at(l: &Letters) -> Ending
    ensures { result ≡ callback_ending (hits (letter_in l.now) 16 X || hits (letter_in l.now) 16 Q) (hits (letter_in l.now) 16 P || hits (letter_in l.now) 16 Q)
        (rollback_fails (letter_in l.now)) (abort_fails (letter_in l.now)) }
{
    let worse = l.strikes(16, b'X') || l.strikes(16, b'Q');
    let panics = l.strikes(16, b'P') || l.strikes(16, b'Q');
    callback_ended(worse, panics, l.strikes(24, b'F'), l.strikes(23, b'F'))
}

// What is left of the transaction.
pub fn tx_left(stop: Result<(), Stop>, l: &Letters, x: &Tx) -> Tx
    ensures { result ≡ tx_for (letter_in l.now) x.now (left_at (stop_place stop)) }
{
    match left_at(place(stop)) {
        Left::All => *x,
        Left::ByAbort => aborted(l.strikes(23, b'F'), x),
        Left::NoAccesses => no_accesses(x),
        Left::NoWrites => no_writes(x),
        Left::Emptied => emptied(x),
    }
}

// An abort that failed leaves the transaction's lists.
fn aborted(failed: bool, x: &Tx) -> Tx
    ensures { result ≡ cond failed x.now (only_txid x.now.txid.0) }
{
    if failed { *x } else { only_txid(x.txid) }
}
