// The steps of commit, each ending the run at a gate or not.

ghost use Rattle.std.specs.Prelude.{◌≡◌, not, ◌&&◌, ◌||◌, [], ◌∷◌};
ghost use Rattle.rules.specs.Faults.{F, B, P};
ghost use Rattle.steps.specs.GateTable.{changes_failed, lock_keys_failed, record_failed, prepare_failed, index_guards_failed, partition_guards_failed};
ghost use Rattle.steps.specs.GateTable.{unlogged_check_failed, found_poison, index_reads_failed, row_locks_failed, serialization_failed, write_base_failed};
ghost use Rattle.steps.specs.GateTable.{insert_failed, callback_ended, remove_failed, publish_failed, recycle_failed, finish_failed, stamp_failed, clean_gate};
ghost use Rattle.commit_tests.specs.Conflicts.{Lends, place_told};
ghost use Rattle.commit_tests.specs.Striking.{letter_in};
ghost use Rattle.steps.specs.Places.{end_place};
ghost use Rattle.steps.specs.Ended.{stop_place, Told};
ghost use Rattle.rules.specs.Types.{Store};
ghost use Rattle.rules.specs.Tests.{index_read_conflict, row_lock_conflict, serialization_conflict, write_base_conflict};
ghost use Rattle.steps.specs.Stops.{gate_from, hits, ends_callback};

use super::gate::Gate;
use super::stop::{Stop, stop_if, stop_tested};
use commit_tests::conflicts;
use commit_tests::faults::Letters;
use records::{Cause, Store, Tx};

// Step 1: that the transaction is open was tried before the steps.
pub(crate) fn ensure_open() -> Result<(), Gate>
    ensures { end_place result ≡ clean_gate }
{
    Ok(())
}

// Step 2 has no fault.
pub(crate) fn final_write_indices() -> Result<(), Gate>
    ensures { end_place result ≡ clean_gate }
{
    Ok(())
}

// Steps 3 and 4.
pub(crate) fn index_changes(l: &Letters) -> Result<(), Gate>
    ensures { end_place result ≡ gate_from changes_failed (hits (letter_in l.now) 3 F ∷ []) }
{
    stop_if(l.strikes(3, b'F'), Gate::ChangesFailed)
}

pub(crate) fn index_lock_keys(l: &Letters) -> Result<(), Gate>
    ensures { end_place result ≡ gate_from lock_keys_failed (hits (letter_in l.now) 4 F ∷ []) }
{
    stop_if(l.strikes(4, b'F'), Gate::LockKeysFailed)
}

// Steps 5 and 6, logged only.
pub(crate) fn prepare_commit_record(l: &Letters, logged: bool) -> Result<(), Gate>
    ensures { end_place result ≡ gate_from record_failed ((logged && hits (letter_in l.now) 5 F) ∷ []) }
{
    stop_if(logged && l.strikes(5, b'F'), Gate::RecordFailed)
}

pub(crate) fn run_prepare(l: &Letters, logged: bool) -> Result<(), Gate>
    ensures { end_place result ≡ gate_from prepare_failed ((logged && hits (letter_in l.now) 6 F) ∷ (logged && hits (letter_in l.now) 6 P) ∷ []) }
{
    stop_if(logged && l.strikes(6, b'F'), Gate::PrepareFailed)?;
    stop_if(logged && l.strikes(6, b'P'), Gate::PreparePanicked)
}

// Steps 7 and 8 strike before any guard is taken.
pub(crate) fn acquire_index_locks(l: &Letters) -> Result<(), Gate>
    ensures { end_place result ≡ gate_from index_guards_failed (hits (letter_in l.now) 7 F ∷ hits (letter_in l.now) 7 B ∷ []) }
{
    stop_if(l.strikes(7, b'F'), Gate::IndexGuardsFailed)?;
    stop_if(l.strikes(7, b'B'), Gate::IndexGuardsBusy)
}

pub(crate) fn acquire_partition_locks(l: &Letters) -> Result<(), Gate>
    ensures { end_place result ≡ gate_from partition_guards_failed (hits (letter_in l.now) 8 F ∷ hits (letter_in l.now) 8 B ∷ []) }
{
    stop_if(l.strikes(8, b'F'), Gate::PartitionGuardsFailed)?;
    stop_if(l.strikes(8, b'B'), Gate::PartitionGuardsBusy)
}

// Step 9, unlogged with writes only.
pub(crate) fn ensure_unlogged_write_allowed(
    l: &Letters,
    logged: bool,
    writing: bool,
    bound: bool,
) -> Result<(), Gate>
    ensures { end_place result
        ≡ gate_from unlogged_check_failed (((not logged && writing) && hits (letter_in l.now) 9 F) ∷ ((not logged && writing) && bound) ∷ []) }
{
    let asked = !logged && writing;
    stop_if(asked && l.strikes(9, b'F'), Gate::UnloggedCheckFailed)?;
    stop_if(asked && bound, Gate::DurablyBound)
}

// Step 10: the fault strikes before the store is looked at.
pub(crate) fn check_not_poisoned(l: &Letters, poisoned: bool) -> Result<(), Gate>
    ensures { end_place result ≡ gate_from found_poison ((hits (letter_in l.now) 10 F || poisoned) ∷ []) }
{
    stop_if(l.strikes(10, b'F') || poisoned, Gate::Poisoned)
}

// The place that a test tells: of the first entry that conflicts, or past them all.
fn place_told(test: Result<usize, usize>) -> usize
    ensures { result ≡ place_told test }
{
    match test {
        Ok(n) => n,
        Err(i) => i,
    }
}

// Steps 11 to 14: the fault strikes before the test's answer is looked at.
pub(crate) fn index_read_conflict(l: &Letters, s: &Store, x: &Tx) -> Result<(), Stop>
    ensures { (S : Store)
        → Lends S s.now.stamps s.now.heads s.now.locked s.now.owner s.now.active s.now.xmin s.now.xmax
        → (stop_place result ≡ gate_from index_reads_failed (hits (letter_in l.now) 11 F ∷ index_read_conflict S x.now ∷ []))
        × Told S x.now result }
{
    let test = conflicts::index_read_conflict(s, x);
    stop_tested(
        l.strikes(11, b'F'),
        Gate::IndexReadsFailed,
        test.is_err(),
        Gate::IndexReadsConflict,
        Cause::IndexReadAt(place_told(test)),
    )
}

pub(crate) fn has_row_lock_conflict(l: &Letters, s: &Store, x: &Tx) -> Result<(), Stop>
    ensures { (S : Store)
        → Lends S s.now.stamps s.now.heads s.now.locked s.now.owner s.now.active s.now.xmin s.now.xmax
        → (stop_place result ≡ gate_from row_locks_failed (hits (letter_in l.now) 12 F ∷ row_lock_conflict S x.now ∷ []))
        × Told S x.now result }
{
    let test = conflicts::has_row_lock_conflict(s, x);
    stop_tested(
        l.strikes(12, b'F'),
        Gate::RowLocksFailed,
        test.is_err(),
        Gate::RowLocksConflict,
        Cause::RowLockAt(place_told(test)),
    )
}

pub(crate) fn has_serialization_conflict(l: &Letters, s: &Store, x: &Tx) -> Result<(), Stop>
    ensures { (S : Store)
        → Lends S s.now.stamps s.now.heads s.now.locked s.now.owner s.now.active s.now.xmin s.now.xmax
        → (stop_place result ≡ gate_from serialization_failed (hits (letter_in l.now) 13 F ∷ serialization_conflict S x.now ∷ []))
        × Told S x.now result }
{
    let test = conflicts::has_serialization_conflict(s, x);
    stop_tested(
        l.strikes(13, b'F'),
        Gate::SerializationFailed,
        test.is_err(),
        Gate::SerializationConflict,
        Cause::SerializationAt(place_told(test)),
    )
}

pub(crate) fn has_write_base_conflict(l: &Letters, s: &Store, x: &Tx) -> Result<(), Stop>
    ensures { (S : Store)
        → Lends S s.now.stamps s.now.heads s.now.locked s.now.owner s.now.active s.now.xmin s.now.xmax
        → (stop_place result ≡ gate_from write_base_failed (hits (letter_in l.now) 14 F ∷ write_base_conflict S x.now ∷ []))
        × Told S x.now result }
{
    let test = conflicts::has_write_base_conflict(s, x);
    stop_tested(
        l.strikes(14, b'F'),
        Gate::WriteBaseFailed,
        test.is_err(),
        Gate::WriteBaseConflict,
        Cause::WriteBaseAt(place_told(test)),
    )
}

// Step 15.
pub(crate) fn prepare_index_destinations(l: &Letters) -> Result<(), Gate>
    ensures { end_place result ≡ gate_from insert_failed (hits (letter_in l.now) 15 F ∷ []) }
{
    stop_if(l.strikes(15, b'F'), Gate::InsertFailed)
}

// A letter at step 16 that ends the run: any that the step allows.
fn ends_callback(letter: u8) -> bool
    ensures { result ≡ ends_callback letter }
{
    matches!(letter, b'F' | b'X' | b'P' | b'Q')
}

// Step 16, logged only.
pub(crate) fn invoke_before_publish(l: &Letters, logged: bool) -> Result<(), Gate>
    ensures { end_place result ≡ gate_from callback_ended ((logged && ends_callback (letter_in l.now 16)) ∷ []) }
{
    stop_if(logged && ends_callback(l.letter(16)), Gate::CallbackEnded)
}

// Steps 17 to 19, 21 and 22.
pub(crate) fn remove_index_sources(l: &Letters) -> Result<(), Gate>
    ensures { end_place result ≡ gate_from remove_failed (hits (letter_in l.now) 17 F ∷ []) }
{
    stop_if(l.strikes(17, b'F'), Gate::RemoveFailed)
}

pub(crate) fn publish_write_set(l: &Letters) -> Result<(), Gate>
    ensures { end_place result ≡ gate_from publish_failed (hits (letter_in l.now) 18 F ∷ []) }
{
    stop_if(l.strikes(18, b'F'), Gate::PublishFailed)
}

pub(crate) fn recycle_non_final_writes(l: &Letters) -> Result<(), Gate>
    ensures { end_place result ≡ gate_from recycle_failed (hits (letter_in l.now) 19 F ∷ []) }
{
    stop_if(l.strikes(19, b'F'), Gate::RecycleFailed)
}

// Step 20: a fault is ignored.
pub(crate) fn flush_local_recycle_caches() -> Result<(), Gate>
    ensures { end_place result ≡ clean_gate }
{
    Ok(())
}

pub(crate) fn finish_transaction(l: &Letters) -> Result<(), Gate>
    ensures { end_place result ≡ gate_from finish_failed (hits (letter_in l.now) 21 F ∷ []) }
{
    stop_if(l.strikes(21, b'F'), Gate::FinishFailed)
}

pub(crate) fn publish_index_stamps(l: &Letters) -> Result<(), Gate>
    ensures { end_place result ≡ gate_from stamp_failed (hits (letter_in l.now) 22 F ∷ []) }
{
    stop_if(l.strikes(22, b'F'), Gate::StampFailed)
}
