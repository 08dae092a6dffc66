// The steps of commit in upstream's order, to the first that ends the run.

ghost use Rattle.std.specs.Prelude.{◌≡◌};
ghost use Rattle.rules.specs.Types.{Store};
ghost use Rattle.rules.specs.Lists.{first_true};
ghost use Rattle.rules.specs.Tests.{index_read_conflict, row_lock_conflict, serialization_conflict, write_base_conflict};
ghost use Rattle.commit_tests.specs.Conflicts.{Lends};
ghost use Rattle.commit_tests.specs.Striking.{letter_in};
ghost use Rattle.steps.specs.GateTable.{changes_failed, index_guards_failed, index_reads_failed, insert_failed};
ghost use Rattle.steps.specs.Places.{end_place};
ghost use Rattle.steps.specs.Stops.{gate_from, opening_tests, guarding_tests, conflict_tests, closing_tests, gate_tests};
ghost use Rattle.steps.specs.Ended.{stop_place, Told};

use super::gate::Gate;
use super::gates;
use super::stop::Stop;
use commit_tests::faults::Letters;
use records::{Store, Tx};

// Steps 1 to 6: nothing is taken yet.
fn opening(l: &Letters, logged: bool) -> Result<(), Gate>
    ensures { end_place result ≡ gate_from changes_failed (opening_tests (letter_in l.now) logged) }
{
    gates::ensure_open()?;
    gates::final_write_indices()?;
    gates::index_changes(l)?;
    gates::index_lock_keys(l)?;
    gates::prepare_commit_record(l, logged)?;
    gates::run_prepare(l, logged)
}

// Steps 7 to 10: guards and health.
fn guarding(l: &Letters, logged: bool, writing: bool, s: &Store) -> Result<(), Gate>
    ensures { end_place result ≡ gate_from index_guards_failed (guarding_tests (letter_in l.now) logged writing s.now.bound s.now.poisoned) }
{
    gates::acquire_index_locks(l)?;
    gates::acquire_partition_locks(l)?;
    gates::ensure_unlogged_write_allowed(l, logged, writing, s.bound)?;
    gates::check_not_poisoned(l, s.poisoned)
}

// Steps 11 to 14: the four tests; a test is made only if those before it said no.
fn testing(l: &Letters, s: &Store, x: &Tx) -> Result<(), Stop>
    ensures { (S : Store)
        → Lends S s.now.stamps s.now.heads s.now.locked s.now.owner s.now.active s.now.xmin s.now.xmax
        → (stop_place result ≡ gate_from index_reads_failed
        (conflict_tests (letter_in l.now) (index_read_conflict S x.now) (row_lock_conflict S x.now)
        (serialization_conflict S x.now) (write_base_conflict S x.now)))
        × Told S x.now result }
{
    gates::index_read_conflict(l, s, x)?;
    gates::has_row_lock_conflict(l, s, x)?;
    gates::has_serialization_conflict(l, s, x)?;
    gates::has_write_base_conflict(l, s, x)
}

// Steps 15 to 22: the changes.
fn closing(l: &Letters, logged: bool) -> Result<(), Gate>
    ensures { end_place result ≡ gate_from insert_failed (closing_tests (letter_in l.now) logged) }
{
    gates::prepare_index_destinations(l)?;
    gates::invoke_before_publish(l, logged)?;
    gates::remove_index_sources(l)?;
    gates::publish_write_set(l)?;
    gates::recycle_non_final_writes(l)?;
    gates::flush_local_recycle_caches()?;
    gates::finish_transaction(l)?;
    gates::publish_index_stamps(l)
}

// The first gate whose test holds ends the run, with the cause of its place: only at a test's two gates is it not a busy guard.
pub fn first_gate(l: &Letters, logged: bool, writing: bool, s: &Store, x: &Tx) -> Result<(), Stop>
    ensures { (S : Store)
        → Lends S s.now.stamps s.now.heads s.now.locked s.now.owner s.now.active s.now.xmin s.now.xmax
        → (stop_place result ≡ first_true (gate_tests (letter_in l.now) logged writing s.now.bound s.now.poisoned
        (index_read_conflict S x.now) (row_lock_conflict S x.now) (serialization_conflict S x.now) (write_base_conflict S x.now)))
        × Told S x.now result }
{
    opening(l, logged)?;
    guarding(l, logged, writing, s)?;
    testing(l, s, x)?;
    Ok(closing(l, logged)?)
}
