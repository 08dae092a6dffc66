// The puts of a run, from the gate that ends it: the stores made up to there, then those that end it.

ghost use Rattle.std.specs.Prelude.{◌≡◌, Bool, true, [], ◌∷◌, ◌≤◌, length, take};
ghost use Rattle.records.specs.Limits.{places, write_limit};
ghost use Rattle.rules.specs.Types.{Store, Tx, Schedule};
ghost use Rattle.rules.specs.Transaction.{finals};
ghost use Rattle.rules.specs.Chains.{walk};
ghost use Rattle.rules.specs.Fit.{fit};
ghost use Rattle.rules.specs.Puts.{put_drop};
ghost use Rattle.rules.specs.Changes.{changes, destinations, index_guards, partition_guards};
ghost use Rattle.rules.specs.Commit.{fails, poison, abort_or_poison, rollback, finish};
ghost use Rattle.journal.specs.Adds.{Adds};
ghost use Rattle.fields.specs.Lent.{at_places, flags_at_places};
ghost use Rattle.steps.specs.GateTable.{partition_guards_failed, unlogged_check_failed, stamp_failed};
ghost use Rattle.commit.specs.Plan.Guards.{guarded_marks, partition_marks};
ghost use Rattle.visibility.specs.OwnMarks.{own_marks};
ghost use Rattle.commit.specs.Plan.Parts.{after, aborts_at, poisons_of, taken, passed, undoes, drops, lets, dies, puts_at};
ghost use Rattle.commit.specs.Plan.Planned.{plan_from, Planned, limit_at, struck_of};

use super::moves::Codes;
use super::{blocks, guards, moves, own};
use journal::{Journal, Put};
use records::{RowId, SlotPtr, Store, Tx, Txid, Write};
use steps::gate::{Gate, Left, left_at};
use visibility::own_slots::own_marks;

// What a commit stores if nothing ends it, besides its final writes, and what it frees if it aborts.
#[derive(Drop)]
pub struct Plan {
    pub txid: Txid,
    pub into: Codes,
    pub out: Codes,
    pub changed: [bool; Store::STRIPES],
    pub stripes: [bool; Store::STRIPES],
    pub partitions: [bool; RowId::PARTITIONS],
    pub own: [bool; SlotPtr::PLACES],
    pub recycled: [bool; SlotPtr::PLACES],
}

// What a schedule says of the stores: how many a failed step makes, and which parts of cleaning up fail.
#[derive(Clone, Copy)]
pub struct Struck {
    pub inserted: usize,
    pub removed: usize,
    pub published: usize,
    pub recycled: usize,
    pub stamped: usize,
    pub rolled: usize,
    pub finish: bool,
    pub abort: bool,
    pub rollback: bool,
    // the callback poisons too
    pub worse: bool,
    // the store is poisoned
    pub poisoned: bool,
}

// The plan of a commit, from the store, the marks of the walk, and the final writes.
pub fn plan_of(s: &Store, seen: &[u8; SlotPtr::PLACES], x: &Tx, writes: &[Write]) -> Plan
    ensures { length writes.now ≤ write_limit
        → result ≡ plan_from (at_places s.now.key) (flags_at_places s.now.has) (at_places s.now.xmin) (at_places seen.now) x.now writes.now }
{
    let moves = moves::index_changes(s, writes);
    let changed = moves.stripes;
    let own = own_marks(&s.xmin, seen, x.txid);
    Plan {
        txid: x.txid,
        into: moves.into,
        out: moves.out,
        changed,
        stripes: guards::guarded_stripes(x, changed),
        partitions: guards::guarded_partitions(x),
        own,
        recycled: own::recycled_marks(own, writes),
    }
}

// How many puts of a block are pushed: none before its own gate, k there, and then all.
fn limit_at(gate: usize, own: usize, k: usize) -> usize
    ensures { result ≡ limit_at gate own k }
{
    if gate < own {
        return 0;
    }
    if gate == own {
        return k;
    }
    Journal::PUTS
}

// The stripes are taken once the partitions' turn has come, the partitions once the check after them has.
fn take_stripes(stripes: &[bool; Store::STRIPES], gate: usize, t: Txid, j: &mut Journal)
    ensures { (S : Store) (x : Tx) → stripes.now ≡ guarded_marks (changes S x) x → fit S x ≡ true
        → Adds j.old (after partition_guards_failed gate (index_guards S x t.0)) j.new }
{
    if Gate::PARTITION_GUARDS_FAILED <= gate {
        blocks::push_index_guards(stripes, t, j);
    }
}

fn take_partitions(partitions: &[bool; RowId::PARTITIONS], gate: usize, t: Txid, j: &mut Journal)
    ensures { (x : Tx) → partitions.now ≡ partition_marks x
        → Adds j.old (after unlogged_check_failed gate (partition_guards x t.0)) j.new }
{
    if Gate::UNLOGGED_CHECK_FAILED <= gate {
        blocks::push_partition_guards(partitions, t, j);
    }
}

fn drop_txid(gate: usize, t: Txid, j: &mut Journal)
    ensures { Adds j.old (after stamp_failed gate (put_drop t.0 ∷ [])) j.new }
{
    if Gate::STAMP_FAILED <= gate {
        j.push(Put::Drop(t));
    }
}

// Guards and postings.
fn push_taken(p: &Plan, s: &Struck, gate: usize, j: &mut Journal)
    ensures { (S : Store) (x : Tx) (logged : Bool) (plan : Schedule) → Planned S x logged plan p.now s.now
        → Adds j.old (taken S x logged plan gate) j.new }
{
    take_stripes(&p.stripes, gate, p.txid, j);
    take_partitions(&p.partitions, gate, p.txid, j);
    blocks::push_insertions(&p.into, limit_at(gate, Gate::INSERT_FAILED, s.inserted), j);
    blocks::push_removals(&p.out, limit_at(gate, Gate::REMOVE_FAILED, s.removed), j);
}

// Rows, the active list and stamps.
fn push_passed(p: &Plan, writes: &[Write], s: &Struck, gate: usize, j: &mut Journal)
    ensures { (S : Store) (x : Tx) (logged : Bool) (plan : Schedule) → Planned S x logged plan p.now s.now → writes.now ≡ finals x
        → Adds j.old (passed S x logged plan gate) j.new }
{
    blocks::push_publication(
        writes,
        p.txid,
        limit_at(gate, Gate::PUBLISH_FAILED, s.published),
        j,
    );
    blocks::push_recycling(
        &p.recycled,
        limit_at(gate, Gate::RECYCLE_FAILED, s.recycled),
        j,
    );
    drop_txid(gate, p.txid, j);
    blocks::push_stamping(
        &p.changed,
        p.txid,
        limit_at(gate, Gate::STAMP_FAILED, s.stamped),
        j,
    );
}

// A store that is poisoned already is not poisoned again.
fn poison_unless(already: bool, j: &mut Journal)
    ensures { Adds j.old (poison already) j.new }
{
    if !already {
        j.push(Put::Poison);
    }
}

// The poison at the gate, or the doom.
fn push_poisons(bad: bool, t: Txid, gate: usize, j: &mut Journal)
    ensures { Adds j.old (poisons_of bad t.0 gate) j.new }
{
    match gate {
        Gate::CALLBACK_ENDED => poison_unless(!bad, j),
        // an arm for each: of numbers joined by `|` a proof learns nothing
        Gate::REMOVE_FAILED => j.push(Put::Poison),
        Gate::STAMP_FAILED => j.push(Put::Poison),
        Gate::PUBLISH_FAILED => j.push(Put::Doom(t)),
        Gate::RECYCLE_FAILED => j.push(Put::Doom(t)),
        Gate::FINISH_FAILED => j.push(Put::Doom(t)),
        _ => {}
    }
}

// The first `made` insertions taken back; where that fails, some of them, and the store is poisoned.
fn roll_back(into: &Codes, made: usize, s: &Struck, already: bool, j: &mut Journal)
    ensures { (S : Store) (x : Tx) (logged : Bool) (plan : Schedule) → into.now ≡ destinations (changes S x) → s.now ≡ struck_of S x logged plan
        → fit S x ≡ true → Adds j.old (rollback S x logged plan already (take made (destinations (changes S x)))).puts j.new }
{
    if s.rollback {
        blocks::push_rollback(into, made, s.rolled, j);
        poison_unless(already, j);
    } else {
        blocks::push_rollback(into, made, Journal::PUTS, j);
    }
}

// The abort; where it fails, the store is poisoned.
fn abort_or_poison(p: &Plan, failing: bool, already: bool, j: &mut Journal)
    ensures { (S : Store) (x : Tx) (logged : Bool) (plan : Schedule) → p.now.own ≡ own_marks S.xmin (walk S.heads S.next).seen p.now.txid.0
        → p.now.txid ≡ x.txid → failing ≡ fails S x logged plan 23 → length S.xmin ≤ places
        → Adds j.old (abort_or_poison S x logged plan already).puts j.new }
{
    if failing {
        poison_unless(already, j);
    } else {
        blocks::push_abort(&p.own, p.txid, j);
    }
}

// Insertions taken back, where a callback or an insertion fails.
fn push_undoes(p: &Plan, s: &Struck, gate: usize, j: &mut Journal)
    ensures { (S : Store) (x : Tx) (logged : Bool) (plan : Schedule) → Planned S x logged plan p.now s.now
        → Adds j.old (undoes S x logged plan gate) j.new }
{
    match gate {
        Gate::INSERT_FAILED => roll_back(&p.into, s.inserted, s, false, j),
        Gate::CALLBACK_ENDED => roll_back(&p.into, Tx::WRITES, s, s.worse, j),
        _ => {}
    }
}

// The drop of the txid, unless it fails.
fn finish(p: &Plan, s: &Struck, j: &mut Journal)
    ensures { (S : Store) (x : Tx) (logged : Bool) (plan : Schedule) → Planned S x logged plan p.now s.now
        → Adds j.old (finish S x logged plan) j.new }
{
    if !s.finish {
        j.push(Put::Drop(p.txid));
    }
}

// The abort of a failed callback; the finish of a failed publication or recycling.
fn push_drops(p: &Plan, s: &Struck, gate: usize, j: &mut Journal)
    ensures { (S : Store) (x : Tx) (logged : Bool) (plan : Schedule) → Planned S x logged plan p.now s.now
        → Adds j.old (drops S x logged plan gate) j.new }
{
    match gate {
        Gate::CALLBACK_ENDED => abort_or_poison(p, s.abort, s.worse || s.rollback, j),
        Gate::PUBLISH_FAILED => finish(p, s, j),
        Gate::RECYCLE_FAILED => finish(p, s, j),
        _ => {}
    }
}

// The guards let go that are held.
fn push_lets(p: &Plan, gate: usize, j: &mut Journal)
    ensures { (S : Store) (x : Tx) (logged : Bool) (plan : Schedule) → p.now.stripes ≡ guarded_marks (changes S x) x
        → p.now.partitions ≡ partition_marks x → fit S x ≡ true → Adds j.old (lets S x logged plan gate) j.new }
{
    if gate < Gate::PARTITION_GUARDS_FAILED {
        return;
    }
    if gate < Gate::UNLOGGED_CHECK_FAILED {
        blocks::push_index_guards(&p.stripes, Txid::NONE, j);
    } else {
        blocks::push_release(&p.stripes, &p.partitions, j);
    }
}

// Whether a gate aborts at once: a callback's does so later, after the rollback.
fn aborts_at(gate: usize) -> bool
    ensures { result ≡ aborts_at gate }
{
    gate != Gate::CALLBACK_ENDED && left_at(gate) == Left::ByAbort
}

// The abort of the gates up to the tests.
fn push_dies(p: &Plan, s: &Struck, gate: usize, j: &mut Journal)
    ensures { (S : Store) (x : Tx) (logged : Bool) (plan : Schedule) → Planned S x logged plan p.now s.now
        → Adds j.old (dies S x logged plan gate) j.new }
{
    if aborts_at(gate) {
        abort_or_poison(p, s.abort, s.poisoned, j);
    }
}

// All the puts of a run that ends at the gate.
pub fn push_run(p: &Plan, writes: &[Write], s: &Struck, gate: usize, j: &mut Journal)
    ensures { (S : Store) (x : Tx) (logged : Bool) (plan : Schedule) → Planned S x logged plan p.now s.now → writes.now ≡ finals x
        → Adds j.old (puts_at S x logged plan gate) j.new }
{
    push_taken(p, s, gate, j);
    push_passed(p, writes, s, gate, j);
    push_poisons(s.worse, p.txid, gate, j);
    push_undoes(p, s, gate, j);
    push_drops(p, s, gate, j);
    push_lets(p, gate, j);
    push_dies(p, s, gate, j);
}
