// Each kind of line.

ghost use Rattle.std.specs.Prelude.{◌≡◌};
ghost use Rattle.rules.specs.Replay.{line_b, line_r, line_w, line_l, line_k, line_a, line_c, line_f, line_v, line_bad, value_third, turn};
ghost use Rattle.script.specs.Print.{third_of};
ghost use Rattle.replay_core.specs.Turn.{desk_of, turned};

use super::fault::with_fault;
use super::{Desk, Told};
use admit::admission::is_done;
use calls::abort::abort;
use calls::begin::begin;
use calls::lock::row_lock;
use calls::lookup::lookup;
use calls::read::read;
use calls::write::write;
use commit::commit;
use records::{Cut, Fault, RowId, Schedule, Value};
use recovery::recover;
use script::refusal::more_in;

// "a refused B keeps its place's transaction"
pub(crate) fn begin_line(d: &mut Desk) -> Told
    ensures { turned d.new result ≡ turn (line_b 0) (desk_of d.old) }
{
    let a = begin(d.store);
    if !is_done(a.refusal) {
        return Told::call(a.refusal, 0);
    }
    d.store = a.store;
    d.tx = a.tx;
    Told::call(a.refusal, a.tx.txid.0)
}

// "key or -"
fn key_or_dash(v: Value) -> Option<u64>
    ensures { third_of result ≡ value_third v }
{
    match v {
        Value::Absent => None,
        Value::Key(k) => Some(k as u64),
    }
}

pub(crate) fn read_line(d: &mut Desk, row: RowId) -> Told
    ensures { turned d.new result ≡ turn (line_r 0 row.0) (desk_of d.old) }
{
    let a = read(d.store, d.tx, row);
    d.tx = a.tx;
    if !is_done(a.refusal) {
        return Told::call(a.refusal, 0);
    }
    Told {
        third: key_or_dash(a.value),
        ..Told::call(a.refusal, 0)
    }
}

pub(crate) fn write_line(d: &mut Desk, row: RowId, v: Value) -> Told
    ensures { turned d.new result ≡ turn (line_w 0 row.0 v) (desk_of d.old) }
{
    let a = write(d.store, d.tx, row, v);
    d.store = a.store;
    d.tx = a.tx;
    Told::call(a.refusal, a.slot.0 as u64)
}

pub(crate) fn lookup_line(d: &mut Desk, k: u32) -> Told
    ensures { turned d.new result ≡ turn (line_l 0 k) (desk_of d.old) }
{
    let a = lookup(d.store, d.tx, k);
    d.tx = a.tx;
    Told::call(a.refusal, a.count as u64)
}

pub(crate) fn lock_line(d: &mut Desk, row: RowId) -> Told
    ensures { turned d.new result ≡ turn (line_k 0 row.0) (desk_of d.old) }
{
    let a = row_lock(d.store, d.tx, row);
    d.store = a.store;
    d.tx = a.tx;
    Told::call(a.refusal, 0)
}

pub(crate) fn abort_line(d: &mut Desk) -> Told
    ensures { turned d.new result ≡ turn (line_a 0) (desk_of d.old) }
{
    let a = abort(d.store, d.tx);
    d.store = a.store;
    d.tx = a.tx;
    Told::call(a.refusal, 0)
}

// "the next C, which judges it and uses it up whatever it answers"
pub(crate) fn commit_line(d: &mut Desk, logged: bool, cut: Cut) -> Told
    ensures { turned d.new result ≡ turn (line_c 0 logged cut) (desk_of d.old) }
{
    let a = commit(d.store, d.tx, logged, d.plan, cut);
    d.store = a.store;
    d.tx = a.tx;
    d.plan = Schedule::none();
    Told {
        more: more_in(a.refusal),
        ..Told::call(a.refusal, a.stores as u64)
    }
}

pub(crate) fn fault_line(d: &mut Desk, f: Fault) -> Told
    ensures { turned d.new result ≡ turn (line_f f.step f.letter f.k) (desk_of d.old) }
{
    d.plan = with_fault(f, d.plan);
    Told::number(0)
}

pub(crate) fn recover_line(d: &mut Desk) -> Told
    ensures { turned d.new result ≡ turn line_v (desk_of d.old) }
{
    let a = recover(d.store);
    d.store = a.store;
    Told::call(a.refusal, 0)
}

// "A line that isn't one of these forms is answered 2"
pub(crate) fn bad_line(d: &mut Desk) -> Told
    ensures { turned d.new result ≡ turn line_bad (desk_of d.old) }
{
    Told::number(2)
}
