// The calls with the store lent and changed in place: each takes the store out, calls the value-form core and stores its result back.
// Read and lookup change nothing, so they take it lent by `&`.

#![tactic(auto)]

ghost use Rattle.std.specs.Prelude.{◌≡◌};
ghost use Rattle.rules.specs.Calls.{begin, read, write, lookup, row_lock, abort};
ghost use Rattle.rules.specs.Answer.{commit};
ghost use Rattle.rules.specs.Recovery.{recover};
ghost use Rattle.inplace.specs.Answered.{told, wrote, committed};

mod beside;

use records::{
    Cut, Events, Found, Record, Refusal, RowId, Schedule, Seen, SlotPtr, Store, Tx, Value,
};

// What begin, row lock and abort answer beside the store.
#[derive(Clone, Copy)]
pub struct Told {
    pub refusal: Refusal,
    pub tx: Tx,
}

// What write answers beside it.
#[derive(Clone, Copy)]
pub struct Wrote {
    pub refusal: Refusal,
    pub slot: SlotPtr,
    pub tx: Tx,
}

// What commit answers beside it.
#[derive(Clone, Copy)]
pub struct Committed {
    pub refusal: Refusal,
    pub record: Record,
    pub tx: Tx,
    pub events: Events,
    pub stores: usize,
}

pub fn begin_in(s: &mut Store) -> Told
    ensures { (s.new ≡ (begin s.old).store) × (result ≡ told (begin s.old)) }
{
    let begun = calls::begin::begin(*s);
    *s = begun.store;
    Told::from(begun)
}

pub fn read_in(s: &Store, x: Tx, r: RowId) -> Seen
    ensures { result ≡ read s.now x r.0 }
{
    calls::read::read(*s, x, r)
}

pub fn write_in(s: &mut Store, x: Tx, r: RowId, v: Value) -> Wrote
    ensures { (s.new ≡ (write s.old x r.0 v).store) × (result ≡ wrote (write s.old x r.0 v)) }
{
    let written = calls::write::write(*s, x, r, v);
    *s = written.store;
    Wrote::from(written)
}

pub fn lookup_in(s: &Store, x: Tx, k: u32) -> Found
    ensures { result ≡ lookup s.now x k }
{
    calls::lookup::lookup(*s, x, k)
}

pub fn row_lock_in(s: &mut Store, x: Tx, r: RowId) -> Told
    ensures { (s.new ≡ (row_lock s.old x r.0).store) × (result ≡ told (row_lock s.old x r.0)) }
{
    let locked = calls::lock::row_lock(*s, x, r);
    *s = locked.store;
    Told::from(locked)
}

pub fn abort_in(s: &mut Store, x: Tx) -> Told
    ensures { (s.new ≡ (abort s.old x).store) × (result ≡ told (abort s.old x)) }
{
    let aborted = calls::abort::abort(*s, x);
    *s = aborted.store;
    Told::from(aborted)
}

pub fn commit_in(s: &mut Store, x: Tx, logged: bool, plan: Schedule, cut: Cut) -> Committed
    ensures { (s.new ≡ (commit s.old x logged plan cut).store) × (result ≡ committed (commit s.old x logged plan cut)) }
{
    let answer = commit::commit(*s, x, logged, plan, cut);
    *s = answer.store;
    Committed::from(answer)
}

pub fn recover_in(s: &mut Store) -> Refusal
    ensures { (s.new ≡ (recover s.old).store) × (result ≡ (recover s.old).refusal) }
{
    let mended = recovery::recover(*s);
    *s = mended.store;
    mended.refusal
}
