// The demands as contracts of code: what crate `demands` proves of the definitions, said of what runs. The lengths and the key width that the
// theorems ask of a store are those of its type.

#![tactic(auto)]

ghost use Rattle.std.specs.Prelude.{◌≡◌, true, List, ◌↔◌, ◌≢◌, ℕ, ◌≤◌, ◌<◌, length};
ghost use Rattle.records.specs.Limits.{rows, read_limit, clock_end, last_minute};
ghost use Rattle.records.specs.Zero.{no_faults};
ghost use Rattle.rules.specs.Types.{Uncut};
ghost use Rattle.rules.specs.Transaction.{finals};
ghost use Rattle.rules.specs.Admitted.{repairable, resting};
ghost use Rattle.rules.specs.Numbers.{number_of, is_done};
ghost use Rattle.rules.specs.Calls.{begin, read, lookup};
ghost use Rattle.rules.specs.Answer.{commit};
ghost use Rattle.rules.specs.Recovery.{recover};
ghost use Rattle.statements.specs.Table.{first_row, Answers};
ghost use Rattle.statements.specs.Words.{Conflicts, Committed, Safe, Quiet, row_value, shown, with_new};
ghost use Rattle.statements.specs.ShowWords.{RowsWith, Answered};
ghost use Rattle.statements.specs.NumbersSeen.{commit_rows, done_row};
ghost use Rattle.statements.specs.AbsentWords.{ReadAsAbsent, WritesRow};

use calls::begin::begin;
use calls::lookup::lookup;
use calls::read::read;
use commit::commit;
use records::{Answer, Cut, Found, Mended, RowId, Schedule, Seen, Store, Tx};
use recovery::recover;

// Demand 1: whatever arrives, the answer is that of the first row of "Numbers seen" that applies.
pub fn commit_by_table(s: Store, x: Tx, logged: bool, plan: Schedule, cut: Cut) -> Answer
    ensures { (result ≡ commit s x logged plan cut) × Answers s x result (first_row (commit_rows s x logged plan cut) (done_row s x logged plan)) }
{
    commit(s, x, logged, plan, cut)
}

// Demand 2: no fault, no cut.
pub fn commit_quietly(s: Store, x: Tx, logged: bool) -> Answer
    ensures { (result ≡ commit s x logged no_faults Uncut)
        × (Quiet s x logged no_faults → ((number_of result.refusal ≡ 0) ↔ (Conflicts s x → ⊥)) × (is_done result.refusal ≡ true → Committed s x result)) }
{
    let plan = Schedule::none();
    commit(s, x, logged, plan, Cut::Uncut)
}

// Demand 3: a commit, struck or cut anywhere, and then recovery.
pub fn commit_and_recover(s: Store, x: Tx, logged: bool, plan: Schedule, cut: Cut) -> Mended
    ensures { (result ≡ recover (commit s x logged plan cut).store) × (resting s ≡ true → Safe s x logged plan (commit s x logged plan cut).store) }
{
    let a = commit(s, x, logged, plan, cut);
    let left = a.store;
    recover(left)
}

// What is shown after recovery of any repairable store: a transaction begun then reads the value of a row's first finished version.
pub fn recover_and_read(s: Store, r: RowId) -> Seen
    ensures { (result ≡ read (begin (recover s).store).store (begin (recover s).store).tx r.0)
        × (repairable s ≡ true → s.clock < clock_end → r.0 < rows → (number_of result.refusal ≡ 0) × (result.value ≡ shown s r.0)) }
{
    let mended = recover(s);
    let left = mended.store;
    let begun = begin(left);
    let t = begun.store;
    let x = begun.tx;
    read(t, x, r)
}

// And it looks up exactly the rows with a key, 31 where that is no minute of the year.
pub fn recover_and_look(s: Store, k: u32) -> Found
    ensures { (result ≡ lookup (begin (recover s).store).store (begin (recover s).store).tx k)
        × (repairable s ≡ true → s.clock < clock_end → (found : List ℕ) × RowsWith (shown s) k found
        × (k ≤ last_minute → length found ≤ read_limit → Answered (recover s).store k found result)
        × ((number_of result.refusal ≡ 24) ↔ (read_limit < length found))
        × ((number_of result.refusal ≡ 31) ↔ (last_minute < k))) }
{
    let mended = recover(s);
    let left = mended.store;
    let opened = begin(left);
    let u = opened.store;
    let y = opened.tx;
    lookup(u, y, k)
}

// What is shown after a successful commit: a transaction begun then reads every final write, and every other row's old value.
pub fn commit_and_read(s: Store, x: Tx, logged: bool, r: RowId) -> Seen
    ensures { (result ≡ read (begin (commit s x logged no_faults Uncut).store).store (begin (commit s x logged no_faults Uncut).store).tx r.0)
        × (Quiet s x logged no_faults → s.clock < clock_end → is_done (commit s x logged no_faults Uncut).refusal ≡ true → r.0 < rows
        → (number_of result.refusal ≡ 0) × (result.value ≡ with_new s.key s.has (finals x) (row_value s) r.0)) }
{
    let faultless = Schedule::none();
    let answered = commit(s, x, logged, faultless, Cut::Uncut);
    let stands = answered.store;
    let next = begin(stands);
    let v = next.store;
    let z = next.tx;
    read(v, z, r)
}

// Document 02, wish 2: two forecasters, one after the other; the second, who has read as absent a row that the first writes, is answered 7.
pub fn commit_both(s: Store, x: Tx, y: Tx, lx: bool, ly: bool) -> Answer
    ensures { (result ≡ commit (commit s x lx no_faults Uncut).store y ly no_faults Uncut)
        × ((r : ℕ) → Quiet s x lx no_faults → Quiet s y ly no_faults → y.txid.0 ≢ x.txid.0 → WritesRow x r → ReadAsAbsent y r
        → number_of (commit s x lx no_faults Uncut).refusal ≡ 0 → number_of result.refusal ≡ 7) }
{
    let plan = Schedule::none();
    let first = commit(s, x, lx, plan, Cut::Uncut);
    let left = first.store;
    commit(left, y, ly, plan, Cut::Uncut)
}
