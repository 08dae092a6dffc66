// One schedule: its answer, what recovery shows after it, and its cuts.

use super::bench::Bench;
use super::cuts::write_cuts;
use super::print;
use super::recovered::sight_of;
use super::shown::Shown;
use super::trial::Trial;
use commit::commit;
use records::{Cut, Fault, Refusal};
use std::io;

// The fault alone is answered 2, with no store, and recovery shows the old rows.
pub fn is_unfit(b: &Bench, logged: bool, f: Fault) -> bool {
    let plan = Trial::of(f).schedule();
    let a = commit(b.store, b.tx, logged, plan, Cut::Uncut);
    matches!(a.refusal, Refusal::Unfit(_)) && a.stores == 0 && sight_of(b, a.store) == Shown::Old
}

pub fn row<R: Print>(rt: &R, b: &Bench, logged: bool, t: &Trial) -> io::Result<()> {
    let plan = t.schedule();
    let a = commit(b.store, b.tx, logged, plan, Cut::Uncut);
    print::trial(rt, logged, t)?;
    print::answer(rt, &a, b.tx.txid)?;
    let sight = sight_of(b, a.store);
    print!(rt; "{sight}\t")?;
    write_cuts(rt, b, logged, plan, &a)?;
    print::end(rt)
}
