// Every cut of a schedule, as runs of cuts after which recovery shows the same.

use super::bench::Bench;
use super::print;
use super::recovered::sight_of;
use super::shown::Shown;
use commit::commit;
use journal::Journal;
use records::{Answer, Cut, Refusal, Schedule, Txid};
use std::io;

// As many as any commit makes.
const MOST: usize = Journal::PUTS;

// A cut at n; `whole` is what the uncut run was refused with.
fn cut_sight(b: &Bench, logged: bool, plan: Schedule, whole: Refusal, n: u32) -> Shown {
    let a = commit(b.store, b.tx, logged, plan, Cut::After(n));
    if a.stores != n as usize {
        return Shown::Wrong;
    }
    match a.refusal {
        why if why == whole => Shown::Whole,
        Refusal::CutOff(_) if a.tx.txid == Txid::NONE => sight_of(b, a.store),
        _ => Shown::Wrong,
    }
}

// Cuts from 0 to the stores of the uncut run: the last is none.
pub fn write_cuts<R: Print>(
    rt: &R,
    b: &Bench,
    logged: bool,
    plan: Schedule,
    uncut: &Answer,
) -> io::Result<()> {
    let whole = uncut.refusal;
    let end = uncut.stores.min(MOST) as u32;
    let mut from: u32 = 0;
    let mut seen = cut_sight(b, logged, plan, whole, 0);
    for n in 0..end {
        let next = cut_sight(b, logged, plan, whole, n + 1);
        if next != seen {
            print::run(rt, from, n, seen)?;
            from = n + 1;
            seen = next;
        }
    }
    print::run(rt, from, end, seen)
}
