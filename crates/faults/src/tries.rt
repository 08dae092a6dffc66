// Every letter and k at a step, each joined by what it leads to.

use super::bench::Bench;
use super::print;
use super::row::{is_unfit, row};
use super::trial::{Trial, ks_tried, reaches_abort, reaches_finish, rollbacks_tried};
use records::Fault;
use std::io;

const LETTERS: [u8; 5] = *b"FBPXQ";

// The rollback after it sound, and failed after each number of stores.
fn try_rollbacks<R: Print>(rt: &R, b: &Bench, logged: bool, f: Fault, t: &Trial) -> io::Result<()> {
    row(rt, b, logged, t)?;
    for k in 0..rollbacks_tried(f, logged) {
        let failed = Trial {
            rollback: Some(k),
            ..*t
        };
        row(rt, b, logged, &failed)?;
    }
    Ok(())
}

// A line for each schedule that the fault leads to; none where it is unfit.
fn try_fault<R: Print>(rt: &R, b: &Bench, logged: bool, f: Fault) -> io::Result<()> {
    if is_unfit(b, logged, f) {
        return Ok(());
    }
    let alone = Trial::of(f);
    try_rollbacks(rt, b, logged, f, &alone)?;
    if reaches_finish(f) {
        let t = Trial {
            finish: true,
            ..alone
        };
        try_rollbacks(rt, b, logged, f, &t)?;
    }
    if reaches_abort(f, logged) {
        let t = Trial {
            abort: true,
            ..alone
        };
        try_rollbacks(rt, b, logged, f, &t)?;
    }
    Ok(())
}

fn name_unfit<R: Print>(rt: &R, b: &Bench, logged: bool, f: Fault) -> io::Result<()> {
    if is_unfit(b, logged, f) {
        print::named(rt, f)?;
    }
    Ok(())
}

fn each_fault<F: FnMut(Fault) -> io::Result<()>>(step: u32, mut tried: F) -> io::Result<()>
    requires { (f : _) (x : _) → F.pre f x }
{
    for letter in LETTERS {
        for k in 0..ks_tried(step, letter) {
            tried(Fault { step, letter, k })?;
        }
    }
    Ok(())
}

// A line for each fit schedule, and one for all faults that are answered 2.
pub fn try_step<R: Print>(rt: &R, b: &Bench, logged: bool, step: u32) -> io::Result<()> {
    each_fault(step, |f| try_fault(rt, b, logged, f))?;
    print::unfit(rt, logged, step)?;
    each_fault(step, |f| name_unfit(rt, b, logged, f))?;
    print::end(rt)
}
