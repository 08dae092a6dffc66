// The lines written.

use super::fate::fate_in;
use super::shown::{Rows, Shown};
use super::trial::Trial;
use fields::txids::is_active;
use records::{Answer, Fate, Fault, Refusal, Txid, Value};
use resting::rest::resting;
use script::refusal::number_of;
use std::io;

pub fn tab<R: Print>(rt: &R) -> io::Result<()> {
    rt.print("\t")
}

pub fn end<R: Print>(rt: &R) -> io::Result<()> {
    rt.print("\n")
}

fn rows<R: Print>(rt: &R, values: &Rows) -> io::Result<()> {
    for (r, v) in values.iter().enumerate() {
        if let Value::Key(key) = v {
            print!(rt; " {r}={key}")?;
        }
    }
    end(rt)
}

// The rows before and after, and the columns.
pub fn legend<R: Print>(rt: &R, old: &Rows, new: &Rows) -> io::Result<()> {
    rt.print("old:")?;
    rows(rt, old)?;
    rt.print("new:")?;
    rows(rt, new)?;
    rt.println(
        "mode\tstep\tfault\tat21\tat23\tat24\tnumber\tfate\tstores\tstore\ttxid\twrites/reads/index reads\tshows\tcuts",
    )
}

fn mode(logged: bool) -> &'static str {
    if logged { "l" } else { "u" }
}

// Letter and k.
fn fault<R: Print>(rt: &R, f: Fault) -> io::Result<()> {
    let letter = char::from(f.letter);
    let k = f.k;
    print!(rt; "{letter}{k}")
}

fn failing(fails: bool) -> &'static str {
    if fails { "F0" } else { "-" }
}

fn first<R: Print>(rt: &R, first: Option<Fault>) -> io::Result<()> {
    let Some(f) = first else {
        return rt.print("-\t-");
    };
    let step = f.step;
    print!(rt; "{step}\t")?;
    fault(rt, f)
}

fn rollback<R: Print>(rt: &R, k: Option<u32>) -> io::Result<()> {
    match k {
        None => rt.print("-"),
        Some(k) => print!(rt; "F{k}"),
    }
}

// The schedule.
pub fn trial<R: Print>(rt: &R, logged: bool, t: &Trial) -> io::Result<()> {
    rt.print(mode(logged))?;
    tab(rt)?;
    first(rt, t.first)?;
    let finish = failing(t.finish);
    let abort = failing(t.abort);
    print!(rt; "\t{finish}\t{abort}\t")?;
    rollback(rt, t.rollback)?;
    tab(rt)
}

fn fate(why: Refusal) -> &'static str {
    match fate_in(why) {
        None => "-",
        Some(Fate::Open) => "open",
        Some(Fate::Closed) => "closed",
        Some(Fate::Undone) => "undone",
        Some(Fate::Standing) => "standing",
    }
}

// How the answer leaves the store.
fn store(rests: bool, doomed: u64, poisoned: bool) -> &'static str {
    if !rests {
        return "UNREST";
    }
    if doomed != 0 {
        return "doomed";
    }
    if poisoned { "poisoned" } else { "sound" }
}

fn activity(active: bool) -> &'static str {
    if active { "active" } else { "ended" }
}

pub fn answer<R: Print>(rt: &R, a: &Answer, t: Txid) -> io::Result<()> {
    let n = number_of(a.refusal);
    let fate = fate(a.refusal);
    let stores = a.stores;
    let store = store(resting(a.store), a.store.doomed, a.store.poisoned);
    let activity = activity(is_active(&a.store.active, t));
    let writes = a.tx.write_count;
    let reads = a.tx.read_count;
    let index_reads = a.tx.index_read_count;
    print!(rt; "{n}\t{fate}\t{stores}\t{store}\t{activity}\t{writes}/{reads}/{index_reads}\t")
}

// Cuts that show the same.
pub fn run<R: Print>(rt: &R, from: u32, to: u32, seen: Shown) -> io::Result<()> {
    if from != 0 {
        rt.print(", ")?;
    }
    if from == to {
        print!(rt; "{from} {seen}")
    } else {
        print!(rt; "{from}-{to} {seen}")
    }
}

// The line of the faults that a step doesn't take.
pub fn unfit<R: Print>(rt: &R, logged: bool, step: u32) -> io::Result<()> {
    let mode = mode(logged);
    print!(rt; "{mode}\t{step}\tunfit (2, no store):")
}

pub fn named<R: Print>(rt: &R, f: Fault) -> io::Result<()> {
    rt.print(" ")?;
    fault(rt, f)
}
