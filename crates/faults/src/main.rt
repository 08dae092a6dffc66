// A fault at every step with every letter, alone and joined by one at 21, 23 and 24, and every cut of each: what commit answers, and what
// recovery shows after it. docs/DECISIONS.md says how the file stdout was compared.

#![tactic(auto)]

mod bench;
mod cuts;
mod fate;
mod print;
mod recovered;
mod row;
mod shown;
mod trial;
mod tries;

use bench::Bench;
use exits::written;
use records::Schedule;
use std::io;
use std::process::ExitCode;
use trial::Trial;

const STEPS: u32 = Schedule::STEPS as u32;

// All steps, unlogged or logged.
fn try_mode<R: Print>(rt: &R, b: &Bench, logged: bool) -> io::Result<()> {
    row::row(rt, b, logged, &Trial::default())?;
    for step in 1..=STEPS {
        tries::try_step(rt, b, logged, step)?;
    }
    Ok(())
}

fn table<R: Print>(rt: &R) -> io::Result<()> {
    let Ok(b) = bench::prepared() else {
        return rt.println("A CALL OF THE PREPARATION WAS REFUSED");
    };
    print::legend(rt, &b.old, &b.new)?;
    for logged in [false, true] {
        try_mode(rt, &b, logged)?;
    }
    Ok(())
}

fn main(rt: HostRuntime) -> ExitCode {
    written(&rt, table(&rt)).code()
}
