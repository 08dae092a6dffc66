// How many looks at the postings it takes to find a place among them, from the front and by halving. docs/SEARCH.md has the table.

#![tactic(auto)]

mod print;
mod tally;

ghost use Rattle.std.specs.Prelude.{◌≤◌};
ghost use Rattle.looks.specs.Most.{most};

use exits::written;
use packed::halving::{Place, find_place};
use std::process::ExitCode;
use std::{array, io};
use tally::Tally;

// The longest list that is searched, whatever the store's limit is.
const MOST: usize = 256;

// The postings 1, 3, 5 ..: each even number is absent.
fn odd() -> [u64; MOST] {
    array::from_fn(|i| (i as u64) * 2 + 1)
}

// From the front to the first that is not below v.
fn from_front(x: &[u64; MOST], n: usize, v: u64) -> Place
    ensures at { result.at ≤ most }
    ensures looks { result.looks ≤ most }
{
    let m = n.min(MOST);
    let at = x[..m].iter().position(|y| v <= *y).unwrap_or(m);
    Place {
        at,
        looks: m.min(at + 1),
    }
}

// Every posting of the first n and every number between two of them is looked for, in both ways.
fn search_all<R: Print>(rt: &R, n: usize) -> io::Result<()> {
    let x = odd();
    let last = 2 * (n.min(MOST) as u64);
    let mut front = Tally::default();
    let mut halved = Tally::default();
    let mut apart = Tally::default();
    for v in 0..=last {
        let a = from_front(&x, n, v);
        let b = find_place(&x, n, v);
        front.add(a.looks);
        halved.add(b.looks);
        apart.add(usize::from(a.at != b.at));
    }
    print::row(rt, n, last + 1, front, halved, apart)
}

fn table<R: Print>(rt: &R) -> io::Result<()> {
    print::head(rt)?;
    for n in [0, 16, 64, 128, MOST] {
        search_all(rt, n)?;
    }
    Ok(())
}

fn main(rt: HostRuntime) -> ExitCode {
    written(&rt, table(&rt)).code()
}
