// What recovery shows of the rows.

use super::bench::Bench;
use super::shown::{Shown, compared, rows_of};
use admit::admission::is_done;
use records::Store;
use recovery::recover;
use resting::rest::resting;

// After recovery: a store at rest that isn't poisoned has no guard, no doom and exact postings.
pub fn sight_of(b: &Bench, s: Store) -> Shown {
    let m = recover(s);
    if !is_done(m.refusal) {
        return Shown::Refused;
    }
    if m.store.poisoned || !resting(m.store) {
        return Shown::Unrest;
    }
    compared(&rows_of(&m.store), &b.old, &b.new)
}
