// Recovery: any repairable store is mended, any other comes back as it is.

#![tactic(auto)]

ghost use Rattle.std.specs.Prelude.{◌≡◌};
ghost use Rattle.rules.specs.Recovery.{recovered, recover};

mod clear;
mod keep;
mod rebuild;
mod trim;

use clear::clear_heads;
use fields::walk::walk_all;
use keep::keep;
use rebuild::rebuild;
use records::{Fate, Mended, Refusal, RowId, SlotPtr, Store, Txid};
use resting::repair::repairable;
use trim::trim_heads;

// What recovery makes of a store.
fn recovered(s: &Store) -> Store
    ensures { result ≡ recovered s.now }
{
    let heads = trim_heads(s);
    let mut seen = [0; SlotPtr::PLACES];
    walk_all(&heads, &s.next, &mut seen);
    let mut postings = [0; Store::POSTINGS];
    let posting_count = rebuild(&mut postings, &heads, s);
    let mut xmax = s.xmax;
    clear_heads(&mut xmax, &heads, s);
    keep(&mut xmax, &seen, 0);
    let mut xmin = s.xmin;
    keep(&mut xmin, &seen, 0);
    let mut next = s.next;
    keep(&mut next, &seen, 0);
    let mut key = s.key;
    keep(&mut key, &seen, 0);
    let mut has = s.has;
    keep(&mut has, &seen, false);
    let stamps = s.stamps;
    Store {
        heads,
        xmin,
        xmax,
        next,
        key,
        has,
        locked: [false; SlotPtr::PLACES],
        owner: [0; SlotPtr::PLACES],
        postings,
        posting_count,
        stripe_guards: [0; Store::STRIPES],
        partition_guards: [0; RowId::PARTITIONS],
        stamps,
        active: [0; Txid::ACTIVE],
        clock: s.clock,
        poisoned: false,
        doomed: 0,
        bound: s.bound,
    }
}

// Takes any store: one that is not repairable comes back unchanged, with number 20.
pub fn recover(s: Store) -> Mended
    ensures { result ≡ recover s }
{
    if repairable(s) {
        let store = recovered(&s);
        return Mended {
            refusal: Refusal::Done,
            store,
        };
    }
    Mended {
        refusal: Refusal::NotRepairable(Fate::Open),
        store: s,
    }
}
