// The journal: the puts that a call plans, in their order, and the one pass that applies them to a store.

#![tactic(auto)]

ghost use Rattle.std.specs.Prelude.{◌≡◌, ◌≤◌, [], ◌∷◌, length, map, take};
ghost use Rattle.rules.specs.Puts.{apply, apply_all};
ghost use Rattle.journal.specs.Journal.{meant, put_limit};
ghost use Rattle.journal.specs.Adds.{Adds};

pub mod at_marks;
mod puts;

use records::{RowId, SlotPtr, Store, Tx, Txid};
use std::marker::Model;

// A change of the store, with its place and what is put there.
#[derive(Clone, Copy)]
pub enum Put {
    Stripe(usize, Txid),
    Partition(usize, Txid),
    Insert(u64),
    Remove(u64),
    Xmax(SlotPtr, Txid),
    Head(RowId, SlotPtr),
    Free(SlotPtr),
    Drop(Txid),
    Stamp(usize, Txid),
    Poison,
    Doom(Txid),
    Enter(Txid),
    Clock(u64),
    Xmin(SlotPtr, Txid),
    Next(SlotPtr, SlotPtr),
    Key(SlotPtr, u32),
    Lock(SlotPtr, Txid),
}

impl Put {
    // The store with this put; a place past an array's end changes nothing.
    fn apply(self, s: &mut Store)
        ensures { s.new ≡ apply (meant self) s.old }
    {
        match self {
            Put::Stripe(i, t) => puts::put(&mut s.stripe_guards, i, t.0),
            Put::Partition(i, t) => puts::put(&mut s.partition_guards, i, t.0),
            Put::Insert(c) => s.posting_count = packed::insert(&mut s.postings, s.posting_count, c),
            Put::Remove(c) => s.posting_count = packed::remove(&mut s.postings, s.posting_count, c),
            Put::Xmax(p, t) => puts::put(&mut s.xmax, p.0 as usize, t.0),
            Put::Head(r, p) => puts::put(&mut s.heads, r.0, p.0),
            Put::Free(p) => puts::free(s, p.0 as usize),
            Put::Drop(t) => packed::leave(&mut s.active, t.0),
            Put::Stamp(i, t) => puts::put(&mut s.stamps, i, t.0),
            Put::Poison => s.poisoned = true,
            Put::Doom(t) => {
                s.poisoned = true;
                s.doomed = t.0;
            }
            Put::Enter(t) => packed::enter(&mut s.active, t.0),
            Put::Clock(t) => s.clock = t,
            Put::Xmin(p, t) => puts::put(&mut s.xmin, p.0 as usize, t.0),
            Put::Next(p, q) => puts::put(&mut s.next, p.0 as usize, q.0),
            Put::Key(p, k) => {
                puts::put(&mut s.key, p.0 as usize, k);
                puts::put(&mut s.has, p.0 as usize, true);
            }
            Put::Lock(p, t) => {
                puts::put(&mut s.owner, p.0 as usize, t.0);
                puts::put(&mut s.locked, p.0 as usize, true);
            }
        }
    }
}

// Puts in their order, with room for the longest run's: an array and a count, since nothing is allocated; contracts see the list.
#[derive(Drop)]
pub struct Journal {
    puts: [Put; Journal::PUTS],
    count: usize,
}

impl Model for Journal {
    ghost use Rattle.std.specs.Prelude.{◌≡◌, ◌≤◌, List, length, map, take};
    ghost use Rattle.rules.specs.Puts.{Put as RulesPut};
    ghost use Rattle.journal.specs.Journal.{meant, put_limit};

    ghost Value = { List RulesPut };

    ghost view = { λ j. map meant (take j.count j.puts) };

    ghost invariant = { λ j. (j.count ≤ put_limit) × (length j.puts ≡ put_limit) };
}

impl Journal {
    // The longest run takes and releases every guard, stamps every stripe, inserts, removes and publishes (two puts) every write, frees
    // every place, and has a drop and a poison.
    pub const PUTS: usize = 3 * Store::STRIPES
        + 2 * RowId::PARTITIONS
        + 4 * Tx::WRITES
        + SlotPtr::PLACES
        + 2;

    // No puts.
    pub fn new() -> Journal
        ensures { result ≡ [] }
    {
        Journal {
            puts: [Put::Poison; Journal::PUTS],
            count: 0,
        }
    }

    // Its puts.
    fn held(&self) -> &[Put]
        ensures puts { map meant result.now ≡ self.now }
        ensures room { length result.now ≤ put_limit }
    {
        &self.puts[..self.count]
    }

    // How many puts there are.
    pub fn len(&self) -> usize
        ensures count { result ≡ length self.now }
        ensures room { length self.now ≤ put_limit }
    {
        self.held().len()
    }

    // One put more; a full journal stays as it is.
    pub fn push(&mut self, put: Put)
        ensures { Adds self.old (meant put ∷ []) self.new }
    {
        if self.count < Journal::PUTS {
            self.puts[self.count] = put;
            self.count += 1;
        }
    }

    // The first n puts, one after the other; no more than there are.
    pub fn apply(&self, s: Store, n: usize) -> Store
        ensures { result ≡ apply_all (take n self.now) s }
    {
        let puts = self.held();
        let mut t = s;
        for put in &puts[..n.min(puts.len())] {
            put.apply(&mut t);
        }
        t
    }
}
