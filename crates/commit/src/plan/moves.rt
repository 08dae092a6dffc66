// The index changes of the final writes: the postings that go in, those that go out, and the stripes that change.

ghost use Rattle.std.specs.Prelude.{◌≡◌, List, [], ◌∷◌, ◌++◌, map, ◌<◌, ◌≤◌, ◌%◌, length, take};
ghost use Rattle.records.specs.Limits.{rows, write_limit};
ghost use Rattle.rules.specs.Changes.{Change, index_changes, posting_in, stripes_in};
ghost use Rattle.fields.specs.Lent.{at_places, flags_at_places};
ghost use Rattle.fields.specs.Marks.{mark_all};
ghost use Rattle.commit.specs.Plan.Plain.{low};
ghost use Rattle.commit.specs.Plan.Moves.{moves_of, change};

use records::{RowId, Store, Tx, Value, Write};
use std::marker::Model;
use visibility::slots::value_at;

// Postings, at most one for a write: an array and a count, since nothing is allocated; contracts see the list.
#[derive(Drop)]
pub struct Codes {
    at: [u64; Tx::WRITES],
    count: usize,
}

impl Model for Codes {
    ghost use Rattle.std.specs.Prelude.{◌≡◌, ◌≤◌, ℕ, List, length, take};
    ghost use Rattle.records.specs.Limits.{write_limit};

    ghost Value = { List ℕ };

    ghost view = { λ l. take l.count l.at };

    ghost invariant = { λ l. (l.count ≤ write_limit) × (length l.at ≡ write_limit) };
}

impl Codes {
    // No postings.
    fn none() -> Codes
        ensures { result ≡ [] }
    {
        Codes {
            at: [0; Tx::WRITES],
            count: 0,
        }
    }

    // The first n of them, no more than there are.
    pub fn first(&self, n: usize) -> &[u64]
        ensures { result.now ≡ take n self.now }
    {
        &self.at[..n.min(self.count)]
    }

    // One posting more, if there is a place for it.
    fn push(&mut self, c: u64)
        ensures { length self.old < write_limit → self.new ≡ self.old ++ c ∷ [] }
    {
        if self.count < Tx::WRITES {
            self.at[self.count] = c;
            self.count += 1;
        }
    }

    // The posting of a value at a row, if it is a key. A row too high, which no plain write has, is brought down.
    fn push_value(&mut self, row: RowId, v: Value)
        ensures { length self.old < write_limit → self.new ≡ self.old ++ posting_in (row.0 % rows) v }
    {
        if let Value::Key(k) = v {
            self.push((k as u64) * (RowId::ROWS as u64) + ((row.0 % RowId::ROWS) as u64));
        }
    }
}

// The stripe of a value marked, if it is a key.
fn mark_stripe(marks: &mut [bool; Store::STRIPES], v: Value)
    ensures { marks.new ≡ mark_all (stripes_in v) marks.old }
{
    if let Value::Key(k) = v {
        marks[(k % (Store::STRIPES as u32)) as usize] = true;
    }
}

// The destinations and the sources of the changes, and the stripes of both.
#[derive(Drop)]
pub struct Moves {
    pub into: Codes,
    pub out: Codes,
    pub stripes: [bool; Store::STRIPES],
}

impl Moves {
    // One change more.
    fn note(&mut self, row: RowId, before: Value, after: Value)
        ensures { (cs : List Change) → self.old ≡ moves_of cs → length cs < write_limit
            → self.new ≡ moves_of (cs ++ change (row.0 % rows) before after ∷ []) }
    {
        self.into.push_value(row, after);
        self.out.push_value(row, before);
        mark_stripe(&mut self.stripes, before);
        mark_stripe(&mut self.stripes, after);
    }
}

// The changes of these writes, their rows brought down: each whose base and new slot differ in value.
pub fn index_changes(s: &Store, writes: &[Write]) -> Moves
    ensures { length writes.now ≤ write_limit
        → result ≡ moves_of (index_changes (at_places s.now.key) (flags_at_places s.now.has) (map low writes.now)) }
{
    let mut m = Moves {
        into: Codes::none(),
        out: Codes::none(),
        stripes: [false; Store::STRIPES],
    };
    for w in writes {
        let before = value_at(s, w.base);
        let after = value_at(s, w.new);
        if before != after {
            m.note(w.row, before, after);
        }
    }
    m
}
