// The candidates of a lookup: rows from postings of the key and own writes, marked by row.

ghost use Rattle.std.specs.Prelude.{◌≡◌};
ghost use Rattle.rules.specs.Transaction.{writes_of};
ghost use Rattle.fields.specs.Lent.{at_postings};
ghost use Rattle.fields.specs.Marks.{mark_all};
ghost use Rattle.recording.specs.MarkedRows.{no_rows};
ghost use Rattle.recording.specs.CandidateTurns.{posted_rows, own_rows, candidate_marks};

use super::laid::first_of;
use packed::halving::find_place;
use records::{RowId, Store, Tx};

// The rows of the postings of key k: from its first one on, which is found by halving, to the first of another key.
fn posted_rows(s: &Store, k: u32) -> [bool; RowId::ROWS]
    ensures { result ≡ mark_all (posted_rows (at_postings s.now.postings) s.now.posting_count k) no_rows }
{
    let mut m = [false; RowId::ROWS];
    let n = s.posting_count.min(Store::POSTINGS);
    let rows = RowId::ROWS as u64;
    let key = k as u64;
    let first = find_place(&s.postings, n, key * rows).at;
    for c in &s.postings[first..n] {
        if *c / rows != key {
            return m;
        }
        m[(*c % rows) as usize] = true;
    }
    m
}

// Marks the rows of own writes besides; a row too high is not marked.
fn own_rows(x: &Tx, m: &mut [bool; RowId::ROWS])
    ensures { m.new ≡ mark_all (own_rows (writes_of x.now)) m.old }
{
    for w in first_of(&x.writes, x.write_count) {
        if w.row.0 < RowId::ROWS {
            m[w.row.0] = true;
        }
    }
}

// Marks every row that a posting of key k or an own write names.
pub fn candidates(s: &Store, x: &Tx, k: u32) -> [bool; RowId::ROWS]
    ensures { result ≡ candidate_marks (at_postings s.now.postings) s.now.posting_count x.now k }
{
    let mut m = posted_rows(s, k);
    own_rows(x, &mut m);
    m
}
