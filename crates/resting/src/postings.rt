// The postings: their form, and that they are exactly those of the heads.

ghost use Rattle.std.specs.Prelude.{◌≡◌, ◌&&◌, ◌||◌, suc, ◌≤◌, length, take, eqb};
ghost use Rattle.records.specs.Limits.{posting_limit};
ghost use Rattle.rules.specs.Lists.{all, those};
ghost use Rattle.rules.specs.Store.{postings_of, postings_in_form};
ghost use Rattle.fields.specs.Climb.{climb};
ghost use Rattle.resting.specs.PostingForm.{keyed, told_at, valued_by};

use fields::lent::{at, place, zeros_from};
use records::{RowId, Store};

// past the postings of the largest key
const END: u64 = 4294967296 * ROWS;

const ROWS: u64 = RowId::ROWS as u64;

// They rise and are of 32-bit keys.
fn postings_rise(s: &Store) -> bool
    requires { s.now.posting_count ≤ posting_limit }
    ensures { result ≡ climb suc keyed 0 (take s.now.posting_count s.now.postings) }
{
    let mut least = 0;
    for c in &s.postings[..s.posting_count] {
        if *c < least || END <= *c {
            return false;
        }
        least = *c + 1;
    }
    true
}

// "kept rising, packed, unique, at most" the limit
pub fn postings_in_form(s: &Store) -> bool
    ensures { result ≡ postings_in_form s.now }
{
    s.posting_count <= Store::POSTINGS
        && postings_rise(s)
        && zeros_from(&s.postings, s.posting_count)
}

// Whether a slot has a value.
fn has_value(s: &Store, p: u32) -> bool
    ensures { result ≡ valued_by s.now p }
{
    at(&s.has, place(p), false)
}

// The row's head has the posting's key.
fn told_by_head(s: &Store, c: u64) -> bool
    ensures { result ≡ told_at s.now c }
{
    let head = s.heads[(c % ROWS) as usize];
    has_value(s, head) && at(&s.key, place(head), 0) as u64 == c / ROWS
}

// The heads with a value.
fn valued(s: &Store) -> usize
    ensures { result ≡ length (those (valued_by s.now) s.now.heads) }
{
    s.heads.iter().filter(|h| has_value(s, **h)).count()
}

// The postings are told by heads, and are as many as the heads with a value.
fn postings_told(s: &Store) -> bool
    ensures { result ≡ (all (told_at s.now) (take s.now.posting_count s.now.postings)
        && eqb s.now.posting_count (length (those (valued_by s.now) s.now.heads))) }
{
    s.postings
        .iter()
        .take(s.posting_count)
        .all(|c| told_by_head(s, *c))
        && s.posting_count == valued(s)
}

// "if not poisoned, doomed is 0 and the postings are exactly (key, row) of each head with a value"
pub fn healthy_or_poisoned(s: &Store) -> bool
    ensures { result ≡ (s.now.poisoned || (eqb s.now.doomed 0 && (all (told_at s.now) (take s.now.posting_count s.now.postings)
        && eqb s.now.posting_count (length (those (valued_by s.now) s.now.heads))))) }
{
    s.poisoned || (s.doomed == 0 && postings_told(s))
}
