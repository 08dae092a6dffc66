// The postings of the heads, laid out anew.

ghost use Rattle.records.specs.Limits.{posting_limit};
ghost use Rattle.rules.specs.Admitted.{head_postings};
ghost use Rattle.packed.specs.Packed.{Packed};
ghost use Rattle.fields.specs.Lent.{at_rows};

use fields::lent::{at, place};
use records::{RowId, Store};

// Rows from the last down: each goes in front of those above it, as the definition puts them.
pub fn rebuild(x: &mut [u64; Store::POSTINGS], heads: &[u32; RowId::ROWS], s: &Store) -> usize
    ensures { Packed (head_postings s.now.key s.now.has 0 (at_rows heads.now)) posting_limit x.new result }
{
    *x = [0; Store::POSTINGS];
    let mut n = 0;
    for r in (0..RowId::ROWS).rev() {
        let i = place(heads[r]);
        if at(&s.has, i, false) {
            let k = at(&s.key, i, 0) as u64;
            n = packed::insert(x, n, k * (RowId::ROWS as u64) + (r as u64));
        }
    }
    n
}
