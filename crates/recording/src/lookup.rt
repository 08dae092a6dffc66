// What a lookup records and finds, over its marked candidates.

ghost use Rattle.std.specs.Prelude.{◌≡◌};
ghost use Rattle.rules.specs.Store.{carries};
ghost use Rattle.rules.specs.Transaction.{reads_of};
ghost use Rattle.fields.specs.Lent.{at_rows, at_places, flags_at_places, flags_at_rows};
ghost use Rattle.recording.specs.MarkedRows.{marked_rows};
ghost use Rattle.recording.specs.ReadList.{reads_split};
ghost use Rattle.recording.specs.FoundRows.{row_list};
ghost use Rattle.recording.specs.LookupTurns.{record_reads_of, matching_of};

use super::laid::Laid;
use super::reads::{ReadList, reads_of, record_read};
use fields::lent::{flag_at, key_at};
use records::{RowId, SlotPtr, Store, Tx};
use visibility::found::read_ptr;

// Rows in an array.
pub type RowList = Laid<RowId, { RowId::ROWS }>;

// The transaction's reads with those of the marked rows recorded, rising; where they are more than it has places for, the first of them as an error.
pub fn record_marked(s: &Store, marks: &[bool; RowId::ROWS], x: &Tx) -> Result<ReadList, ReadList>
    ensures { result ≡ reads_split (record_reads_of (at_rows s.now.heads) (at_places s.now.next) (at_places s.now.xmin) x.now
        (marked_rows (flags_at_rows marks.now)) (reads_of x.now)) }
{
    let mut l = reads_of(x);
    for (i, marked) in marks.iter().enumerate() {
        if *marked {
            l = record_read(s, x, RowId(i), l)?;
        }
    }
    Ok(l)
}

// The value of a slot is key k.
fn has_key(s: &Store, p: SlotPtr, k: u32) -> bool
    ensures { result ≡ carries (at_places s.now.key) (flags_at_places s.now.has) p.0 k }
{
    flag_at(&s.has, p) && key_at(&s.key, p) == k
}

// Those of the marked rows whose read value is key k, rising.
pub fn matching(s: &Store, marks: &[bool; RowId::ROWS], x: &Tx, k: u32) -> RowList
    ensures { result ≡ row_list (matching_of (at_rows s.now.heads) (at_places s.now.next) (at_places s.now.xmin)
        (at_places s.now.key) (flags_at_places s.now.has) x.now k (marked_rows (flags_at_rows marks.now))) }
{
    let mut found = Laid::empty(RowId(0));
    for (r, marked) in marks.iter().enumerate() {
        if *marked && has_key(s, read_ptr(s, x, RowId(r)), k) {
            found.push(RowId(r));
        }
    }
    found
}
