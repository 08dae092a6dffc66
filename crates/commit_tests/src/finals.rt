// The final writes of a transaction: those with no later write of their row.

ghost use Rattle.std.specs.Prelude.{◌≡◌, ◌≤◌, not, length, drop};
ghost use Rattle.records.specs.Limits.{write_limit};
ghost use Rattle.rules.specs.Lists.{any};
ghost use Rattle.rules.specs.Transaction.{writes_of};
ghost use Rattle.commit_tests.specs.FinalTurns.{of_row, finals_laid};

use records::{RowId, Tx, Write};

// The final writes in list order: the first `count` places.
#[derive(Clone, Copy)]
pub struct Finals {
    pub at: [Write; Tx::WRITES],
    pub count: usize,
}

// The writes of a transaction: as many places of its array as it counts.
pub(crate) fn written(x: &Tx) -> &[Write]
    ensures are { result.now ≡ writes_of x.now }
    ensures few { length result.now ≤ write_limit }
{
    x.writes.get(..x.write_count).unwrap_or(&x.writes)
}

// No write from a place on is of the row.
pub(crate) fn unwritten_from(writes: &[Write], from: usize, row: RowId) -> bool
    ensures { result ≡ not (any (of_row row.0) (drop from writes.now)) }
{
    !writes.iter().skip(from).any(|w| w.row == row)
}

pub fn final_writes(x: &Tx) -> Finals
    ensures { result ≡ finals_laid x.now }
{
    let writes = written(x);
    let mut at = [Write::NONE; Tx::WRITES];
    let mut count: usize = 0;
    for (i, w) in writes.iter().enumerate() {
        if unwritten_from(writes, i + 1, w.row) {
            at[count] = *w;
            count += 1;
        }
    }
    Finals { at, count }
}
