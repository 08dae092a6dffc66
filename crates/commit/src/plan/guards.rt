// The guards of a commit, marked by their places.

ghost use Rattle.std.specs.Prelude.{◌≡◌, map};
ghost use Rattle.rules.specs.Transaction.{reads_of, index_reads_of};
ghost use Rattle.fields.specs.Marks.{mark_all};
ghost use Rattle.commit.specs.Plan.Guards.{stripe_read, partition_read, written_marks, partition_marks};

use super::first;
use super::marks::mark_each;
use records::{RowId, Store, Tx};

// The stripes of index reads, besides those that are marked; a stripe too high is not marked.
pub fn guarded_stripes(x: &Tx, changed: [bool; Store::STRIPES]) -> [bool; Store::STRIPES]
    ensures { result ≡ mark_all (map stripe_read (index_reads_of x.now)) changed }
{
    let mut marks = changed;
    mark_each(
        first(&x.index_reads, x.index_read_count),
        |e| e.stripe as usize,
        true,
        &mut marks,
    );
    marks
}

// The partitions of written rows.
fn written_partitions(x: &Tx) -> [bool; RowId::PARTITIONS]
    ensures { result ≡ written_marks x.now }
{
    let mut marks = [false; RowId::PARTITIONS];
    mark_each(
        first(&x.writes, x.write_count),
        |w| w.row.0 % RowId::PARTITIONS,
        true,
        &mut marks,
    );
    marks
}

// The partitions of read rows, besides those that are marked.
fn read_partitions(x: &Tx, written: [bool; RowId::PARTITIONS]) -> [bool; RowId::PARTITIONS]
    ensures { result ≡ mark_all (map partition_read (reads_of x.now)) written }
{
    let mut marks = written;
    mark_each(
        first(&x.reads, x.read_count),
        |e| e.row.0 % RowId::PARTITIONS,
        true,
        &mut marks,
    );
    marks
}

// The partitions of written and read rows.
pub fn guarded_partitions(x: &Tx) -> [bool; RowId::PARTITIONS]
    ensures { result ≡ partition_marks x.now }
{
    read_partitions(x, written_partitions(x))
}
