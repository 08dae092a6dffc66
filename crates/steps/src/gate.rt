// The gates at which a run of commit can end, in upstream's order: a fault at a step is a gate, and so is a test that says yes.
// Their names and their table stand here, and nowhere else in code.

ghost use Rattle.std.specs.Prelude.{◌≡◌};
ghost use Rattle.steps.specs.GateTable.{row_at, number_at, passed_at, left_at};
ghost use Rattle.steps.specs.Places.{place_of};

#[derive(Clone, Copy, PartialEq, Eq, PartialOrd, Ord)]
pub enum Gate {
    ChangesFailed,
    LockKeysFailed,
    RecordFailed,
    PrepareFailed,
    PreparePanicked,
    IndexGuardsFailed,
    IndexGuardsBusy,
    PartitionGuardsFailed,
    PartitionGuardsBusy,
    UnloggedCheckFailed,
    DurablyBound,
    Poisoned,
    IndexReadsFailed,
    IndexReadsConflict,
    RowLocksFailed,
    RowLocksConflict,
    SerializationFailed,
    SerializationConflict,
    WriteBaseFailed,
    WriteBaseConflict,
    InsertFailed,
    CallbackEnded,
    RemoveFailed,
    PublishFailed,
    RecycleFailed,
    FinishFailed,
    StampFailed,
}

impl Gate {
    // The place of the run that passes all the gates.
    pub const CLEAN: usize = 27;

    pub const PARTITION_GUARDS_FAILED: usize = 7;

    pub const UNLOGGED_CHECK_FAILED: usize = 9;

    pub const INSERT_FAILED: usize = 20;

    pub const CALLBACK_ENDED: usize = 21;

    pub const REMOVE_FAILED: usize = 22;

    pub const PUBLISH_FAILED: usize = 23;

    pub const RECYCLE_FAILED: usize = 24;

    pub const FINISH_FAILED: usize = 25;

    pub const STAMP_FAILED: usize = 26;

    pub fn place(self) -> usize
        ensures { result ≡ place_of self }
    {
        self as usize
    }
}

// What is left of the transaction: all, what an abort leaves, no accesses, no writes, the lists emptied.
#[derive(Clone, Copy, PartialEq, Eq)]
pub enum Left {
    All,
    ByAbort,
    NoAccesses,
    NoWrites,
    Emptied,
}

// A row of the table: the number that a gate answers if cleaning up works, the steps passed before it, and what it leaves of the transaction.
// By position and not by names, so that the table has one line for each gate.
#[derive(Clone, Copy)]
pub struct Row(pub u8, pub usize, pub Left);

impl Row {
    // A callback's panic, 12, shares its gate with 11.
    const TABLE: [Row; Gate::CLEAN] = [
        Row(4, 2, Left::All),
        Row(4, 3, Left::All),
        Row(5, 4, Left::ByAbort),
        Row(5, 5, Left::ByAbort),
        Row(6, 5, Left::ByAbort),
        Row(4, 6, Left::All),
        Row(7, 6, Left::ByAbort),
        Row(4, 7, Left::All),
        Row(7, 7, Left::ByAbort),
        Row(4, 8, Left::All),
        Row(8, 8, Left::All),
        Row(9, 9, Left::ByAbort),
        Row(4, 10, Left::All),
        Row(7, 10, Left::ByAbort),
        Row(4, 11, Left::All),
        Row(7, 11, Left::ByAbort),
        Row(4, 12, Left::All),
        Row(7, 12, Left::ByAbort),
        Row(4, 13, Left::All),
        Row(7, 13, Left::ByAbort),
        Row(10, 14, Left::All),
        Row(11, 15, Left::ByAbort),
        Row(13, 16, Left::All),
        Row(14, 17, Left::NoAccesses),
        Row(15, 18, Left::NoWrites),
        Row(16, 20, Left::Emptied),
        Row(17, 21, Left::Emptied),
    ];

    // The run that passes them all.
    const CLEAN: Row = Row(0, 23, Left::Emptied);
}

// The row of the gate at a place; past them the clean run's.
fn row_at(gate: usize) -> Row
    ensures { result ≡ row_at gate }
{
    Row::TABLE.get(gate).copied().unwrap_or(Row::CLEAN)
}

pub(crate) fn number_at(gate: usize) -> u8
    ensures { result ≡ number_at gate }
{
    row_at(gate).0
}

pub fn passed_at(gate: usize) -> usize
    ensures { result ≡ passed_at gate }
{
    row_at(gate).1
}

pub fn left_at(gate: usize) -> Left
    ensures { result ≡ left_at gate }
{
    row_at(gate).2
}
