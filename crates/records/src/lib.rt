// The store, the transaction, the schedule and the answers, in the forms that document 01 names ("Where each form goes").
// What the calls do with them stands in the crate `rules`.

#![tactic(auto)]

ghost use Rattle.std.specs.Prelude.{◌≡◌};
ghost use Rattle.records.specs.Zero.{fresh, zero_tx, no_faults};

// A txid, a row id and a slot pointer can't be mixed up.
#[derive(Clone, Copy, PartialEq, Eq)]
pub struct Txid(pub u64);

#[derive(Clone, Copy, PartialEq, Eq)]
pub struct RowId(pub usize);

#[derive(Clone, Copy, PartialEq, Eq)]
pub struct SlotPtr(pub u32);

impl Txid {
    pub const NONE: Txid = Txid(0);

    // active txids, and so txids in a snapshot
    pub const ACTIVE: usize = 16;
}

impl RowId {
    pub const ROWS: usize = 128;

    pub const PARTITIONS: usize = 16;
}

impl SlotPtr {
    pub const NULL: SlotPtr = SlotPtr(0);

    pub const SLOTS: usize = 512;

    // slot p stands at place p of an array; place 0 is no slot
    pub const PLACES: usize = SlotPtr::SLOTS + 1;
}

// A 32-bit key, or none. (No Option: a script's field is an `Option<Value>`, and of two Options one in the other neither says which is absent.)
#[derive(Clone, Copy, PartialEq, Eq)]
pub enum Value {
    Absent,
    Key(u32),
}

impl Value {
    // a key is a minute of the year: the last in a leap year
    pub const LAST_MINUTE: u32 = 527039;
}

// A slot's fields stand in seven arrays at the slot's place (the definitions read each as a list of its own, `S.xmin`, `S.next` ..): a free slot is
// all zero, and so is place 0. The posting (key, row) is the number key * ROWS + row, so that rising numbers are rising postings. Active txids stand
// before the first 0.
#[derive(Clone, Copy)]
pub struct Store {
    pub heads: [u32; RowId::ROWS],
    pub xmin: [u64; SlotPtr::PLACES],
    pub xmax: [u64; SlotPtr::PLACES],
    pub next: [u32; SlotPtr::PLACES],
    pub key: [u32; SlotPtr::PLACES],
    pub has: [bool; SlotPtr::PLACES],
    pub locked: [bool; SlotPtr::PLACES],
    pub owner: [u64; SlotPtr::PLACES],
    pub postings: [u64; Store::POSTINGS],
    pub posting_count: usize,
    pub stripe_guards: [u64; Store::STRIPES],
    pub partition_guards: [u64; RowId::PARTITIONS],
    pub stamps: [u64; Store::STRIPES],
    pub active: [u64; Txid::ACTIVE],
    pub clock: u64,
    pub poisoned: bool,
    pub doomed: u64,
    pub bound: bool,
}

impl Store {
    pub const POSTINGS: usize = 256;

    pub const STRIPES: usize = 16;

    // The empty store.
    pub fn fresh() -> Store
        ensures { result ≡ fresh }
    {
        Store {
            heads: [0; RowId::ROWS],
            xmin: [0; SlotPtr::PLACES],
            xmax: [0; SlotPtr::PLACES],
            next: [0; SlotPtr::PLACES],
            key: [0; SlotPtr::PLACES],
            has: [false; SlotPtr::PLACES],
            locked: [false; SlotPtr::PLACES],
            owner: [0; SlotPtr::PLACES],
            postings: [0; Store::POSTINGS],
            posting_count: 0,
            stripe_guards: [0; Store::STRIPES],
            partition_guards: [0; RowId::PARTITIONS],
            stamps: [0; Store::STRIPES],
            active: [0; Txid::ACTIVE],
            clock: 1,
            poisoned: false,
            doomed: 0,
            bound: false,
        }
    }
}

// Source 002's CommittedWrite: row_id, base_offset, new_offset.
#[derive(Clone, Copy, PartialEq, Eq)]
pub struct Write {
    pub row: RowId,
    pub base: SlotPtr,
    pub new: SlotPtr,
}

impl Write {
    pub const NONE: Write = Write {
        row: RowId(0),
        base: SlotPtr(0),
        new: SlotPtr(0),
    };
}

// Source 002's ReadRecord: row_id, row_ptr, xmin.
#[derive(Clone, Copy, PartialEq, Eq)]
pub struct ReadRecord {
    pub row: RowId,
    pub ptr: SlotPtr,
    pub xmin: Txid,
}

impl ReadRecord {
    pub const NONE: ReadRecord = ReadRecord {
        row: RowId(0),
        ptr: SlotPtr(0),
        xmin: Txid(0),
    };
}

#[derive(Clone, Copy, PartialEq, Eq)]
pub struct IndexRead {
    pub stripe: u32,
    pub stamp: Txid,
}

impl IndexRead {
    pub const NONE: IndexRead = IndexRead {
        stripe: 0,
        stamp: Txid(0),
    };
}

// 002's fields (snapshot_active, write_set, read_set) plus 000's index reads, index_conflict and savepoints; a Vec is an array and a count.
#[derive(Clone, Copy)]
pub struct Tx {
    pub txid: Txid,
    pub snapshot_xmin: Txid,
    pub snapshot_xmax: Txid,
    pub snapshot: [u64; Txid::ACTIVE],
    pub snapshot_count: usize,
    pub writes: [Write; Tx::WRITES],
    pub write_count: usize,
    pub reads: [ReadRecord; Tx::READS],
    pub read_count: usize,
    pub index_reads: [IndexRead; Tx::INDEX_READS],
    pub index_read_count: usize,
    pub index_conflict: bool,
    pub savepoints: [usize; Tx::SAVEPOINTS],
    pub savepoint_count: usize,
}

impl Tx {
    pub const WRITES: usize = 16;

    pub const READS: usize = 32;

    pub const INDEX_READS: usize = 16;

    pub const SAVEPOINTS: usize = 4;

    // the transactions of a script: "place 0 to 15"
    pub const PLACES: usize = 16;

    // the digits of a place
    pub const PLACE_DIGITS: usize = 2;

    // The zero transaction.
    pub fn zero() -> Tx
        ensures { result ≡ zero_tx }
    {
        Tx {
            txid: Txid::NONE,
            snapshot_xmin: Txid::NONE,
            snapshot_xmax: Txid::NONE,
            snapshot: [0; Txid::ACTIVE],
            snapshot_count: 0,
            writes: [Write::NONE; Tx::WRITES],
            write_count: 0,
            reads: [ReadRecord::NONE; Tx::READS],
            read_count: 0,
            index_reads: [IndexRead::NONE; Tx::INDEX_READS],
            index_read_count: 0,
            index_conflict: false,
            savepoints: [0; Tx::SAVEPOINTS],
            savepoint_count: 0,
        }
    }
}

// A fault at a step: its letter in ASCII, and k. (A letter and no enum: a script may plan any from A to Z, and the commit that takes it judges.)
#[derive(Clone, Copy, PartialEq, Eq)]
pub struct Fault {
    pub step: u32,
    pub letter: u8,
    pub k: u32,
}

impl Fault {
    pub const NONE: Fault = Fault {
        step: 0,
        letter: 0,
        k: 0,
    };
}

// One fault more than there are steps is never fit, so no more are kept.
#[derive(Clone, Copy)]
pub struct Schedule {
    pub faults: [Fault; Schedule::FAULTS],
    pub count: usize,
}

impl Schedule {
    pub const STEPS: usize = 24;

    pub const FAULTS: usize = Schedule::STEPS + 1;

    // "The table of 24 steps with the faults each allows", by step number: F 1, with k 2, B 4, P 8, X 16, Q 32.
    pub const ALLOWED: [u8; Schedule::FAULTS] = [
        0, 0, 0, 1, 1, 1, 9, 5, 5, 1, 1, 1, 1, 1, 1, 3, 57, 3, 3, 3, 1, 1, 3, 1, 3,
    ];

    // No fault.
    pub fn none() -> Schedule
        ensures { result ≡ no_faults }
    {
        Schedule {
            faults: [Fault::NONE; Schedule::FAULTS],
            count: 0,
        }
    }
}

// The stores after which a commit is stopped. (No Option: `None` as the last argument of a commit wouldn't say what there is none of.)
#[derive(Clone, Copy, PartialEq, Eq)]
pub enum Cut {
    Uncut,
    After(u32),
}

// What became of the transaction of a refused call: open; closed; poisoned and undone; poisoned and standing.
#[derive(Clone, Copy, PartialEq, Eq)]
pub enum Fate {
    Open,
    Closed,
    Undone,
    Standing,
}

// What a conflict met: a busy guard, or the first entry that conflicts of the test that said yes, by its place. Test 11's place 0 is index_conflict,
// and the index reads follow from 1; 12 and 14 count in the write list, 13 in the read list, from 0.
#[derive(Clone, Copy, PartialEq, Eq)]
pub enum Cause {
    BusyGuard,
    IndexReadAt(usize),
    RowLockAt(usize),
    SerializationAt(usize),
    WriteBaseAt(usize),
}

// Each refusal carries its fate inside it, and a conflict its cause too. `Done`, number 0, is none (and no Ok of a Result: the paper puts the refusal into
// the answer beside record and store, and `Committed` says so of a done one); the crate `rules` gives the others their numbers, 1 to 28 in this order,
// and 31 to the last.
#[derive(Clone, Copy, PartialEq, Eq)]
pub enum Refusal {
    Done,
    NotResting(Fate),
    Unfit(Fate),
    NotActive(Fate),
    StepFailed(Fate),
    PrepareFailed(Fate),
    PreparePanicked(Fate),
    Conflict(Cause, Fate),
    BoundDurably(Fate),
    FoundPoisoned(Fate),
    InsertFailed(Fate),
    CallbackFailed(Fate),
    CallbackPanicked(Fate),
    RemoveFailed(Fate),
    PublishFailed(Fate),
    RecycleFailed(Fate),
    FinishFailed(Fate),
    StampFailed(Fate),
    CutOff(Fate),
    CleanupFailed(Fate),
    NotRepairable(Fate),
    ActiveFull(Fate),
    ClockAtEnd(Fate),
    RowTooHigh(Fate),
    ReadsFull(Fate),
    WritesFull(Fate),
    SlotsFull(Fate),
    LockedByAnother(Fate),
    NoHead(Fate),
    ImpossibleMinute(Fate),
}

// Source 002's CommitRecord: the txid and its final writes.
#[derive(Clone, Copy)]
pub struct Record {
    pub txid: Txid,
    pub writes: [Write; Tx::WRITES],
    pub count: usize,
}

// Source 000's Events.
#[derive(Clone, Copy)]
pub struct Events {
    pub index_locked: bool,
    pub partition_locked: bool,
    pub index_validated: bool,
    pub row_lock_validated: bool,
    pub serial_validated: bool,
    pub base_validated: bool,
    pub write_ahead: bool,
    pub durably_bound: bool,
    pub has_writes: bool,
    pub unlogged_write_checked: bool,
    pub health_checked: bool,
    pub health_cleanup_required: bool,
    pub record_prepared: bool,
    pub payload_prepared: bool,
    pub preparation_cleanup_required: bool,
    pub destinations_prepared: bool,
    pub callback_complete: bool,
    pub prepared: bool,
    pub rows_published: bool,
    pub deregistered: bool,
    pub stamped: bool,
    pub poisoned: bool,
}

// What commit answers.
#[derive(Clone, Copy)]
pub struct Answer {
    pub refusal: Refusal,
    pub record: Record,
    pub store: Store,
    pub tx: Tx,
    pub events: Events,
    pub stores: usize,
}

// What begin, row lock and abort answer.
#[derive(Clone, Copy)]
pub struct Reply {
    pub refusal: Refusal,
    pub store: Store,
    pub tx: Tx,
}

// What read answers.
#[derive(Clone, Copy)]
pub struct Seen {
    pub refusal: Refusal,
    pub value: Value,
    pub tx: Tx,
}

// What write answers.
#[derive(Clone, Copy)]
pub struct Written {
    pub refusal: Refusal,
    pub slot: SlotPtr,
    pub store: Store,
    pub tx: Tx,
}

// What lookup answers: the rows are the first `count` places.
#[derive(Clone, Copy)]
pub struct Found {
    pub refusal: Refusal,
    pub rows: [RowId; RowId::ROWS],
    pub count: usize,
    pub tx: Tx,
}

// What recovery answers.
#[derive(Clone, Copy)]
pub struct Mended {
    pub refusal: Refusal,
    pub store: Store,
}
