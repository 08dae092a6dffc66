// The record and the events that commit answers.

ghost use Rattle.std.specs.Prelude.{◌≡◌};
ghost use Rattle.steps.specs.RecordAndEvents.{record_with, events_by};

use super::ends::Ending;
use super::none::no_record;
use commit_tests::finals::Finals;
use records::{Events, Record, Tx};

// The record is zero unless the commit is done: then it names the transaction and the final writes.
pub fn record_of(done: bool, x: &Tx, finals: &Finals) -> Record
    ensures { result ≡ record_with done x.now finals.now }
{
    if !done {
        return no_record();
    }
    Record {
        txid: x.txid,
        writes: finals.at,
        count: finals.count,
    }
}

// The flags of a run that passed `passed` steps and ended so.
pub fn events_of(logged: bool, bound: bool, writing: bool, passed: usize, end: &Ending) -> Events
    ensures { result ≡ events_by logged bound writing passed end.now }
{
    Events {
        index_locked: false,
        partition_locked: false,
        index_validated: 11 <= passed,
        row_lock_validated: 12 <= passed,
        serial_validated: 13 <= passed,
        base_validated: 14 <= passed,
        write_ahead: logged,
        durably_bound: bound,
        has_writes: writing,
        unlogged_write_checked: !logged && writing && 8 <= passed,
        health_checked: 10 <= passed,
        health_cleanup_required: false,
        record_prepared: logged && 5 <= passed,
        payload_prepared: logged && 6 <= passed,
        preparation_cleanup_required: end.cleanup,
        destinations_prepared: 15 <= passed && !end.undone,
        callback_complete: logged && 16 <= passed,
        prepared: 17 <= passed,
        rows_published: 17 <= passed,
        deregistered: 21 <= passed || end.dropped,
        stamped: 22 <= passed,
        poisoned: end.poisoned,
    }
}
