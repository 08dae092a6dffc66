// Record and events of a commit that is refused before its steps, or cut.

ghost use Rattle.std.specs.Prelude.{◌≡◌};
ghost use Rattle.rules.specs.Answer.{no_record, no_events};

use records::{Events, Record, Tx, Txid, Write};

pub fn no_record() -> Record
    ensures { result ≡ no_record }
{
    Record {
        txid: Txid::NONE,
        writes: [Write::NONE; Tx::WRITES],
        count: 0,
    }
}

// Zero on 1, 2, 3 and 18.
pub fn no_events() -> Events
    ensures { result ≡ no_events }
{
    Events {
        index_locked: false,
        partition_locked: false,
        index_validated: false,
        row_lock_validated: false,
        serial_validated: false,
        base_validated: false,
        write_ahead: false,
        durably_bound: false,
        has_writes: false,
        unlogged_write_checked: false,
        health_checked: false,
        health_cleanup_required: false,
        record_prepared: false,
        payload_prepared: false,
        preparation_cleanup_required: false,
        destinations_prepared: false,
        callback_complete: false,
        prepared: false,
        rows_published: false,
        deregistered: false,
        stamped: false,
        poisoned: false,
    }
}
