// What an answer tells beside the store.

ghost use Rattle.std.specs.Prelude.{◌≡◌};
ghost use Rattle.inplace.specs.Answered.{told, wrote, committed};

use super::{Committed, Told, Wrote};
use records::{Answer, Reply, Written};

impl From<Reply> for Told {
    fn from(a: Reply) -> Told
        ensures { result ≡ told a }
    {
        Told {
            refusal: a.refusal,
            tx: a.tx,
        }
    }
}

impl From<Written> for Wrote {
    fn from(a: Written) -> Wrote
        ensures { result ≡ wrote a }
    {
        Wrote {
            refusal: a.refusal,
            slot: a.slot,
            tx: a.tx,
        }
    }
}

impl From<Answer> for Committed {
    fn from(a: Answer) -> Committed
        ensures { result ≡ committed a }
    {
        Committed {
            refusal: a.refusal,
            record: a.record,
            tx: a.tx,
            events: a.events,
            stores: a.stores,
        }
    }
}
