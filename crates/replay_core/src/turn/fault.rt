// The pending faults.

ghost use Rattle.std.specs.Prelude.{◌≡◌};
ghost use Rattle.rules.specs.Replay.{with_fault};

use records::{Fault, Schedule};

// One fault more for the next C; a full schedule stays as it is.
pub(crate) fn with_fault(f: Fault, plan: Schedule) -> Schedule
    ensures { result ≡ with_fault f plan }
{
    let n = plan.count;
    if Schedule::FAULTS <= n {
        return plan;
    }
    let mut faults = [Fault::NONE; Schedule::FAULTS];
    faults[..n].copy_from_slice(&plan.faults[..n]);
    faults[n] = f;
    Schedule {
        faults,
        count: n + 1,
    }
}
