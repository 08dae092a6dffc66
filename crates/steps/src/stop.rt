// Where a run of commit ends.

ghost use Rattle.std.specs.Prelude.{◌≡◌, [], ◌∷◌};
ghost use Rattle.rules.specs.Types.{BusyGuard};
ghost use Rattle.steps.specs.Places.{place_of, end_place};
ghost use Rattle.steps.specs.Ended.{stop_place, two_gates};
ghost use Rattle.steps.specs.Stops.{gate_from};

use super::gate::Gate;
use records::Cause;

// Where a run ends: its gate, and the cause there, which a 7 names.
#[derive(Clone, Copy)]
pub struct Stop {
    pub gate: Gate,
    pub cause: Cause,
}

// Only at a test's gate is the cause not a busy guard.
impl From<Gate> for Stop {
    ghost from_gives = { λ g s. s ≡ record { gate = g; cause = BusyGuard } };

    fn from(gate: Gate) -> Stop {
        Stop {
            gate,
            cause: Cause::BusyGuard,
        }
    }
}

// A gate ends the run, if it is struck.
pub(crate) fn stop_if(struck: bool, gate: Gate) -> Result<(), Gate>
    ensures { end_place result ≡ gate_from (place_of gate) (struck ∷ []) }
{
    if struck { Err(gate) } else { Ok(()) }
}

// A test's fault ends the run before its answer is looked at; the test was made, so either gate tells the cause.
pub(crate) fn stop_tested(
    struck: bool,
    failed: Gate,
    yes: bool,
    conflict: Gate,
    cause: Cause,
) -> Result<(), Stop>
    ensures { result ≡ two_gates struck failed yes conflict cause }
{
    if struck {
        return Err(Stop {
            gate: failed,
            cause,
        });
    }
    if yes {
        Err(Stop {
            gate: conflict,
            cause,
        })
    } else {
        Ok(())
    }
}

// The place of a run's end among the gates; a clean run's is past them.
pub fn place(stop: Result<(), Stop>) -> usize
    ensures { result ≡ stop_place stop }
{
    match stop {
        Ok(()) => Gate::CLEAN,
        Err(s) => s.gate.place(),
    }
}
