// Fit schedules.

ghost use Rattle.std.specs.Prelude.{◌≡◌};
ghost use Rattle.rules.specs.Faults.{bit_of, allowed, schedule_fit};

use super::apart::all_apart;
use records::{Fault, Schedule};

// A letter's bit in the masks.
fn bit_of(letter: u8) -> u8
    ensures { result ≡ bit_of letter }
{
    // letters and masks stay numbers: the paper's constant table from step number to fault mask
    match letter {
        b'F' => 1,
        b'B' => 4,
        b'P' => 8,
        b'X' => 16,
        b'Q' => 32,
        _ => 64,
    }
}

// The step has the letter, and k is 0 outside Fk.
fn fault_allowed(f: &Fault) -> bool
    ensures { result ≡ allowed f.now }
{
    let mask = rules::allowed_at(f.step);
    mask / bit_of(f.letter) % 2 == 1 && (f.k == 0 || mask / 2 % 2 == 1 && f.letter == b'F')
}

// "A schedule is unfit with two faults at one step, a letter the step lacks, or k nonzero outside Fk."
pub fn schedule_fit(c: Schedule) -> bool
    ensures { result ≡ schedule_fit c }
{
    let n = c.count.min(Schedule::FAULTS);
    let faults = &c.faults[..n];
    faults.iter().all(fault_allowed) && all_apart(faults)
}
