// The faults of a schedule, by step.

ghost use Rattle.std.specs.Prelude.{◌≡◌, eqb};
ghost use Rattle.rules.specs.Faults.{faults_of};
ghost use Rattle.commit_tests.specs.Striking.{letters, letter_in, count_in};

use records::{Fault, Schedule};

// The fault that strikes at each step, `Fault::NONE` for none: a commit reads its schedule once, and then asks these.
#[derive(Clone, Copy)]
pub struct Letters {
    pub at: [Fault; Schedule::FAULTS],
}

impl Letters {
    // The letter that strikes at a step, 0 for none.
    pub fn letter(&self, step: usize) -> u8
        ensures { result ≡ letter_in self.now step }
    {
        self.at.get(step).copied().unwrap_or(Fault::NONE).letter
    }

    // The letter strikes at the step.
    pub fn strikes(&self, step: usize, letter: u8) -> bool
        ensures { result ≡ eqb (letter_in self.now step) letter }
    {
        self.letter(step) == letter
    }

    // The k of the fault at a step, 0 for none.
    pub fn count(&self, step: usize) -> u32
        ensures { result ≡ count_in self.now step }
    {
        self.at.get(step).copied().unwrap_or(Fault::NONE).k
    }
}

// The faults of a schedule: as many places of its array as it counts.
fn listed(plan: &Schedule) -> &[Fault]
    ensures { result.now ≡ faults_of plan.now }
{
    plan.faults.get(..plan.count).unwrap_or(&plan.faults)
}

pub fn letters_of(plan: &Schedule) -> Letters
    ensures { result ≡ letters plan.now }
{
    let mut at = [Fault::NONE; Schedule::FAULTS];
    let faults = listed(plan);
    // from the last fault back, so that the first of a step stands
    for i in (0..faults.len()).rev() {
        let f = faults[i];
        let step = f.step as usize;
        if step < Schedule::FAULTS {
            at[step] = f;
        }
    }
    Letters { at }
}
