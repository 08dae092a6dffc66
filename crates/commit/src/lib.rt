// Commit: the admission, the gate that ends the run, its stores as one journal, and the answer.

#![tactic(auto)]

ghost use Rattle.std.specs.Prelude.{◌≡◌};
ghost use Rattle.rules.specs.Answer.{commit};

mod answers;
mod plan;
mod planning;
mod run;

use admit::admission::admitted_marked;
use fitting::schedule::schedule_fit;
use records::{Answer, Cut, Schedule, SlotPtr, Store, Tx};

// Tries 1, 2 and 3, then the steps, which go by the marks of the same walk; a refusal leaves all unchanged.
pub fn commit(s: Store, x: Tx, logged: bool, plan: Schedule, cut: Cut) -> Answer
    ensures { result ≡ commit s x logged plan cut }
{
    let mut seen = [0; SlotPtr::PLACES];
    if let Err(why) = admitted_marked(&s, &x, schedule_fit(plan), &mut seen) {
        return answers::unchanged(s, x, why);
    }
    run::run(s, x, logged, plan, cut, &seen)
}
