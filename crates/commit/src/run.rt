// The steps of an admitted commit: the gate that ends them, the stores up to there in one journal, and as many of them applied as the cut leaves.

ghost use Rattle.std.specs.Prelude.{◌≡◌, true};
ghost use Rattle.rules.specs.Chains.{walk};
ghost use Rattle.rules.specs.Fit.{fit};
ghost use Rattle.rules.specs.Commit.{run_of};
ghost use Rattle.rules.specs.Answer.{answer};
ghost use Rattle.fields.specs.Lent.{at_rows, at_places};

use super::plan::first;
use super::plan::run::{plan_of, push_run};
use super::{answers, planning};
use commit_tests::faults::letters_of;
use commit_tests::finals::final_writes;
use journal::Journal;
use records::{Answer, Cut, Schedule, SlotPtr, Store, Tx};
use steps::first::first_gate;
use steps::stop::place;

// The answer of the steps, by the marks of the admission's walk; a cut only makes fewer of the stores. By value, as commit has them: of a lent transaction
// a proof doesn't see how long its arrays are.
pub fn run(
    s: Store,
    x: Tx,
    logged: bool,
    plan: Schedule,
    cut: Cut,
    seen: &[u8; SlotPtr::PLACES],
) -> Answer
    ensures { seen.now ≡ (walk (at_rows s.heads) (at_places s.next)).seen → fit s x ≡ true
        → result ≡ answer s x logged (run_of s x logged plan) cut }
{
    let l = letters_of(&plan);
    let finals = final_writes(&x);
    let writes = first(&finals.at, finals.count);
    let p = plan_of(&s, seen, &x, writes);
    let q = planning::struck_of(&l, s.poisoned);
    let stop = first_gate(&l, logged, 0 < finals.count, &s, &x);
    let mut j = Journal::new();
    push_run(&p, writes, &q, place(stop), &mut j);
    let n = j.len();
    let m = answers::stop_at(cut, n);
    let bound = s.bound;
    let t = j.apply(s, m);
    if m < n {
        return answers::cut_answer(t, m);
    }
    answers::whole_answer(t, &x, &finals, logged, bound, &l, stop, n)
}
