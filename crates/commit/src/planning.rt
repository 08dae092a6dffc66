// What strikes the stores of a commit.

ghost use Rattle.std.specs.Prelude.{◌≡◌, Bool};
ghost use Rattle.rules.specs.Types.{Store, Tx, Schedule};
ghost use Rattle.commit_tests.specs.Striking.{letters};
ghost use Rattle.commit.specs.Plan.Planned.{struck_of};

use super::plan::run::Struck;
use commit_tests::faults::Letters;

// What a schedule says of the stores, by its letters and their k.
pub fn struck_of(l: &Letters, poisoned: bool) -> Struck
    ensures { (S : Store) (x : Tx) (logged : Bool) (plan : Schedule) → l.now ≡ letters plan → poisoned ≡ S.poisoned → result ≡ struck_of S x logged plan }
{
    Struck {
        inserted: l.count(15) as usize,
        removed: l.count(17) as usize,
        published: l.count(18) as usize,
        recycled: l.count(19) as usize,
        stamped: l.count(22) as usize,
        rolled: l.count(24) as usize,
        finish: l.strikes(21, b'F'),
        abort: l.strikes(23, b'F'),
        rollback: l.strikes(24, b'F'),
        worse: l.strikes(16, b'X') || l.strikes(16, b'Q'),
        poisoned,
    }
}
