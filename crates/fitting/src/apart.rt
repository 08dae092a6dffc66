// Lists of which no entry clashes with a later one: writes, index reads, faults.

ghost use Rattle.std.specs.Prelude.{◌≡◌, Bool};
ghost use Rattle.basic_laws.specs.Members.{pairs};
ghost use Rattle.fitting.specs.Apart.{writes_differ, stripes_differ, steps_differ};

use records::{Fault, IndexRead, Write};

// An entry that may not stand before just any other.
pub trait Apart {
    ghost differ: { Self → Self → Bool };

    fn differs(&self, later: &Self) -> bool
        ensures { result ≡ differ self.now later.now };
}

// "each new pointer distinct"; "writes of one row share a base"
impl Apart for Write {
    ghost differ = { writes_differ };

    fn differs(&self, later: &Self) -> bool {
        later.new.0 != self.new.0 && (later.row.0 != self.row.0 || later.base.0 == self.base.0)
    }
}

// "stripes .. distinct"
impl Apart for IndexRead {
    ghost differ = { stripes_differ };

    fn differs(&self, later: &Self) -> bool {
        later.stripe != self.stripe
    }
}

// No two faults at one step.
impl Apart for Fault {
    ghost differ = { steps_differ };

    fn differs(&self, later: &Self) -> bool {
        later.step != self.step
    }
}

// Each entry differs from all later ones.
pub fn all_apart<T: Apart>(x: &[T]) -> bool
    ensures { result ≡ pairs T.differ x.now }
{
    for (i, e) in x.iter().enumerate() {
        if !x[i + 1..].iter().all(|later| e.differs(later)) {
            return false;
        }
    }
    true
}
