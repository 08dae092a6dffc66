// The active list's form.

ghost use Rattle.std.specs.Prelude.{◌≡◌};
ghost use Rattle.rules.specs.Store.{active_in_form};

use fields::lent::zeros_from;
use records::Store;

// Rising, below the clock, zero after them.
pub fn active_in_form(s: &Store) -> bool
    ensures { result ≡ active_in_form s.now.active s.now.clock }
{
    let mut last = 0;
    for (i, t) in s.active.iter().enumerate() {
        if *t == 0 {
            return zeros_from(&s.active, i);
        }
        if *t <= last || s.clock <= *t {
            return false;
        }
        last = *t;
    }
    true
}
