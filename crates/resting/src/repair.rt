// Repairable stores.

ghost use Rattle.std.specs.Prelude.{◌≡◌};
ghost use Rattle.rules.specs.Chains.{walk};
ghost use Rattle.rules.specs.Admitted.{repairable};
ghost use Rattle.fields.specs.Lent.{at_rows, at_places};

use super::active::active_in_form;
use super::chains::{chains_ok, off_slots_ok};
use super::slots::{slots_in_form, used_if_marked, xmins_below};
use fields::walk::walk_all;
use records::{SlotPtr, Store};

// The store is repairable; `seen` comes back with the marks of the walk.
pub(crate) fn repairable_of(s: &Store, seen: &mut [u8; SlotPtr::PLACES]) -> bool
    ensures answer { result ≡ repairable s.now }
    ensures marks { seen.new ≡ (walk (at_rows s.now.heads) (at_places s.now.next)).seen }
{
    let apart = walk_all(&s.heads, &s.next, seen);
    // the tests that cost next to nothing first, so that a store which fails them is refused at once
    apart
        && 1 <= s.clock
        && s.doomed < s.clock
        && slots_in_form(s)
        && active_in_form(s)
        && xmins_below(s)
        && used_if_marked(s, seen)
        && chains_ok(s)
        && off_slots_ok(s, seen)
}

// Whether recovery can mend it.
pub fn repairable(s: Store) -> bool
    ensures { result ≡ repairable s }
{
    let mut seen = [0; SlotPtr::PLACES];
    repairable_of(&s, &mut seen)
}
