// Resting stores.

ghost use Rattle.std.specs.Prelude.{◌≡◌};
ghost use Rattle.rules.specs.Chains.{walk};
ghost use Rattle.rules.specs.Admitted.{resting};
ghost use Rattle.fields.specs.Lent.{at_rows, at_places};

use super::chains::chains_rest;
use super::postings::{healthy_or_poisoned, postings_in_form};
use super::repair::repairable_of;
use fields::lent::zeros_from;
use records::{SlotPtr, Store};

// The store is at rest; `seen` comes back with the marks of the walk: admission judges the transaction under them.
pub fn resting_marked(s: &Store, seen: &mut [u8; SlotPtr::PLACES]) -> bool
    ensures answer { result ≡ resting s.now }
    ensures marks { seen.new ≡ (walk (at_rows s.now.heads) (at_places s.now.next)).seen }
{
    repairable_of(s, seen)
        && zeros_from(&s.stripe_guards, 0)
        && zeros_from(&s.partition_guards, 0)
        && postings_in_form(s)
        && chains_rest(s, seen)
        && healthy_or_poisoned(s)
}

// Admitted: every call but recovery asks it.
pub fn resting(s: Store) -> bool
    ensures { result ≡ resting s }
{
    let mut seen = [0; SlotPtr::PLACES];
    resting_marked(&s, &mut seen)
}
