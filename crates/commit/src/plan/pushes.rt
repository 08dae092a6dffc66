// Runs of puts, one for each listed posting.

ghost use Rattle.std.specs.Prelude.{◌≡◌, map, reverse, ℕ, take};
ghost use Rattle.rules.specs.Puts.{Put as RulesPut, put_remove};
ghost use Rattle.journal.specs.Journal.{meant};
ghost use Rattle.journal.specs.Adds.{Adds};

use journal::{Journal, Put};

// The put of each posting: insertions and removals.
pub(crate) fn push_listed<F: Fn(u64) -> Put>(codes: &[u64], put: F, j: &mut Journal)
    requires { F.IsAlwaysCallable put }
    ensures { (f : ℕ → RulesPut) → ((c : ℕ) (p : _) → F.post put c p → meant p ≡ f c) → Adds j.old (map f codes.now) j.new }
{
    for c in codes {
        j.push(put(*c));
    }
}

// The first `limit` removals of these postings, the last one first: rollback.
pub(crate) fn push_back(codes: &[u64], limit: usize, j: &mut Journal)
    ensures { Adds j.old (take limit (map put_remove (reverse codes.now))) j.new }
{
    for c in codes.iter().rev().take(limit) {
        j.push(Put::Remove(*c));
    }
}
