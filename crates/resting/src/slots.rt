// The form of the slots: "A free slot is all zero; an absent key is stored as 0." No used slot holds a key over the last minute.

ghost use Rattle.std.specs.Prelude.{◌≡◌, ◌<◌, ltb};
ghost use Rattle.records.specs.Limits.{places};
ghost use Rattle.rules.specs.Lists.{all, every, each_or, is_zero, nonzero};
ghost use Rattle.rules.specs.Store.{slots_in_form};
ghost use Rattle.resting.specs.SlotForm.{slot_form};

use records::{SlotPtr, Store, Value};

// One slot.
fn slot_in_form(s: &Store, i: usize) -> bool
    requires { i < places }
    ensures { result ≡ every (slot_form s.now i) }
{
    if s.xmin[i] != 0 {
        return if s.has[i] {
            s.key[i] <= Value::LAST_MINUTE
        } else {
            s.key[i] == 0
        };
    }
    s.xmax[i] == 0
        && s.next[i] == 0
        && !s.has[i]
        && !s.locked[i]
        && s.owner[i] == 0
        && s.key[i] == 0
}

// Every slot, and place 0 is none.
pub fn slots_in_form(s: &Store) -> bool
    ensures { result ≡ slots_in_form s.now }
{
    if s.xmin[0] != 0 {
        return false;
    }
    for i in 0..SlotPtr::PLACES {
        if !slot_in_form(s, i) {
            return false;
        }
    }
    true
}

// No free slot is marked.
pub fn used_if_marked(s: &Store, seen: &[u8; SlotPtr::PLACES]) -> bool
    ensures { result ≡ each_or is_zero nonzero seen.now s.now.xmin }
{
    seen.iter().zip(&s.xmin).all(|(m, t)| *m == 0 || *t != 0)
}

// Every xmin is below the clock.
pub fn xmins_below(s: &Store) -> bool
    ensures { result ≡ all (λ t. ltb t s.now.clock) s.now.xmin }
{
    s.xmin.iter().all(|t| *t < s.clock)
}
