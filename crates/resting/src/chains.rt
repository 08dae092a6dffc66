// The versions of the chains, and the used slots on them and off them.

ghost use Rattle.std.specs.Prelude.{◌≡◌};
ghost use Rattle.rules.specs.Lists.{all};
ghost use Rattle.rules.specs.Store.{used_slots};
ghost use Rattle.rules.specs.Admitted.{finished};
ghost use Rattle.resting.specs.VersionTurns.{tail_at, behind_at, chain_at};
ghost use Rattle.resting.specs.Used.{off_at, settled_by, rest_at};

use fields::lent::{at, place};
use fields::txids;
use records::{SlotPtr, Store};

// Neither active nor doomed, or no txid.
fn is_finished(s: &Store, t: u64) -> bool
    ensures { result ≡ finished s.now.active s.now.doomed t }
{
    txids::is_finished(&s.active, s.doomed, t)
}

// Finished versions of at most `left` slots from p on, the first with xmax `over`, each next one with the xmin before it.
fn tail_ok(s: &Store, over: u64, left: usize, p: u32) -> bool
    ensures { result ≡ tail_at s.now over left p }
{
    let mut v = over;
    let mut q = p;
    for _turn in 0..left {
        if q == 0 {
            return true;
        }
        let i = place(q);
        let t = at(&s.xmin, i, 0);
        if at(&s.xmax, i, 0) != v || !is_finished(s, t) {
            return false;
        }
        v = t;
        q = at(&s.next, i, 0);
    }
    true
}

// Behind an unfinished version of t: the first version's xmax is 0 or t.
fn behind_ok(s: &Store, t: u64, p: u32) -> bool
    ensures { result ≡ behind_at s.now t p }
{
    if p == 0 {
        return true;
    }
    let by = at(&s.xmax, place(p), 0);
    (by == 0 || by == t) && tail_ok(s, by, SlotPtr::SLOTS, p)
}

// "only a chain's first version may have an unfinished xmin, with xmax 0; ..": the chain of one head.
fn chain_ok(s: &Store, head: u32) -> bool
    ensures { result ≡ chain_at s.now head }
{
    if head == 0 {
        return true;
    }
    let i = place(head);
    let t = at(&s.xmin, i, 0);
    let over = at(&s.xmax, i, 0);
    if is_finished(s, t) {
        return (over == 0 || !is_finished(s, over)) && tail_ok(s, over, SlotPtr::PLACES, head);
    }
    over == 0 && behind_ok(s, t, at(&s.next, i, 0))
}

// Every row's chain.
pub fn chains_ok(s: &Store) -> bool
    ensures { result ≡ all (chain_at s.now) s.now.heads }
{
    s.heads.iter().all(|h| chain_ok(s, *h))
}

// "a used slot off every chain has an unfinished xmin, xmax 0, next at most" the last slot: the slot at place i.
fn off_ok(s: &Store, seen: &[u8; SlotPtr::PLACES], i: usize) -> bool
    ensures { result ≡ off_at s.now seen.now i }
{
    at(seen, i, 0) != 0
        || (!is_finished(s, at(&s.xmin, i, 0))
            && at(&s.xmax, i, 0) == 0
            && place(at(&s.next, i, 0)) <= SlotPtr::SLOTS)
}

// Every used slot off the chains.
pub fn off_slots_ok(s: &Store, seen: &[u8; SlotPtr::PLACES]) -> bool
    ensures { result ≡ all (off_at s.now seen.now) (used_slots s.now.xmin) }
{
    s.xmin
        .iter()
        .enumerate()
        .all(|(i, t)| *t == 0 || off_ok(s, seen, i))
}

// Finished, or the doomed one.
fn settled(s: &Store, t: u64) -> bool
    ensures { result ≡ settled_by s.now t }
{
    is_finished(s, t) || t == s.doomed
}

// "any unfinished txid found as a chain's xmin or xmax is the doomed one": the slot at place i.
fn rest_ok(s: &Store, seen: &[u8; SlotPtr::PLACES], i: usize) -> bool
    ensures { result ≡ rest_at s.now seen.now i }
{
    at(seen, i, 0) == 0 || (settled(s, at(&s.xmin, i, 0)) && settled(s, at(&s.xmax, i, 0)))
}

// Every used slot on a chain.
pub fn chains_rest(s: &Store, seen: &[u8; SlotPtr::PLACES]) -> bool
    ensures { result ≡ all (rest_at s.now seen.now) (used_slots s.now.xmin) }
{
    s.xmin
        .iter()
        .enumerate()
        .all(|(i, t)| *t == 0 || rest_ok(s, seen, i))
}
