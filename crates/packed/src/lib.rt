// Numbers at the front of a slice, zeros behind them: postings and active txids.

#![tactic(auto)]

ghost use Rattle.std.specs.Prelude.{◌≡◌, [], ◌∷◌, ◌++◌, ◌≤◌, length, take};
ghost use Rattle.std.proofs.Math.Seq.{slice};
ghost use Rattle.rules.specs.Lists.{into, without, pad, before_zero};
ghost use Rattle.packed.specs.Packed.{Packed};
ghost use Rattle.packed.specs.Insert.{ahead};

pub mod halving;

// Zeroes every place from `from` on.
fn clear(x: &mut [u64], from: usize)
    ensures { x.new ≡ pad (length x.old) 0 (take from x.old) }
{
    if from < x.len() {
        x[from..].fill(0);
    }
}

// How many of the first m come before the first that is not below v.
fn seek(x: &[u64], m: usize, v: u64) -> usize
    requires { m ≤ length x.now }
    ensures { result ≡ ahead v (take m x.now) }
{
    x[..m].iter().take_while(|y| **y < v).count()
}

// The first m numbers with v in front of the one at place i; without room the last one goes.
fn shift(x: &mut [u64], i: usize, m: usize, v: u64)
    requires { (i ≤ m) × (m ≤ length x.old) }
    ensures { x.new ≡ pad (length x.old) 0 (take i x.old ++ v ∷ slice i m x.old) }
{
    let end = x.len().min(m + 1);
    if i < end {
        x.copy_within(i..end - 1, i + 1);
        x[i] = v;
        clear(x, end);
    }
}

// The first n numbers with v in its place, once.
pub fn insert(x: &mut [u64], n: usize, v: u64) -> usize
    ensures { Packed (into v (take n x.old)) (length x.old) x.new result }
{
    let m = n.min(x.len());
    let i = seek(x, m, v);
    if i < m && x[i] == v {
        clear(x, m);
        return m;
    }
    shift(x, i, m, v);
    m + 1
}

// The first m numbers without v.
fn strip(x: &mut [u64], m: usize, v: u64) -> usize
    requires { m ≤ length x.old }
    ensures { Packed (without v (take m x.old)) (length x.old) x.new result }
{
    let mut kept: usize = 0;
    for i in 0..m {
        let y = x[i];
        if y != v {
            x[kept] = y;
            kept += 1;
        }
    }
    clear(x, kept);
    kept
}

// The first n numbers without v.
pub fn remove(x: &mut [u64], n: usize, v: u64) -> usize
    ensures { Packed (without v (take n x.old)) (length x.old) x.new result }
{
    let first = n.min(x.len());
    strip(x, first, v)
}

// How many stand before the first zero.
fn live(x: &[u64]) -> usize
    ensures { result ≡ length (before_zero x.now) }
{
    x.iter().take_while(|y| **y != 0).count()
}

// The numbers before the first zero, and v behind them.
pub fn enter(x: &mut [u64], v: u64)
    ensures { x.new ≡ pad (length x.old) 0 (before_zero x.old ++ v ∷ []) }
{
    let m = live(x);
    shift(x, m, m, v);
}

// The numbers before the first zero, without v.
pub fn leave(x: &mut [u64], v: u64)
    ensures { x.new ≡ pad (length x.old) 0 (without v (before_zero x.old)) }
{
    let m = live(x);
    strip(x, m, v);
}
