// A list in an array of fixed size, as reads, index reads, writes and found rows are.

ghost use Rattle.std.specs.Prelude.{◌≡◌, ◌+◌, ◌^◌, ◌<◌, ◌≤◌, List, [], ◌∷◌, ◌++◌, length, take};
ghost use Rattle.recording.specs.Laid.{laid};

// The first `count` of an array, or all.
pub(crate) fn first_of<T: Copy, const N: usize>(x: &[T; N], count: usize) -> &[T]
    ensures { result.now ≡ take count x.now }
{
    &x[..count.min(N)]
}

// Its first elements, and how many there are: a count above the places means that the last ones have none.
#[derive(Clone, Copy)]
pub struct Laid<T, const N: usize> {
    pub at: [T; N],
    pub count: usize,
}

impl<T: Copy, const N: usize> Laid<T, N> {
    // No element.
    pub(crate) fn empty(none: T) -> Laid<T, N>
        ensures { result ≡ laid N none [] }
    {
        Laid {
            at: [none; N],
            count: 0,
        }
    }

    // The first `count` of an array, `none` at the other places.
    pub(crate) fn first(x: &[T; N], count: usize, none: T) -> Laid<T, N>
        ensures first { result ≡ laid N none (take count x.now) }
        ensures few { result.count ≤ N }
    {
        let n = count.min(N);
        let mut at = [none; N];
        at[..n].copy_from_slice(&x[..n]);
        Laid { at, count: n }
    }

    // One element more; where there is no place for it, only the count tells.
    pub(crate) fn push(&mut self, e: T)
        requires { self.old.count + 1 < 2 ^ 64 }
        ensures { (z : T) (m : List T) → self.old ≡ laid N z m → self.new ≡ laid N z (m ++ e ∷ []) }
    {
        let i = self.count;
        self.count = i + 1;
        if i < N {
            self.at[i] = e;
        }
    }

    // The elements that have a place: all, where each has.
    pub(crate) fn as_slice(&self) -> &[T]
        ensures first { result.now ≡ take self.now.count self.now.at }
        ensures whole { (z : T) (m : List T) → self.now ≡ laid N z m → length m ≤ N → result.now ≡ m }
    {
        first_of(&self.at, self.count)
    }
}
