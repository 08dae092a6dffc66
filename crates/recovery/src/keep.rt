// What the walk marked stays, the rest is cleared.

ghost use Rattle.std.specs.Prelude.{◌≡◌};
ghost use Rattle.rules.specs.Lists.{keep};

// One field of the slots that recovery keeps.
pub fn keep<T: Copy, const N: usize>(x: &mut [T; N], seen: &[u8; N], none: T)
    ensures { x.new ≡ keep none seen.now x.old }
{
    for (i, mark) in seen.iter().enumerate() {
        if *mark == 0 {
            x[i] = none;
        }
    }
}
