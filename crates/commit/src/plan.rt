// The storing half of commit: the blocks of puts that a commit plans, pushed into its journal.

ghost use Rattle.std.specs.Prelude.{◌≡◌, take};

mod blocks;
mod guards;
mod marks;
mod moves;
mod own;
mod publish;
mod pushes;
pub mod run;

// The first `count` of an array, all of them where there are fewer: a paper's Vec is an array and a count.
pub fn first<T, const N: usize>(items: &[T; N], count: usize) -> &[T]
    ensures { result.now ≡ take count items.now }
{
    &items[..count.min(N)]
}
