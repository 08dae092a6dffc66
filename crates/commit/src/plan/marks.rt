// Marks at the places of a list's items.

ghost use Rattle.std.specs.Prelude.{◌≡◌, map, ℕ};
ghost use Rattle.std.specs.Fn.{FnReturnsAt};
ghost use Rattle.commit.specs.Plan.Own.{set_each};

// The mark of each item's place is set; a place too high has none.
pub(crate) fn mark_each<T, F: Fn(&T) -> usize>(
    items: &[T],
    place: F,
    mark: bool,
    marks: &mut [bool],
)
    requires { F.IsAlwaysCallable place }
    ensures { (f : T → ℕ) → ((x : T) (p : ℕ) → FnReturnsAt F.Fn place x p → p ≡ f x) → marks.new ≡ set_each mark (map f items.now) marks.old }
{
    for item in items {
        let at = place(item);
        if at < marks.len() {
            marks[at] = mark;
        }
    }
}
