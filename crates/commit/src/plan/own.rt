// The slots that a commit recycles, marked by their places.

ghost use Rattle.std.specs.Prelude.{◌≡◌, false, map};
ghost use Rattle.commit.specs.Plan.Own.{set_each, new_of};

use super::marks::mark_each;
use records::{SlotPtr, Write};

// The marks without the new slots of these writes.
pub fn recycled_marks(own: [bool; SlotPtr::PLACES], writes: &[Write]) -> [bool; SlotPtr::PLACES]
    ensures { result ≡ set_each false (map new_of writes.now) own }
{
    let mut marks = own;
    mark_each(writes, |w| w.new.0 as usize, false, &mut marks);
    marks
}
