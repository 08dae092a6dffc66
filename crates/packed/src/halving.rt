// The place of a number in a rising list, found by halving what is left to search.

ghost use Rattle.std.specs.Prelude.{◌≡◌, take};
ghost use Rattle.packed.specs.Halving.{place_found};

// Where a search ended, and how many looks at the list it took.
#[derive(Clone, Copy)]
pub struct Place {
    pub at: usize,
    pub looks: usize,
}

// Where v stands, or would, among the first n: each look leaves at most half of what was left.
pub fn find_place(x: &[u64], n: usize, v: u64) -> Place
    ensures { result ≡ place_found v (take n x.now) }
{
    // not `partition_point`: it doesn't count its looks, and `nine_looks` bounds them by 9 (document 02's wish 3)
    let mut from: usize = 0;
    let mut size = n.min(x.len());
    let mut looks: usize = 0;
    while 0 < size {
        let half = size / 2;
        let middle = from + half;
        looks += 1;
        if x[middle] < v {
            from = middle + 1;
            size -= half + 1;
        } else {
            size = half;
        }
    }
    Place { at: from, looks }
}
