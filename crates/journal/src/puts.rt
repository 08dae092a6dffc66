// One put on one lent array of the store. A place past the array's end changes nothing.

ghost use Rattle.std.specs.Prelude.{◌≡◌, [], ◌∷◌, ◌++◌, set, take};
ghost use Rattle.records.specs.Limits.{posting_limit, active_limit};
ghost use Rattle.rules.specs.Lists.{into, without, pad};
ghost use Rattle.rules.specs.Store.{active_txids};
ghost use Rattle.rules.specs.Puts.{apply, put_free};
ghost use Rattle.packed.specs.Packed.{Packed};

use records::{Store, Txid};

pub(crate) fn put<T: Copy>(x: &mut [T], at: usize, v: T)
    ensures { x.new ≡ set x.old at v }
{
    if at < x.len() {
        x[at] = v;
    }
}

// A slot's place in every array, all zero.
pub(crate) fn free(s: &mut Store, at: usize)
    ensures { s.new ≡ apply (put_free at) s.old }
{
    put(&mut s.xmin, at, 0);
    put(&mut s.xmax, at, 0);
    put(&mut s.next, at, 0);
    put(&mut s.key, at, 0);
    put(&mut s.has, at, false);
    put(&mut s.locked, at, false);
    put(&mut s.owner, at, 0);
}
