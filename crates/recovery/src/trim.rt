// An unfinished first version is removed from its chain.

ghost use Rattle.std.specs.Prelude.{◌≡◌, map};
ghost use Rattle.rules.specs.Admitted.{finished};
ghost use Rattle.rules.specs.Recovery.{trim_head};

use fields::lent::{at, place};
use fields::txids::is_finished;
use records::{RowId, Store};

// The head that a row is left with: the slot behind an unfinished one.
fn trimmed(s: &Store, h: u32) -> u32
    ensures { result ≡ trim_head (finished s.now.active s.now.doomed) s.now.xmin s.now.next h }
{
    let i = place(h);
    if h == 0 || is_finished(&s.active, s.doomed, at(&s.xmin, i, 0)) {
        h
    } else {
        at(&s.next, i, 0)
    }
}

// The same for every row.
pub fn trim_heads(s: &Store) -> [u32; RowId::ROWS]
    ensures { result ≡ map (trim_head (finished s.now.active s.now.doomed) s.now.xmin s.now.next) s.now.heads }
{
    s.heads.map(|h| trimmed(s, h))
}
