// The prepared store, and the open transaction whose commit has work at every step.

use super::shown::{Rows, rows_of};
use records::{Cut, RowId, Schedule, Store, Tx, Value};
use replay_core::turn::{Desk, turn};
use script::Line;

// What is committed in every way, and what the rows show before and after.
#[derive(Clone, Copy)]
pub struct Bench {
    pub store: Store,
    pub tx: Tx,
    pub old: Rows,
    pub new: Rows,
}

// A call of the preparation was refused.
#[derive(Clone, Copy)]
pub struct Refused;

// The next lines of a script.
fn run(d: &mut Desk, lines: &[Line]) -> Result<(), Refused> {
    for line in lines {
        if turn(d, *line).number != 0 {
            return Err(Refused);
        }
    }
    Ok(())
}

fn write(row: usize, v: Value) -> Line {
    Line::Write(0, RowId(row), v)
}

// Txid 1 gives rows 1 to 4 their keys; txid 2 stays open, with a version of row 9 that never shows.
fn morning() -> Result<Desk, Refused> {
    let mut d = Desk {
        store: Store::fresh(),
        tx: Tx::zero(),
        plan: Schedule::none(),
    };
    let lines = [
        Line::Begin(0),
        write(1, Value::Key(17)),
        write(2, Value::Key(35)),
        write(3, Value::Key(51)),
        write(4, Value::Key(68)),
        Line::Commit(0, false, Cut::Uncut),
        Line::Begin(0),
        write(9, Value::Key(77)),
    ];
    run(&mut d, &lines)?;
    Ok(d)
}

// Txid 3: g = 6 (stripes 1, 2, 3, 4, 6, 8), q = 5 (partitions 1 to 5), i = 3, r = 3, f = 4, b = 3, n = 2, s = 5 (all but stripe 4).
fn opened() -> Result<Desk, Refused> {
    let mut d = morning()?;
    let lines = [
        Line::Begin(0),
        Line::Lookup(0, 68),
        Line::Read(0, RowId(1)),
        write(1, Value::Key(18)),
        write(2, Value::Absent),
        write(5, Value::Key(40)),
        write(3, Value::Key(52)),
        write(3, Value::Key(53)),
        write(3, Value::Key(54)),
    ];
    run(&mut d, &lines)?;
    Ok(d)
}

// The rows before are those that recovery shows; after them txid 3's last writes stand, given here by hand.
pub fn prepared() -> Result<Bench, Refused> {
    let d = opened()?;
    let mut m = d;
    run(&mut m, &[Line::Recover])?;
    let old = rows_of(&m.store);
    let mut new = old;
    new[1] = Value::Key(18);
    new[2] = Value::Absent;
    new[3] = Value::Key(54);
    new[5] = Value::Key(40);
    Ok(Bench {
        store: d.store,
        tx: d.tx,
        old,
        new,
    })
}
