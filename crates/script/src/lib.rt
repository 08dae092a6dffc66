// The lines of the replay script, taken apart, and the answer lines ("Replay" of document 01). Bytes come and go as slices and values.

#![tactic(auto)]

mod field;
mod form;
pub mod print;
pub mod refusal;

ghost use Rattle.std.specs.Prelude.{◌≡◌};
ghost use Rattle.rules.specs.Script.{split, line_of};
ghost use Rattle.script.specs.LineMeaning.{meaning};

use records::{Cut, Fault, RowId, Tx, Value};

// A line of the script: a place is 0 to 15, any other number has 32 bits. `Bad`: "A line that isn't one of these forms is answered 2".
#[derive(Clone, Copy)]
pub enum Line {
    Begin(usize),
    Read(usize, RowId),
    Write(usize, RowId, Value),
    Lookup(usize, u32),
    Lock(usize, RowId),
    Abort(usize),
    Commit(usize, bool, Cut),
    Fault(Fault),
    Recover,
    Bad,
}

impl Line {
    // "place 0 to 15"
    pub const PLACES: usize = Tx::PLACES;

    // what a 32-bit number takes
    pub const DIGITS: usize = 10;

    // "W place row key" is the longest form: a letter, and three fields, each after a tab
    pub const LONGEST: usize = 1 + (1 + Tx::PLACE_DIGITS) + 2 * (1 + Line::DIGITS);
}

// The letter, and the fields between tabs after it.
pub fn parse_line(line: &[u8]) -> Line
    ensures { meaning result ≡ line_of (split 9 line.now) }
{
    if field::up_to(line, b'\t') != 1 {
        return Line::Bad;
    }
    let c = line[0];
    if line.len() == 1 {
        return form::no_field(c);
    }
    form::fields(c, &line[2..])
}
