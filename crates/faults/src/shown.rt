// What the rows show.

use records::{RowId, SlotPtr, Store, Value};
use std::fmt;
use visibility::slots::value_at;

#[derive(Clone, Copy, PartialEq, Eq)]
pub enum Shown {
    Old,
    New,
    // some rows are old and some new, or one is neither
    Mixed,
    // recovery was refused, or left a store that is not at rest
    Refused,
    Unrest,
    // a cut beyond the last store changes nothing
    Whole,
    // a cut that is not answered by 18, its stores and the zero transaction
    Wrong,
}

impl fmt::Display for Shown {
    fn fmt<W: fmt::Write>(&self, f: &mut fmt::Formatter<W>) -> fmt::Result {
        f.write_str(match self {
            Shown::Old => "old",
            Shown::New => "new",
            Shown::Mixed => "MIXED",
            Shown::Refused => "RECOVERY REFUSED",
            Shown::Unrest => "NOT AT REST",
            Shown::Whole => "whole",
            Shown::Wrong => "WRONG ANSWER",
        })
    }
}

pub type Rows = [Value; RowId::ROWS];

// The heads' values: what the rows of a recovered store show.
pub fn rows_of(s: &Store) -> Rows {
    s.heads.map(|p| value_at(s, SlotPtr(p)))
}

pub fn compared(rows: &Rows, old: &Rows, new: &Rows) -> Shown {
    if rows == old {
        Shown::Old
    } else if rows == new {
        Shown::New
    } else {
        Shown::Mixed
    }
}
