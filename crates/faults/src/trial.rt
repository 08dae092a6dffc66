// The schedules tried.

use records::{Fault, Schedule};

// The first fault; whether 21 and 23 fail too; and the k with which 24 does.
#[derive(Clone, Copy, Default)]
pub struct Trial {
    pub first: Option<Fault>,
    pub finish: bool,
    pub abort: bool,
    pub rollback: Option<u32>,
}

fn failing(step: u32, k: u32) -> Fault {
    Fault {
        step,
        letter: b'F',
        k,
    }
}

fn push(s: &mut Schedule, f: Fault) {
    if s.count < Schedule::FAULTS {
        s.faults[s.count] = f;
        s.count += 1;
    }
}

impl Trial {
    // One fault alone.
    pub fn of(f: Fault) -> Trial {
        Trial {
            first: Some(f),
            ..Trial::default()
        }
    }

    pub fn schedule(&self) -> Schedule {
        let faults = [
            self.first,
            self.finish.then_some(failing(21, 0)),
            self.abort.then_some(failing(23, 0)),
            self.rollback.map(|k| failing(24, k)),
        ];
        let mut s = Schedule::none();
        for f in faults.into_iter().flatten() {
            push(&mut s, f);
        }
        s
    }
}

// How many k are tried, from 0: up to one more than the stores that txid 3 makes at a step that takes k (insertions, removals, marks and
// heads, slots, stamps, insertions undone). Elsewhere F is also tried with 1, which is unfit.
pub fn ks_tried(step: u32, letter: u8) -> u32 {
    match (letter, step) {
        (b'F', 15 | 17 | 24) => 5,
        (b'F', 18) => 9,
        (b'F', 19) => 4,
        (b'F', 22) => 7,
        (b'F', _) => 2,
        _ => 1,
    }
}

// Where a failed first fault is followed by the finish (21), by an abort (23).
pub fn reaches_finish(f: Fault) -> bool {
    matches!(f.step, 18 | 19)
}

pub fn reaches_abort(f: Fault, logged: bool) -> bool {
    match f.step {
        5 | 6 | 16 => logged,
        7 | 8 => f.letter == b'B',
        10 => true,
        _ => false,
    }
}

// By a rollback (24): how many k it is failed with, from 0: up to one more than the insertions made.
pub fn rollbacks_tried(f: Fault, logged: bool) -> u32 {
    match f.step {
        15 => f.k.min(3) + 2,
        16 if logged => 5,
        _ => 0,
    }
}
