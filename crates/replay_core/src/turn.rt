// One line of a script on the store: what it leaves of the store, of its place's transaction and of the pending faults, and what it answers.

mod fault;
mod lines;

ghost use Rattle.std.specs.Prelude.{◌≡◌};
ghost use Rattle.rules.specs.Numbers.{number_of};
ghost use Rattle.rules.specs.Replay.{num, says, turn};
ghost use Rattle.script.specs.LineMeaning.{meaning};
ghost use Rattle.replay_core.specs.Turn.{place_in, at_first, desk_of, told, turned};

use records::{Cause, Refusal, Schedule, Store, Tx};
use script::Line;
use script::refusal::number_of;

// What a line reads and changes: the store, its place's transaction, the pending faults.
#[derive(Clone, Copy)]
pub struct Desk {
    pub store: Store,
    pub tx: Tx,
    pub plan: Schedule,
}

// What it answers: the number, the third field, and what follows it.
#[derive(Clone, Copy)]
pub struct Told {
    pub number: u64,
    pub third: Option<u64>,
    pub more: Option<Cause>,
}

impl Told {
    // A number that is no call's.
    fn number(number: u64) -> Told
        ensures { told result ≡ says number (num 0) }
    {
        Told {
            number,
            third: Some(0),
            more: None,
        }
    }

    // A call's number, and what it gave.
    fn call(why: Refusal, third: u64) -> Told
        ensures { told result ≡ says (number_of why) (num third) }
    {
        Told {
            number: number_of(why),
            third: Some(third),
            more: None,
        }
    }
}

// The place that a line names; a line that names none leaves the first one's transaction as it was.
pub fn place_of(line: Line) -> usize
    ensures { result ≡ place_in (meaning line) }
{
    match line {
        Line::Begin(i)
        | Line::Read(i, _)
        | Line::Write(i, _, _)
        | Line::Lookup(i, _)
        | Line::Lock(i, _)
        | Line::Abort(i)
        | Line::Commit(i, _, _) => i,
        Line::Fault(_) | Line::Recover | Line::Bad => 0,
    }
}

// A line on the desk of its place.
pub fn turn(d: &mut Desk, line: Line) -> Told
    ensures { turned d.new result ≡ turn (at_first (meaning line)) (desk_of d.old) }
{
    match line {
        Line::Begin(_) => lines::begin_line(d),
        Line::Read(_, r) => lines::read_line(d, r),
        Line::Write(_, r, v) => lines::write_line(d, r, v),
        Line::Lookup(_, k) => lines::lookup_line(d, k),
        Line::Lock(_, r) => lines::lock_line(d, r),
        Line::Abort(_) => lines::abort_line(d),
        Line::Commit(_, logged, cut) => lines::commit_line(d, logged, cut),
        Line::Fault(f) => lines::fault_line(d, f),
        Line::Recover => lines::recover_line(d),
        Line::Bad => lines::bad_line(d),
    }
}
