// A script fed in parts of any size: each line is answered where it ends. The loop owns the store and the transactions.

ghost use Rattle.std.specs.Prelude.{◌≡◌, ◌+◌, ◌≤◌, length};
ghost use Rattle.replay_core.specs.Feed.{answer_room, line_end, first, reading, Feeds, Finishes};
ghost use Rattle.replay_core.specs.Put.{Puts};

use super::answer::put_answer;
use super::held::Held;
use super::turn::{Desk, place_of, turn};
use records::{Schedule, Store, Tx};
use script::Line;
use script::print::Text;

// A replay under way: the store, the transactions of the places, the pending faults, the line under way, how many lines were answered.
#[derive(Clone, Copy)]
pub struct Replay {
    pub store: Store,
    pub txs: [Tx; Line::PLACES],
    pub plan: Schedule,
    pub held: Held,
    pub lines: u64,
}

// What a part leaves, how many of its bytes were taken, and how many bytes the answers have.
#[derive(Clone, Copy)]
pub struct Fed {
    pub replay: Replay,
    pub taken: usize,
    pub count: usize,
}

impl Replay {
    // The line under way ends: it is turned at its place, and answered behind the first n bytes.
    fn end_line(&mut self, out: &mut [u8], n: usize) -> usize
        requires { n + answer_room ≤ length out.old }
        ensures state { reading self.new ≡ (line_end (reading self.old)).state }
        ensures text { Puts out.old n (line_end (reading self.old)).answers out.new result }
    {
        let line = self.held.line();
        let p = place_of(line);
        let mut desk = Desk {
            store: self.store,
            tx: self.txs[p],
            plan: self.plan,
        };
        let told = turn(&mut desk, line);
        self.store = desk.store;
        self.txs[p] = desk.tx;
        self.plan = desk.plan;
        self.held = Held::none();
        self.lines = self.lines.wrapping_add(1);
        put_answer(out, n, self.lines, told)
    }
}

// "It starts from the empty store and zero transactions".
pub fn start() -> Replay
    ensures { reading result ≡ first }
{
    Replay {
        store: Store::fresh(),
        txs: [Tx::zero(); Line::PLACES],
        plan: Schedule::none(),
        held: Held::none(),
        lines: 0,
    }
}

// Takes bytes of the part until it is used up or `out` has no room for one more answer.
pub fn feed(r: Replay, part: &[u8], out: &mut [u8]) -> Fed
    ensures { Feeds (reading r) part.now out.old out.new result }
{
    let mut replay = r;
    let mut count: usize = 0;
    for (taken, b) in part.iter().enumerate() {
        if out.len() - count < Text::ROOM {
            return Fed {
                replay,
                taken,
                count,
            };
        }
        if *b == b'\n' {
            count = replay.end_line(out, count);
        } else {
            replay.held.push(*b);
        }
    }
    Fed {
        replay,
        taken: part.len(),
        count,
    }
}

// The answer to a last line without a line feed, if it has a byte; none where `out` has no room for an answer.
pub fn finish(r: Replay, out: &mut [u8]) -> usize
    ensures { Finishes (reading r) out.old out.new result }
{
    if r.held.count == 0 || out.len() < Text::ROOM {
        return 0;
    }
    let mut last = r;
    last.end_line(out, 0)
}
