// The line under way: its first bytes, one more than any form has, so that a longer line is as bad as they are.

ghost use Rattle.std.specs.Prelude.{◌≡◌, [], ◌∷◌, ◌++◌, take};
ghost use Rattle.rules.specs.Script.{split, line_of};
ghost use Rattle.script.specs.LineMeaning.{meaning};
ghost use Rattle.replay_core.specs.Feed.{held_room, held_in};

use script::{Line, parse_line};

// An array and a count: no heap, fixed memory.
#[derive(Clone, Copy)]
pub struct Held {
    pub bytes: [u8; Held::ROOM],
    pub count: usize,
}

impl Held {
    pub const ROOM: usize = Line::LONGEST + 1;

    // No byte yet.
    pub(crate) fn none() -> Held
        ensures { held_in result ≡ [] }
    {
        Held {
            bytes: [0; Held::ROOM],
            count: 0,
        }
    }

    // One byte more, if there is room.
    pub(crate) fn push(&mut self, b: u8)
        ensures { held_in self.new ≡ take held_room (held_in self.old ++ b ∷ []) }
    {
        if self.count < Held::ROOM {
            self.bytes[self.count] = b;
            self.count += 1;
        }
    }

    // The line that it is read as.
    pub(crate) fn line(&self) -> Line
        ensures { meaning result ≡ line_of (split 9 (held_in self.now)) }
    {
        parse_line(&self.bytes[..self.count.min(Held::ROOM)])
    }
}
