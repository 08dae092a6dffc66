// The replay for callers in Rust or C: a script in one buffer, its answers into another. Any buffers will do: no function asks anything of them
// beyond what the C form of a slice is, a pointer and a length. Crate `replay_core_c` exports the two public functions.

ghost use Rattle.std.specs.Prelude.{◌≡◌};
ghost use Rattle.replay_core.specs.Room.{line_feeds, room_in, Replayed};

use super::feed::{feed, finish, start};
use script::print::Text;

fn line_feeds(script: &[u8]) -> usize
    ensures { result ≡ line_feeds script.now }
{
    let mut feeds = 0;
    for b in script {
        if *b == b'\n' {
            feeds += 1;
        }
    }
    feeds
}

// So many bytes hold the answers to a script: an answer's room for each line feed, and once more.
pub fn slack_room(script: &[u8]) -> usize
    ensures { result ≡ room_in script.now }
{
    line_feeds(script)
        .saturating_add(1)
        .saturating_mul(Text::ROOM)
}

// Replays a script from the empty store: the answers are the first bytes of `out`, as many as this returns, and no other byte changes.
// Without room for them it is 0.
pub fn slack_replay(script: &[u8], out: &mut [u8]) -> usize
    ensures { Replayed script.now out.old out.new result }
{
    if out.len() / Text::ROOM <= line_feeds(script) {
        return 0;
    }
    let r = start();
    let f = feed(r, script, out);
    f.count + finish(f.replay, &mut out[f.count..])
}
