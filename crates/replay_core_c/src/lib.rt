// The replay's two functions as C has them, a slice as its pointer and its length: each calls the function of its name in crate `replay_core`.

#![tactic(auto)]

ghost use Rattle.std.specs.Prelude.{◌≡◌};
ghost use Rattle.replay_core.specs.Room.{room_in, Replayed};

use replay_core::binding;

// So many bytes hold the answers to a script: an answer's room for each line feed, and once more.
#[unsafe(no_mangle)]
pub extern "C" fn slack_room(script: &[u8]) -> usize
    ensures { result ≡ room_in script.now }
{
    binding::slack_room(script)
}

// Replays a script from the empty store: the answers are the first bytes of `out`, as many as this returns, and no other byte changes.
// Without room for them it is 0.
#[unsafe(no_mangle)]
pub extern "C" fn slack_replay(script: &[u8], out: &mut [u8]) -> usize
    ensures { Replayed script.now out.old out.new result }
{
    binding::slack_replay(script, out)
}
