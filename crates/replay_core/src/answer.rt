// Answer lines, one behind the other.

ghost use Rattle.std.specs.Prelude.{◌+◌, ◌≤◌, [], ◌∷◌, length, drop};
ghost use Rattle.rules.specs.Script.{write};
ghost use Rattle.replay_core.specs.Feed.{answer_room};
ghost use Rattle.replay_core.specs.Turn.{told};
ghost use Rattle.replay_core.specs.Put.{Puts};

use super::turn::Told;
use script::print::{Text, print_line};

// A text behind the first n bytes.
fn put_text(out: &mut [u8], n: usize, text: &Text) -> usize
    requires { (text.now.start ≤ answer_room) × (n + answer_room ≤ length out.old) }
    ensures { Puts out.old n (drop text.now.start text.now.bytes) out.new result }
{
    let bytes = &text.bytes[text.start..];
    let end = n + bytes.len();
    out[n..end].copy_from_slice(bytes);
    end
}

// An answer line behind the first n bytes.
pub(crate) fn put_answer(out: &mut [u8], n: usize, line: u64, t: Told) -> usize
    requires { n + answer_room ≤ length out.old }
    ensures { Puts out.old n (write line (told t ∷ [])) out.new result }
{
    let text = print_line(line, t.number, t.third, t.more);
    put_text(out, n, &text)
}
