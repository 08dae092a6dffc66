// The fields of a script line: each is read whole, and the answer is what it says, or None where it says no such thing.

ghost use Rattle.std.specs.Prelude.{◌≡◌, ◌≤◌, length};
ghost use Rattle.rules.specs.Script.{is};
ghost use Rattle.script.specs.Fields.{num_from, num_of, place_of, value_in, mode_of, letter_of};
ghost use Rattle.script.specs.Split.{up_to};

use crate::Line;
use records::Value;

// Where the first such byte stands, or the length: the end of a field or of a line.
pub(crate) fn up_to(s: &[u8], b: u8) -> usize
    ensures { (result ≡ up_to b s.now) × (result ≤ length s.now) }
{
    s.iter().position(|x| *x == b).unwrap_or(s.len())
}

// Digits to the end, for a number of 32 bits.
fn digits(s: &[u8]) -> Option<u32>
    ensures { result ≡ num_from 0 s.now }
{
    let mut v: u32 = 0;
    for b in s {
        match b {
            b'0'..=b'9' => v = v.checked_mul(10)?.checked_add((*b - b'0') as u32)?,
            _ => return None,
        }
    }
    Some(v)
}

// One byte, and that one.
fn is_byte(s: &[u8], b: u8) -> bool
    ensures { result ≡ is b s.now }
{
    matches!(s, [x] if *x == b)
}

// "Numbers are decimal, without leading zeros, at most 32 bits."
pub fn number(s: &[u8]) -> Option<u32>
    ensures { result ≡ num_of s.now }
{
    if is_byte(s, b'0') {
        return Some(0);
    }
    match s {
        [b'1'..=b'9', ..] => digits(s),
        _ => None,
    }
}

// "place 0 to 15"
pub fn place(s: &[u8]) -> Option<u32>
    ensures { result ≡ place_of s.now }
{
    let i = number(s)?;
    ((i as usize) < Line::PLACES).then_some(i)
}

// "key or -"
pub fn value(s: &[u8]) -> Option<Value>
    ensures { result ≡ value_in s.now }
{
    if is_byte(s, b'-') {
        return Some(Value::Absent);
    }
    number(s).map(Value::Key)
}

// "u or l": unlogged or logged
pub fn mode(s: &[u8]) -> Option<bool>
    ensures { result ≡ mode_of s.now }
{
    match s {
        [b'u'] => Some(false),
        [b'l'] => Some(true),
        _ => None,
    }
}

// "letter (A to Z)"
pub fn letter(s: &[u8]) -> Option<u8>
    ensures { result ≡ letter_of s.now }
{
    match s {
        [b @ b'A'..=b'Z'] => Some(*b),
        _ => None,
    }
}
