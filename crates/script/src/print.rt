// An answer line: "Output: line number, number, then ..". It is written from its end to its start, as the digits of a number come.

ghost use Rattle.std.specs.Prelude.{◌≡◌, [], ◌∷◌, ◌+◌, ◌≤◌, drop};
ghost use Rattle.script.specs.Print.{digits, in_decimal, third_text, third_of, cause_room, cause_text, more_text, more_of, room, Put, Printed};

use crate::refusal::{place_of, test_of};
use records::Cause;

// The text is the bytes from `start` on; what is put into it stands before what it has.
#[derive(Clone, Copy)]
pub struct Text {
    pub bytes: [u8; Text::ROOM],
    pub start: usize,
}

impl Text {
    // what a 64-bit number takes
    pub const DIGITS: usize = 20;

    // five numbers, four tabs and a line feed
    pub const ROOM: usize = Text::DIGITS * 5 + 5;

    fn empty() -> Text
        ensures { (result.start ≡ room) × (drop result.start result.bytes ≡ []) }
    {
        Text {
            bytes: [0; Text::ROOM],
            start: Text::ROOM,
        }
    }

    fn put_byte(&mut self, b: u8)
        requires { (1 ≤ self.old.start) × (self.old.start ≤ room) }
        ensures { Put 1 (λ rest. b ∷ rest) self.old self.new }
    {
        self.start -= 1;
        self.bytes[self.start] = b;
    }

    // The digits of n.
    fn put_number(&mut self, n: u64)
        requires { (digits ≤ self.old.start) × (self.old.start ≤ room) }
        ensures { Put digits (in_decimal n) self.old self.new }
    {
        let at = self.start;
        let mut left = n;
        for k in (at - Text::DIGITS..at).rev() {
            self.start = k;
            self.bytes[k] = b'0' + (left % 10) as u8;
            if left < 10 {
                return;
            }
            left /= 10;
        }
    }

    // A number and the tab after it.
    fn put_field(&mut self, n: u64)
        requires { (1 + digits ≤ self.old.start) × (self.old.start ≤ room) }
        ensures { Put (1 + digits) (λ rest. in_decimal n (9 ∷ rest)) self.old self.new }
    {
        self.put_byte(b'\t');
        self.put_number(n);
    }

    // The third field: a number, or - for a read without a key.
    fn put_third(&mut self, t: Option<u64>)
        requires { (digits ≤ self.old.start) × (self.old.start ≤ room) }
        ensures { Put digits (third_text (third_of t)) self.old self.new }
    {
        match t {
            Some(n) => self.put_number(n),
            None => self.put_byte(b'-'),
        }
    }

    // The test and the place, each after a tab.
    fn put_cause(&mut self, c: Cause)
        requires { (cause_room ≤ self.old.start) × (self.old.start ≤ room) }
        ensures { Put cause_room (cause_text c) self.old self.new }
    {
        self.put_number(place_of(c));
        self.put_field(test_of(c));
        self.put_byte(b'\t');
    }

    // What follows it: on 7 the test as a fourth field and the place as a fifth, else nothing.
    fn put_more(&mut self, m: Option<Cause>)
        requires { (cause_room ≤ self.old.start) × (self.old.start ≤ room) }
        ensures { Put cause_room (more_text (more_of m)) self.old self.new }
    {
        if let Some(c) = m {
            self.put_cause(c);
        }
    }
}

// The answer to a line, with its line feed.
pub fn print_line(line: u64, number: u64, t: Option<u64>, m: Option<Cause>) -> Text
    ensures { Printed line number (third_of t) (more_of m) result.bytes result.start }
{
    let mut text = Text::empty();
    text.put_byte(b'\n');
    text.put_more(m);
    text.put_third(t);
    text.put_field(number);
    text.put_field(line);
    text
}
