// The forms of a line, by the number of fields after the letter. Each field is taken apart by let .. else on its parser's answer.

ghost use Rattle.std.specs.Prelude.{◌≡◌, [], ◌∷◌};
ghost use Rattle.rules.specs.Script.{split, form};
ghost use Rattle.script.specs.LineMeaning.{meaning};

use crate::{Line, field};
use records::{Cut, Fault, RowId};

pub fn no_field(c: u8) -> Line
    ensures { meaning result ≡ form c [] }
{
    if c == b'V' { Line::Recover } else { Line::Bad }
}

pub fn one_field(c: u8, p: &[u8]) -> Line
    ensures { meaning result ≡ form c (p.now ∷ []) }
{
    let Some(i) = field::place(p) else {
        return Line::Bad;
    };
    match c {
        b'B' => Line::Begin(i as usize),
        b'A' => Line::Abort(i as usize),
        _ => Line::Bad,
    }
}

fn commit(p: &[u8], q: &[u8]) -> Line
    ensures { meaning result ≡ form 67 (p.now ∷ q.now ∷ []) }
{
    let Some(i) = field::place(p) else {
        return Line::Bad;
    };
    let Some(logged) = field::mode(q) else {
        return Line::Bad;
    };
    Line::Commit(i as usize, logged, Cut::Uncut)
}

pub fn two_fields(c: u8, p: &[u8], q: &[u8]) -> Line
    ensures { meaning result ≡ form c (p.now ∷ q.now ∷ []) }
{
    if c == b'C' {
        return commit(p, q);
    }
    let Some(i) = field::place(p) else {
        return Line::Bad;
    };
    let Some(n) = field::number(q) else {
        return Line::Bad;
    };
    let at = i as usize;
    match c {
        b'R' => Line::Read(at, RowId(n as usize)),
        b'L' => Line::Lookup(at, n),
        b'K' => Line::Lock(at, RowId(n as usize)),
        _ => Line::Bad,
    }
}

fn write(p: &[u8], q: &[u8], r: &[u8]) -> Line
    ensures { meaning result ≡ form 87 (p.now ∷ q.now ∷ r.now ∷ []) }
{
    let Some(i) = field::place(p) else {
        return Line::Bad;
    };
    let Some(n) = field::number(q) else {
        return Line::Bad;
    };
    let Some(v) = field::value(r) else {
        return Line::Bad;
    };
    Line::Write(i as usize, RowId(n as usize), v)
}

fn cut_commit(p: &[u8], q: &[u8], r: &[u8]) -> Line
    ensures { meaning result ≡ form 67 (p.now ∷ q.now ∷ r.now ∷ []) }
{
    let Some(i) = field::place(p) else {
        return Line::Bad;
    };
    let Some(logged) = field::mode(q) else {
        return Line::Bad;
    };
    let Some(n) = field::number(r) else {
        return Line::Bad;
    };
    Line::Commit(i as usize, logged, Cut::After(n))
}

fn fault(p: &[u8], q: &[u8], r: &[u8]) -> Line
    ensures { meaning result ≡ form 70 (p.now ∷ q.now ∷ r.now ∷ []) }
{
    let Some(step) = field::number(p) else {
        return Line::Bad;
    };
    let Some(letter) = field::letter(q) else {
        return Line::Bad;
    };
    let Some(k) = field::number(r) else {
        return Line::Bad;
    };
    Line::Fault(Fault { step, letter, k })
}

pub fn three_fields(c: u8, p: &[u8], q: &[u8], r: &[u8]) -> Line
    ensures { meaning result ≡ form c (p.now ∷ q.now ∷ r.now ∷ []) }
{
    match c {
        b'W' => write(p, q, r),
        b'C' => cut_commit(p, q, r),
        b'F' => fault(p, q, r),
        _ => Line::Bad,
    }
}

// The fields after the letter: a fourth one makes the line bad.
pub fn fields(c: u8, s: &[u8]) -> Line
    ensures { meaning result ≡ form c (split 9 s.now) }
{
    let a = field::up_to(s, b'\t');
    if a == s.len() {
        return one_field(c, s);
    }
    let t = &s[a + 1..];
    let b = field::up_to(t, b'\t');
    if b == t.len() {
        return two_fields(c, &s[..a], t);
    }
    let u = &t[b + 1..];
    if field::up_to(u, b'\t') == u.len() {
        return three_fields(c, &s[..a], &t[..b], u);
    }
    Line::Bad
}
