// Counts and lent arrays, read within their bounds.

ghost use Rattle.std.specs.Prelude.{◌≡◌, false, min, get_or, drop};
ghost use Rattle.rules.specs.Lists.{all_zero};
ghost use Rattle.fields.specs.Lent.{array, at_rows, at_places, flags_at_places, at_stripes};

use records::{RowId, SlotPtr, Store, Txid};

// The places of a list of `count` elements in an array of `limit` places.
pub fn clipped(count: usize, limit: usize) -> usize
    ensures { result ≡ min count limit }
{
    count.min(limit)
}

// What stands at place i of an array, `none` past its end.
pub fn at<T: Copy, const N: usize>(x: &[T; N], i: usize, none: T) -> T
    ensures { result ≡ get_or (array N none x.now) i none }
{
    x.get(i).copied().unwrap_or(none)
}

// The head of a row, null for a row too high.
pub fn head_of(heads: &[u32; RowId::ROWS], r: RowId) -> SlotPtr
    ensures { result.0 ≡ get_or (at_rows heads.now) r.0 0 }
{
    SlotPtr(at(heads, r.0, 0))
}

// The place of a slot in the arrays.
pub fn place(p: u32) -> usize
    ensures { result ≡ p }
{
    p as usize
}

// What stands at a slot's place, zero for a slot that is none: a pointer, a txid, a key, a flag.
pub fn pointer_at(next: &[u32; SlotPtr::PLACES], p: SlotPtr) -> SlotPtr
    ensures { result.0 ≡ get_or (at_places next.now) p.0 0 }
{
    SlotPtr(at(next, place(p.0), 0))
}

pub fn txid_at(txids: &[u64; SlotPtr::PLACES], p: SlotPtr) -> Txid
    ensures { result.0 ≡ get_or (at_places txids.now) p.0 0 }
{
    Txid(at(txids, place(p.0), 0))
}

pub fn key_at(key: &[u32; SlotPtr::PLACES], p: SlotPtr) -> u32
    ensures { result ≡ get_or (at_places key.now) p.0 0 }
{
    at(key, place(p.0), 0)
}

pub fn flag_at(flags: &[bool; SlotPtr::PLACES], p: SlotPtr) -> bool
    ensures { result ≡ get_or (flags_at_places flags.now) p.0 false }
{
    at(flags, place(p.0), false)
}

pub fn mark_at(marks: &[u8; SlotPtr::PLACES], p: SlotPtr) -> u8
    ensures { result ≡ get_or (at_places marks.now) p.0 0 }
{
    at(marks, place(p.0), 0)
}

// The stamp of a stripe, none for a stripe too high.
pub fn stamp_at(stamps: &[u64; Store::STRIPES], stripe: u32) -> Txid
    ensures { result.0 ≡ get_or (at_stripes stamps.now) stripe 0 }
{
    Txid(at(stamps, stripe as usize, 0))
}

// Zero from place n on.
pub fn zeros_from(x: &[u64], n: usize) -> bool
    ensures { result ≡ all_zero (drop n x.now) }
{
    x.iter().skip(n).all(|y| *y == 0)
}
