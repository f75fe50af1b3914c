// References to values: as one number, of a code of a block, selected from. Not here: values moved and closed (value).
ghost use Rattle.std.specs.Prelude.{◌≡◌, ◌+◌, ◌<◌, ◌≤◌, length};
ghost use Rattle.values.specs.Layout.{Holds};
ghost use Rattle.values.specs.Refs.{ref_from, other_from, kind_in, ref_in, OtherPacked};
ghost use Rattle.values.specs.Operations.{Chosen};

use crate::ValueRef;
use canon::bytes::two_at;
use canon::layout::{
    BLOCK, BYTE, FIRST_LEAF, FIRST_MARK, HEAD, NUMBER, NUMBERS, OBJECT, TWO_BYTES, UNDETERMINED,
};

// what a number's high byte is worth
pub const HIGH: u16 = 256;

// The number of a value that is no object; that of an object is not told.
pub(crate) fn pack_other(v: ValueRef) -> u32
    ensures { OtherPacked v result }
{
    match v {
        ValueRef::Object(_, _) => 2,
        ValueRef::Mark(k) => 1 + BYTE * (k as u32),
        ValueRef::Number(n) => 3 + TWO_BYTES * (n as u32),
        ValueRef::Undetermined => 2,
    }
}

// A value as one number, for who keeps values in numbers (the crates above keep the enum): which of the four it is, in the lowest byte, then what it holds. No other functions but
// `pack_other`, `unpack` and `unpack_other` know it. One choice after the other, each between two numbers: the compiler makes no branches of them.
pub fn pack(v: ValueRef) -> u32
    ensures { (ref_in result ≡ v) × (kind_in result < 4) }
{
    let x = pack_other(v);
    match v {
        ValueRef::Object(i, b) => BYTE * (i as u32) + TWO_BYTES * (b as u32),
        ValueRef::Mark(_) => x,
        ValueRef::Number(_) => x,
        ValueRef::Undetermined => x,
    }
}

// The value of such a number that is no object, by its kind and what it holds.
pub(crate) fn unpack_other(k: u32, i: u8, b: u16) -> ValueRef
    ensures { result ≡ other_from k i b }
{
    if k == 1 {
        return ValueRef::Mark(i);
    }
    if k == 3 {
        return ValueRef::Number(b);
    }
    ValueRef::Undetermined
}

// The value that such a number stands for. What it holds is read before the choices, and one choice is made after the other: the compiler makes no branches of them.
pub fn unpack(x: u32) -> ValueRef
    ensures { result ≡ ref_in x }
{
    let k = x % BYTE;
    let i = (x / BYTE % BYTE) as u8;
    let b = (x / TWO_BYTES) as u16;
    let v = unpack_other(k, i, b);
    if k == 0 {
        return ValueRef::Object(i, b);
    }
    v
}

// The value of a code in block b, with the number beside it.
pub(crate) fn ref_of(c: u8, n: u16, b: u16) -> ValueRef
    ensures { result ≡ ref_from b c n }
{
    if c < FIRST_LEAF {
        return ValueRef::Object(c, b);
    }
    if c == UNDETERMINED {
        return ValueRef::Undetermined;
    }
    if c == NUMBER {
        return ValueRef::Number(n);
    }
    ValueRef::Mark(c - FIRST_MARK)
}

// Field f of a value, if it has one; it lies in the same block if it is an object.
pub fn select(work: &[u8], v: ValueRef, f: u8) -> Option<ValueRef>
    requires { Holds work.now v }
    ensures { Chosen work.now v f result }
{
    let ValueRef::Object(i, b) = v else {
        return None;
    };
    let at = BLOCK * (b as usize) + OBJECT * (i as usize);
    if work[at + 1] <= f {
        return None;
    }
    let n = two_at(work, at + NUMBERS + 2 * (f as usize));
    Some(ref_of(work[at + HEAD + f as usize], n, b))
}
