// A new object as numbers: these from its parts, and the bytes of an object from them. Not here: where it goes (over).
ghost use Rattle.std.specs.Prelude.{◌≡◌, ◌+◌, ◌<◌, ◌≤◌, [], ◌∷◌, length};
ghost use Rattle.cofj.specs.Values.{eq_nats};
ghost use Rattle.canon.specs.Figures.{object_size, code_count, first_mark};
ghost use Rattle.canon.specs.Layout.{code_of, Packed, part};
ghost use Rattle.canon.specs.Tables.{Carried};
ghost use Rattle.values.specs.Layout.{raw_of, Holds};
ghost use Rattle.maker.specs.Laying.{PartsHeld};
ghost use Rattle.maker.specs.Adding.{beside_of, codes_of, bytes_of, RootCodes, RootNumbers, CodesLevel};

use canon::bytes::{copy, eight_at, four_at};
use canon::layout::{
    BYTE, FIRST_MARK, FOUR_BYTES, HEAD, NUMBER, NUMBERS, THREE_BYTES, TWO_BYTES, UNDETERMINED,
};
use values::ValueRef;

// where its blank bytes begin, after the numbers
const BLANK: usize = 14;

// Four codes of fields that an object does not have: each is UNDETERMINED.
pub(crate) const UNUSED: u32 = 3233857728;

// what the number of the second field is worth among the numbers of an object
const FIELD: u64 = 65536;

// the same for the fourth
const THREE_FIELDS: u64 = 281474976710656;

// A new object: its class, how many fields it has, its four codes as one number, the first the lowest byte, and the numbers beside them as one number, two bytes a
// field.
#[derive(Clone, Copy)]
pub(crate) struct NewObject {
    pub class: u8,
    pub count: u8,
    pub codes: u32,
    pub numbers: u64,
}

// The code of a part: its object's.
pub(crate) fn code_of(work: &[u8], r: ValueRef) -> u8
    requires { Holds work.now r }
    ensures { result ≡ code_of (raw_of work.now r).root }
{
    match r {
        ValueRef::Object(i, _) => i,
        ValueRef::Mark(k) => FIRST_MARK + k,
        ValueRef::Number(_) => NUMBER,
        ValueRef::Undetermined => UNDETERMINED,
    }
}

// The codes of the n parts, and unused ones.
pub(crate) fn root_codes(work: &[u8], parts: &[ValueRef], n: u8) -> u32
    requires { PartsHeld work.now parts.now n × (n ≤ code_count) × (code_count ≤ length parts.now) }
    ensures { RootCodes work.now parts.now n 0 result }
{
    let mut w = UNUSED;
    for i in (0..n).rev() {
        w = (code_of(work, parts[i as usize]) as u32) + BYTE * (w % THREE_BYTES);
    }
    w
}

// The number beside the code of a part: its own if it is a number, else 0.
pub(crate) fn number_of(r: ValueRef) -> u16
    ensures { result ≡ beside_of r }
{
    match r {
        ValueRef::Object(_, _) => 0,
        ValueRef::Mark(_) => 0,
        ValueRef::Number(x) => x,
        ValueRef::Undetermined => 0,
    }
}

// The numbers beside the codes of the n parts, and 0 beside unused ones.
pub(crate) fn root_numbers(parts: &[ValueRef], n: u8) -> u64
    requires { (n ≤ code_count) × (code_count ≤ length parts.now) }
    ensures { RootNumbers parts.now n 0 result }
{
    let mut v: u64 = 0;
    for i in (0..n).rev() {
        v = (number_of(parts[i as usize]) as u64) + FIELD * (v % THREE_FIELDS);
    }
    v
}

// Whether the object at place p is this one. Its last bytes are not looked at: they are 0 in every object.
pub(crate) fn is_object(work: &[u8], p: usize, o: NewObject) -> bool
    requires { (p + object_size ≤ length work.now) × Packed work.now p }
    ensures { result ≡ eq_nats (part work.now p object_size) (bytes_of o) }
{
    if four_at(work, p + HEAD) != o.codes {
        return false;
    }
    if eight_at(work, p + NUMBERS) != o.numbers {
        return false;
    }
    if work[p] != o.class {
        return false;
    }
    work[p + 1] == o.count
}

// A level for a code more.
pub(crate) fn raise_level(l: u8, c: u8) -> u8
    ensures { (l ≤ result) × (c < first_mark + result) }
{
    if c <= NUMBER {
        return l;
    }
    l.max(c - NUMBER)
}

// A level for objects of this level and one with these codes.
pub(crate) fn level_with(w: u32, l: u8) -> u8
    ensures { CodesLevel w result × (l ≤ result) }
{
    let m1 = raise_level(l, (w % BYTE) as u8);
    let m2 = raise_level(m1, (w / BYTE % BYTE) as u8);
    let m3 = raise_level(m2, (w / TWO_BYTES % BYTE) as u8);
    raise_level(m3, (w / THREE_BYTES) as u8)
}

// Two bytes, from place p on.
pub(crate) fn lay_two(work: &mut [u8], p: usize, a: u8, b: u8)
    requires { p + 2 ≤ length work.old }
    ensures { Carried (a ∷ b ∷ []) 0 work.old p 2 work.new }
{
    work[p] = a;
    work[p + 1] = b;
}

// Four bytes that are one number, the lowest first, from place p on.
pub(crate) fn lay_four(work: &mut [u8], p: usize, x: u32)
    requires { p + 4 ≤ length work.old }
    ensures { Carried (codes_of x) 0 work.old p 4 work.new }
{
    let bytes = x.to_le_bytes();
    copy(&bytes, 0, work, p, 4);
}

// The bytes of the object, from place p on.
pub(crate) fn lay(work: &mut [u8], p: usize, o: NewObject)
    requires { p + object_size ≤ length work.old }
    ensures { Carried (bytes_of o) 0 work.old p object_size work.new }
{
    lay_two(work, p, o.class, o.count);
    lay_four(work, p + HEAD, o.codes);
    lay_four(work, p + NUMBERS, (o.numbers % FOUR_BYTES) as u32);
    lay_four(work, p + NUMBERS + 4, (o.numbers / FOUR_BYTES) as u32);
    lay_two(work, p + BLANK, 0, 0);
}
