// Objects of several blocks brought into one, the host, and a new object over them there.
// Not here: parts that lie in one block already (make), an object of another block brought into the host (part).
ghost use Rattle.std.specs.Prelude.{◌≡◌, false, ◌+◌, ◌*◌, ◌<◌, ◌≤◌, length, get_or};
ghost use Rattle.cofj.specs.Values.{make};
ghost use Rattle.canon.specs.Figures.{object_size, code_count, block_size};
ghost use Rattle.maker.specs.Laying.{PartsHeld, Makeable, values_from, MadeIs};
ghost use Rattle.canon.specs.Layout.{Block, Inside};
ghost use Rattle.values.specs.Layout.{Holds};
ghost use Rattle.values.specs.declared.ValueRef.TheVariants.{Object};
ghost use Rattle.maker.specs.Merging.{Begun, TriedIs, PartImported, PartsBrought, some_in};

use crate::enter::{enter, enter_over};
use crate::object::{NewObject, UNUSED, root_numbers};
use crate::over::empty;
use crate::part::import;
use crate::parts::largest;
use canon::layout::{
    BLOCK, BYTE, CAPACITY, COUNT, FIRST_MARK, NUMBER, OBJECT, SPARE, THREE_BYTES, UNDETERMINED,
};
use values::ValueRef;
use values::value::{bring, copy_block};

// Object i of block b, which has no fields, in block host: its number there, if there is room.
pub(crate) fn import_fieldless(work: &mut [u8], b: u16, i: u8, host: u16) -> Option<u8>
    requires { Inside work.old b i × Block work.old host × ((b ≡ host) → ⊥) × (get_or work.old (block_size * b + object_size * i + 1) 0 ≡ 0) }
    ensures { PartImported work.old (Object i b) host work.new result }
{
    let c = work[BLOCK * (b as usize) + OBJECT * (i as usize)];
    let o = NewObject {
        class: c,
        count: 0,
        codes: UNUSED,
        numbers: 0,
    };
    enter(work, host, o)
}

// Object i of block b, in block host, whose first objects are those of block base: its number there, if there is room.
pub(crate) fn import_object(work: &mut [u8], b: u16, i: u8, base: u16, host: u16) -> Option<u8>
    requires { Inside work.old b i × Begun work.old base host }
    ensures { PartImported work.old (Object i b) host work.new result }
{
    if b == base {
        return Some(i);
    }
    if b == host {
        return Some(i);
    }
    if work[BLOCK * (b as usize) + OBJECT * (i as usize) + 1] == 0 {
        return import_fieldless(work, b, i, host);
    }
    import(work, b, i, host)
}

// A value in block host: its code there, if there is room.
pub(crate) fn import_part(work: &mut [u8], v: ValueRef, base: u16, host: u16) -> Option<u8>
    requires { Holds work.old v × Begun work.old base host }
    ensures { PartImported work.old v host work.new result }
{
    match v {
        ValueRef::Object(i, b) => import_object(work, b, i, base, host),
        ValueRef::Mark(k) => Some(FIRST_MARK + k),
        ValueRef::Number(_) => Some(NUMBER),
        ValueRef::Undetermined => Some(UNDETERMINED),
    }
}

// The codes of the n parts in block host, if there is room for them.
pub(crate) fn bring_parts(
    work: &mut [u8],
    parts: &[ValueRef],
    n: u8,
    base: u16,
    host: u16,
) -> Option<u32>
    requires { PartsHeld work.old parts.now n × (n ≤ code_count) × Begun work.old base host × (code_count ≤ length parts.now) }
    ensures { PartsBrought work.old parts.now n host work.new result }
{
    let mut w = UNUSED;
    for i in (0..n).rev() {
        let r = import_part(work, parts[i as usize], base, host)?;
        w = (r as u32) + BYTE * (w % THREE_BYTES);
    }
    Some(w)
}

// A new object whose parts are brought into block host, which lies at dst or above and begins with the objects of block base.
pub(crate) fn try_in(
    work: &mut [u8],
    c: u8,
    parts: &[ValueRef],
    n: u8,
    base: u16,
    host: u16,
    dst: u16,
) -> Option<ValueRef>
    requires { PartsHeld work.old parts.now n × (n ≤ code_count) × Begun work.old base host × (dst ≤ host) × (block_size * dst + block_size ≤ length work.old) × (code_count ≤ length parts.now) }
    ensures { TriedIs work.old (make c (values_from work.old parts.now 0 n)) host dst work.new result }
{
    let w = bring_parts(work, parts, n, base, host)?;
    let o = NewObject {
        class: c,
        count: n,
        codes: w,
        numbers: root_numbers(parts, n),
    };
    let r = enter_over(work, host, o)?;
    Some(bring(work, ValueRef::Object(r, host), dst))
}

// A new object whose parts are brought together in the spare block, where nothing else is: if there is no room, it is too large.
pub(crate) fn make_anew(
    work: &mut [u8],
    c: u8,
    parts: &[ValueRef],
    n: u8,
    dst: u16,
) -> Option<ValueRef>
    requires { Makeable work.old parts.now n dst × (code_count ≤ length parts.now) }
    ensures { MadeIs work.old (make c (values_from work.old parts.now 0 n)) dst work.new result }
{
    empty(work, SPARE);
    try_in(work, c, parts, n, SPARE, SPARE, dst)
}

// A new object whose parts are brought into block host, as in `try_in`; anew where that has no room, for it may be full of objects that no part leads to.
pub(crate) fn make_in(
    work: &mut [u8],
    c: u8,
    parts: &[ValueRef],
    n: u8,
    base: u16,
    host: u16,
    dst: u16,
) -> Option<ValueRef>
    requires { Makeable work.old parts.now n dst × Begun work.old base host × (dst ≤ host) × (code_count ≤ length parts.now) }
    ensures { MadeIs work.old (make c (values_from work.old parts.now 0 n)) dst work.new result }
{
    match try_in(work, c, parts, n, base, host, dst) {
        Some(v) => Some(v),
        None => make_anew(work, c, parts, n, dst),
    }
}

// A new object whose parts are brought into a copy of block b, in block `dst`, where no part lies.
pub(crate) fn make_copied(
    work: &mut [u8],
    c: u8,
    parts: &[ValueRef],
    n: u8,
    b: u16,
    dst: u16,
) -> Option<ValueRef>
    requires { Makeable work.old parts.now n dst × Block work.old b × (b < dst) × (some_in parts.now n dst ≡ false) × (code_count ≤ length parts.now) }
    ensures { MadeIs work.old (make c (values_from work.old parts.now 0 n)) dst work.new result }
{
    copy_block(work, b, dst);
    make_in(work, c, parts, n, b, dst, dst)
}

// A new object whose parts lie in several blocks, `first` one of them, none in `dst`: over the block with the most objects, where it may be written, or over a copy; anew if that block is full.
pub(crate) fn make_apart(
    work: &mut [u8],
    c: u8,
    parts: &[ValueRef],
    n: u8,
    first: u16,
    dst: u16,
) -> Option<ValueRef>
    requires { Makeable work.old parts.now n dst × Block work.old first × (some_in parts.now n dst ≡ false) × (code_count ≤ length parts.now) }
    ensures { MadeIs work.old (make c (values_from work.old parts.now 0 n)) dst work.new result }
{
    let b = largest(work, parts, n, first);
    if CAPACITY <= work[BLOCK * (b as usize) + COUNT] {
        return make_anew(work, c, parts, n, dst);
    }
    if dst <= b {
        return make_in(work, c, parts, n, b, b, dst);
    }
    make_copied(work, c, parts, n, b, dst)
}
