// A new object beside the objects of the block where its parts lie, or alone in a block. Not here: the object as numbers and its bytes (object), parts in several
// blocks (merge).
ghost use Rattle.std.specs.Prelude.{◌≡◌, false, ◌+◌, ◌*◌, ◌<◌, ◌≤◌, [], length, Some};
ghost use Rattle.cofj.specs.Values.{make};
ghost use Rattle.canon.specs.Figures.{code_count, capacity, block_size};
ghost use Rattle.maker.specs.Laying.{PartsHeld, values_from, MadeIs};
ghost use Rattle.canon.specs.Layout.{Packed, Block, count_in};
ghost use Rattle.maker.specs.Adding.{bytes_of, Found, Emptied, Appended, Added, some_object};

use crate::object::{NewObject, UNUSED, is_object, lay, level_with, root_codes, root_numbers};
use canon::layout::{BLOCK, COUNT, LEVEL, OBJECT, REACH};
use values::ValueRef;
use values::value::copy_block;

// The place of the object among the t objects of block b, if it is there.
pub(crate) fn find(work: &[u8], b: u16, t: u8, o: NewObject) -> Option<u8>
    requires { Block work.now b × (t ≡ count_in work.now b) × Packed (bytes_of o) 0 }
    ensures { Found work.now b t (bytes_of o) result }
{
    for k in 0..t {
        if is_object(work, BLOCK * (b as usize) + OBJECT * (k as usize), o) {
            return Some(k);
        }
    }
    None
}

// Block `dst` without objects.
pub(crate) fn empty(work: &mut [u8], dst: u16)
    requires { block_size * dst + block_size ≤ length work.old }
    ensures { Emptied work.old dst work.new }
{
    work[BLOCK * (dst as usize) + COUNT] = 0;
    work[BLOCK * (dst as usize) + LEVEL] = 0;
}

// The object, after t objects of block `dst`, and the block's level. No object refers to the new one.
pub(crate) fn append(work: &mut [u8], dst: u16, t: u8, o: NewObject, l: u8)
    requires { (t < capacity) × (block_size * dst + block_size ≤ length work.old) }
    ensures { Appended work.old dst t (bytes_of o) l work.new }
{
    lay(work, BLOCK * (dst as usize) + OBJECT * (t as usize), o);
    work[BLOCK * (dst as usize) + COUNT] = t + 1;
    work[BLOCK * (dst as usize) + LEVEL] = l;
    work[BLOCK * (dst as usize) + REACH] = t;
}

// The objects of block b and the new one, in block `dst`.
pub(crate) fn add(work: &mut [u8], b: u16, o: NewObject, dst: u16)
    requires { Block work.old b × (count_in work.old b < capacity) × (block_size * dst + block_size ≤ length work.old) }
    ensures { Added work.old b (count_in work.old b) (bytes_of o) dst work.new }
{
    let t = work[BLOCK * (b as usize) + COUNT];
    let l = level_with(o.codes, work[BLOCK * (b as usize) + LEVEL]);
    copy_block(work, b, dst);
    append(work, dst, t, o, l);
}

// A new object whose parts are no objects.
pub(crate) fn make_alone(
    work: &mut [u8],
    c: u8,
    parts: &[ValueRef],
    n: u8,
    dst: u16,
) -> Option<ValueRef>
    requires { PartsHeld work.old parts.now n × (n ≤ code_count) × (some_object parts.now n ≡ false) × (block_size * dst + block_size ≤ length work.old) × (code_count ≤ length parts.now) }
    ensures { MadeIs work.old (make c (values_from work.old parts.now 0 n)) dst work.new result }
{
    let o = NewObject {
        class: c,
        count: n,
        codes: root_codes(work, parts, n),
        numbers: root_numbers(parts, n),
    };
    let l = level_with(o.codes, 0);
    append(work, dst, 0, o, l);
    Some(ValueRef::Object(0, dst))
}

// A new object without parts, which never is too large.
pub fn make_fieldless(work: &mut [u8], c: u8, dst: u16) -> ValueRef
    requires { block_size * dst + block_size ≤ length work.old }
    ensures { MadeIs work.old (make c []) dst work.new (Some result) }
{
    let o = NewObject {
        class: c,
        count: 0,
        codes: UNUSED,
        numbers: 0,
    };
    append(work, dst, 0, o, 0);
    ValueRef::Object(0, dst)
}
