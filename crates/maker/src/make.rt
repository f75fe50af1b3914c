// A new object: how it is made, by what its parts are; and whether it is too large. Not here: each way.
ghost use Rattle.std.specs.Prelude.{◌≡◌, true, false, ◌+◌, ◌*◌, ◌<◌, ◌≤◌, length};
ghost use Rattle.cofj.specs.Values.{make};
ghost use Rattle.canon.specs.Figures.{capacity, code_count};
ghost use Rattle.maker.specs.Laying.{Makeable, values_from, MadeIs, MadeWithin};
ghost use Rattle.canon.specs.Layout.{Block};
ghost use Rattle.maker.specs.Adding.{all_stand};
ghost use Rattle.maker.specs.Merging.{some_in};

use crate::limit::fits;
use crate::merge::{make_anew, make_apart, make_in};
use crate::object::{NewObject, root_codes, root_numbers};
use crate::over::{add, empty, find, make_alone};
use crate::parts::{first_block, some_in, some_object, together};
use canon::layout::{BLOCK, CAPACITY, COUNT};
use values::ValueRef;
use values::value::bring;

// A new object whose parts lie in block b, or are no objects.
pub(crate) fn make_beside(
    work: &mut [u8],
    c: u8,
    parts: &[ValueRef],
    n: u8,
    b: u16,
    dst: u16,
) -> Option<ValueRef>
    requires { Makeable work.old parts.now n dst × Block work.old b × (all_stand parts.now n b ≡ true) × (code_count ≤ length parts.now) }
    ensures { MadeIs work.old (make c (values_from work.old parts.now 0 n)) dst work.new result }
{
    let o = NewObject {
        class: c,
        count: n,
        codes: root_codes(work, parts, n),
        numbers: root_numbers(parts, n),
    };
    let t = work[BLOCK * (b as usize) + COUNT];
    if let Some(k) = find(work, b, t, o) {
        return Some(bring(work, ValueRef::Object(k, b), dst));
    }
    if CAPACITY <= t {
        return make_anew(work, c, parts, n, dst);
    }
    add(work, b, o, dst);
    Some(ValueRef::Object(t, dst))
}

// A new object in block `dst`, where no part lies: alone, or after what its parts lead to.
pub(crate) fn make_fresh(
    work: &mut [u8],
    c: u8,
    parts: &[ValueRef],
    n: u8,
    dst: u16,
) -> Option<ValueRef>
    requires { Makeable work.old parts.now n dst × (some_in parts.now n dst ≡ false) × (code_count ≤ length parts.now) }
    ensures { MadeIs work.old (make c (values_from work.old parts.now 0 n)) dst work.new result }
{
    if !some_object(parts, n) {
        return make_alone(work, c, parts, n, dst);
    }
    empty(work, dst);
    make_in(work, c, parts, n, dst, dst, dst)
}

// A new object of class c with the n first parts, in block `dst` or below, unless it has more objects than a block has room for.
// Block 0 is often full, and block `dst` is to be written: so the parts are brought to `dst` if one lies there or none lies above block 0.
pub(crate) fn make_object(
    work: &mut [u8],
    c: u8,
    parts: &[ValueRef],
    n: u8,
    dst: u16,
) -> Option<ValueRef>
    requires { Makeable work.old parts.now n dst × (code_count ≤ length parts.now) }
    ensures { MadeIs work.old (make c (values_from work.old parts.now 0 n)) dst work.new result }
{
    if some_in(parts, n, dst) {
        return make_in(work, c, parts, n, dst, dst, dst);
    }
    let Some(b) = first_block(parts, n) else {
        return make_fresh(work, c, parts, n, dst);
    };
    if together(parts, n, b) {
        return make_beside(work, c, parts, n, b, dst);
    }
    make_apart(work, c, parts, n, b, dst)
}

// The same with the run's limit: too large is what has more than `objects` objects, and what has more than a block has room for has more.
pub fn make(
    work: &mut [u8],
    c: u8,
    parts: &[ValueRef],
    n: u8,
    dst: u16,
    objects: u8,
) -> Option<ValueRef>
    requires { Makeable work.old parts.now n dst × (code_count ≤ length parts.now) × (objects ≤ capacity) }
    ensures { MadeWithin objects work.old (make c (values_from work.old parts.now 0 n)) dst work.new result }
{
    let v = make_object(work, c, parts, n, dst)?;
    if fits(work, v, objects) {
        return Some(v);
    }
    None
}
