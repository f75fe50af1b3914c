// X = u for an object of a block: the mark is bound to the object where it lies, and if no two objects have become equal they are kept as they are.
// Not here: values in which the mark does not occur (value); how equal objects are found and merged (crate canon, colours and number).
ghost use Rattle.std.specs.Prelude.{◌≡◌, ◌+◌, ◌*◌, ◌<◌, ◌≤◌, length};
ghost use Rattle.cofj.specs.Values.{canon};
ghost use Rattle.canon.specs.Figures.{object_size, mark_count, capacity, objects_size, block_size};
ghost use Rattle.canon.specs.Layout.{Inside, nodes_in, graph_at, Distinct, Raw};
ghost use Rattle.canon.specs.Numbers.{graph_in};
ghost use Rattle.values.specs.Operations.{Gives, close_of};
ghost use Rattle.values.specs.Binding.{bound_code, ObjectBound, AllBound, Bound, refers_to, none_refer, OtherField, DifferTest, UnlikeTest, OthersTest, DistinctTest, Rooted};

use crate::ValueRef;
use crate::lockstep::alike;
use canon::bytes::{copy, two_at};
use canon::colours::colour;
use canon::layout::{
    BLOCK, CODES, COUNT, FIRST_LEAF, FIRST_MARK, HEAD, LEVEL, NUMBERS, OBJECT, OBJECTS, PER_OBJECT,
    REACH,
};
use canon::number::{level_of, put};

// how far a path is followed that may tell two objects apart: it decides the time only
const STEPS: u8 = 64;

// A code, the code `hot` turned to object i.
pub(crate) fn bind_code(hot: u8, i: u8, c: u8) -> u8
    ensures { result ≡ bound_code hot i c }
{
    if c == hot {
        return i;
    }
    c
}

// The codes of the object at a place.
pub(crate) fn bind_object(raw: &mut [u8], p: usize, hot: u8, i: u8)
    requires { p + object_size ≤ length raw.old }
    ensures { ObjectBound raw.old p hot i raw.new }
{
    raw[p + 2] = bind_code(hot, i, raw[p + 2]);
    raw[p + 3] = bind_code(hot, i, raw[p + 3]);
    raw[p + 4] = bind_code(hot, i, raw[p + 4]);
    raw[p + 5] = bind_code(hot, i, raw[p + 5]);
}

// The codes of n objects from the start on.
pub(crate) fn bind_all(raw: &mut [u8], n: u8, hot: u8, i: u8)
    requires { object_size * n ≤ length raw.old }
    ensures { AllBound raw.old n hot i raw.new }
{
    for j in 0..n {
        bind_object(raw, OBJECT * (j as usize), hot, i);
    }
}

// The objects of block b, with mark x bound to object i, to the front of `raw`. Answers how many they are.
pub(crate) fn bind_objects(work: &[u8], b: u16, x: u8, i: u8, raw: &mut [u8]) -> u8
    requires { Inside work.now b i × (x < mark_count) × (objects_size ≤ length raw.old) }
    ensures { Bound work.now b x i raw.new result }
{
    let n = work[BLOCK * (b as usize) + COUNT];
    copy(work, BLOCK * (b as usize), raw, 0, OBJECT * (n as usize));
    bind_all(raw, n, FIRST_MARK + x, i);
    n
}

// Whether the object at place p refers to object i.
pub(crate) fn refers(work: &[u8], p: usize, i: u8) -> bool
    requires { p + object_size ≤ length work.now }
    ensures { result ≡ refers_to work.now p i }
{
    if work[p + 2] == i {
        return true;
    }
    if work[p + 3] == i {
        return true;
    }
    if work[p + 4] == i {
        return true;
    }
    work[p + 5] == i
}

// Whether none of the n objects of block b refers to object i.
pub(crate) fn unreferred(work: &[u8], b: u16, n: u8, i: u8) -> bool
    requires { (block_size * b + block_size ≤ length work.now) × (n ≤ capacity) }
    ensures { result ≡ none_refer work.now b n i }
{
    for k in 0..n {
        if refers(work, BLOCK * (b as usize) + OBJECT * (k as usize), i) {
            return false;
        }
    }
    true
}

// The first field whose codes or numbers differ, if there is one.
pub(crate) fn other_field(raw: &[u8], x: u8, y: u8) -> Option<u8>
    requires { (object_size * x + object_size ≤ length raw.now) × (object_size * y + object_size ≤ length raw.now) }
    ensures { OtherField raw.now x y result }
{
    for f in 0..CODES {
        if raw[OBJECT * (x as usize) + HEAD + f as usize]
            != raw[OBJECT * (y as usize) + HEAD + f as usize]
        {
            return Some(f);
        }
        if two_at(raw, OBJECT * (x as usize) + NUMBERS + 2 * (f as usize))
            != two_at(raw, OBJECT * (y as usize) + NUMBERS + 2 * (f as usize))
        {
            return Some(f);
        }
    }
    None
}

// True only if objects i and k of n unfold to different trees: one path is followed, STEPS steps at most.
pub(crate) fn differ(raw: &[u8], n: u8, i: u8, k: u8) -> bool
    requires { Raw raw.now n × (i < n) × (k < n) }
    ensures { DifferTest raw.now n i k result }
{
    let mut x: u8 = i;
    let mut y: u8 = k;
    for _ in 0..STEPS {
        if !alike(raw, OBJECT * (x as usize), OBJECT * (y as usize)) {
            return true;
        }
        let Some(f) = other_field(raw, x, y) else {
            return false;
        };
        let first = raw[OBJECT * (x as usize) + HEAD + f as usize];
        let second = raw[OBJECT * (y as usize) + HEAD + f as usize];
        if FIRST_LEAF <= first {
            return true;
        }
        if FIRST_LEAF <= second {
            return true;
        }
        x = first;
        y = second;
    }
    false
}

// True only if object k of n is object i itself or unfolds to another tree.
pub(crate) fn unlike(raw: &[u8], n: u8, i: u8, k: u8) -> bool
    requires { Raw raw.now n × (i < n) × (k < n) }
    ensures { UnlikeTest raw.now n i k result }
{
    if k == i {
        return true;
    }
    differ(raw, n, i, k)
}

// True only if object i of n unfolds to no other object's tree.
pub(crate) fn unlike_others(raw: &[u8], n: u8, i: u8) -> bool
    requires { Raw raw.now n × (i < n) }
    ensures { OthersTest raw.now n i result }
{
    for k in 0..n {
        if !unlike(raw, n, i, k) {
            return false;
        }
    }
    true
}

// True only if no two of the objects bound are equal. Where the block's reach is not above i, no object refers to i.
pub(crate) fn stay_distinct(work: &[u8], b: u16, x: u8, i: u8, raw: &[u8], n: u8) -> bool
    requires { Inside work.now b i × Bound work.now b x i raw.now n }
    ensures { DistinctTest raw.now n result }
{
    if work[BLOCK * (b as usize) + REACH] <= i {
        return unlike_others(raw, n, i);
    }
    if unreferred(work, b, n, i) {
        return unlike_others(raw, n, i);
    }
    false
}

// The value at object i of n, of which no two are equal, to block `dst` as they are.
pub(crate) fn put_distinct(raw: &[u8], n: u8, i: u8, work: &mut [u8], dst: u16) -> ValueRef
    requires { Rooted raw.now n i work.old dst × Distinct (nodes_in raw.now 0 n) }
    ensures { Gives work.old dst work.new result (canon (graph_in raw.now n i)) }
{
    copy(raw, 0, work, BLOCK * (dst as usize), OBJECT * (n as usize));
    let l = level_of(raw, 0, n);
    work[BLOCK * (dst as usize) + COUNT] = n;
    work[BLOCK * (dst as usize) + LEVEL] = l;
    work[BLOCK * (dst as usize) + REACH] = n;
    ValueRef::Object(i, dst)
}

// The value at object i of n, to block `dst`, equal objects merged and numbered from there.
pub(crate) fn put_merged(raw: &[u8], n: u8, i: u8, work: &mut [u8], dst: u16) -> ValueRef
    requires { Rooted raw.now n i work.old dst }
    ensures { Gives work.old dst work.new result (canon (graph_in raw.now n i)) }
{
    let mut ids = [0u8; PER_OBJECT];
    colour(raw, n, &mut ids);
    put(raw, n, &ids, i, work, dst);
    ValueRef::Object(0, dst)
}

// X = u for object i of block b, to block `dst`.
pub(crate) fn close_bound(work: &mut [u8], x: u8, b: u16, i: u8, dst: u16) -> ValueRef
    requires { Inside work.old b i × (x < mark_count) × (block_size * dst + block_size ≤ length work.old) }
    ensures { Gives work.old dst work.new result (close_of x (canon (graph_at work.old b i))) }
{
    let mut raw = [0u8; OBJECTS];
    let n = bind_objects(work, b, x, i, &mut raw);
    if stay_distinct(work, b, x, i, &raw, n) {
        return put_distinct(&raw, n, i, work, dst);
    }
    put_merged(&raw, n, i, work, dst)
}
