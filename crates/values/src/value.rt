// Values closed and moved. Not here: values selected from (refs), values compared (lockstep), a new object (crate maker), how a mark is bound (bind).
ghost use Rattle.std.specs.Prelude.{◌+◌, ◌*◌, ◌<◌, ◌≤◌, length};
ghost use Rattle.canon.specs.Figures.{mark_count, capacity, objects_size, block_size};
ghost use Rattle.canon.specs.Layout.{Block, Inside, graph_at};
ghost use Rattle.canon.specs.Numbers.{Placed};
ghost use Rattle.values.specs.Layout.{Holds, value_of};
ghost use Rattle.values.specs.Operations.{Taken, Copied, Gives, close_of};

use crate::ValueRef;
use crate::bind::close_bound;
use canon::bytes::{copy, count_up};
use canon::layout::{BLOCK, COUNT, LEVEL, OBJECT, OBJECTS, PER_OBJECT, REACH};
use canon::number::put;

// Copies the objects of block b to the front of `raw`, and answers how many they are.
// `ids` becomes 0, 1, .. for each of them.
pub(crate) fn take_up(work: &[u8], b: u16, ids: &mut [u8], raw: &mut [u8]) -> u8
    requires { Block work.now b × (capacity ≤ length ids.old) × (objects_size ≤ length raw.old) }
    ensures { Taken work.now b ids.new raw.old raw.new result }
{
    let at = BLOCK * (b as usize);
    let n = work[at + COUNT];
    let p = OBJECT * (n as usize);
    count_up(n, ids);
    copy(work, at, raw, 0, p);
    n
}

// The value at object i of block b, alone and numbered from its root, to block `dst`. Answers how many objects it has.
pub(crate) fn move_out(work: &mut [u8], b: u16, i: u8, dst: u16) -> u8
    requires { Inside work.old b i × (block_size * dst + block_size ≤ length work.old) }
    ensures { Placed (graph_at work.old b i) work.old dst work.new result }
{
    let mut ids = [0u8; PER_OBJECT];
    let mut raw = [0u8; OBJECTS];
    let n = take_up(work, b, &mut ids, &mut raw);
    put(&raw, n, &ids, i, work, dst)
}

// The objects of block b, to block `dst`, which may be b.
pub fn copy_block(work: &mut [u8], b: u16, dst: u16)
    requires { Block work.old b × (block_size * dst + block_size ≤ length work.old) }
    ensures { Copied work.old b dst work.new }
{
    let n = work[BLOCK * (b as usize) + COUNT];
    let l = work[BLOCK * (b as usize) + LEVEL];
    let m = work[BLOCK * (b as usize) + REACH];
    let p = OBJECT * (n as usize);
    for q in 0..p {
        work[BLOCK * (dst as usize) + q] = work[BLOCK * (b as usize) + q];
    }
    work[BLOCK * (dst as usize) + COUNT] = n;
    work[BLOCK * (dst as usize) + LEVEL] = l;
    work[BLOCK * (dst as usize) + REACH] = m;
}

// A value, in block `dst` or below.
pub fn bring(work: &mut [u8], v: ValueRef, dst: u16) -> ValueRef
    requires { Holds work.old v × (block_size * dst + block_size ≤ length work.old) }
    ensures { Gives work.old dst work.new result (value_of work.old v) }
{
    let ValueRef::Object(i, b) = v else {
        return v;
    };
    if b <= dst {
        return v;
    }
    copy_block(work, b, dst);
    ValueRef::Object(i, dst)
}

// X = u, in block `dst` or below. An object in which the mark is not stays as it is.
pub fn close(work: &mut [u8], x: u8, v: ValueRef, dst: u16) -> ValueRef
    requires { Holds work.old v × (x < mark_count) × (block_size * dst + block_size ≤ length work.old) }
    ensures { Gives work.old dst work.new result (close_of x (value_of work.old v)) }
{
    match v {
        ValueRef::Object(i, b) => {
            if work[BLOCK * (b as usize) + LEVEL] <= x {
                return bring(work, v, dst);
            }
            close_bound(work, x, b, i, dst)
        }
        ValueRef::Mark(k) => {
            if k == x {
                return ValueRef::Undetermined;
            }
            v
        }
        ValueRef::Number(_) => v,
        ValueRef::Undetermined => v,
    }
}
