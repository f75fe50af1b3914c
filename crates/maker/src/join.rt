// The new objects of a part, which lies in block src, added to the host, rings too.
// `told` has k + 1 for an object of the part that is object k of the host, `fresh` has true for a new one. Not here: which objects are new.
ghost use Rattle.std.specs.Prelude.{◌≡◌, ◌+◌, ◌*◌, ◌<◌, ◌≤◌, length};
ghost use Rattle.canon.specs.Figures.{object_size, capacity, block_size};
ghost use Rattle.canon.specs.Layout.{Inside, count_in};
ghost use Rattle.canon.specs.Tables.{Lifted};
ghost use Rattle.maker.specs.Joining.{numbers_of, NewAmong, Fitted, Placing, Laid, Extended, Joining, Joined};

use crate::object::{NewObject, lay};
use crate::sort::turn;
use canon::bytes::eight_at;
use canon::layout::{
    BLOCK, BYTE, CAPACITY, COUNT, LEVEL, NUMBERS, OBJECT, REACH, THREE_BYTES, TWO_BYTES,
};
use canon::number::level_of;

// How many of the first n objects there are up to the last new one. A part most often lies at the front of its block.
pub(crate) fn up_to_new(n: u8, fresh: &[bool]) -> u8
    requires { n ≤ length fresh.now }
    ensures { NewAmong n fresh.now result }
{
    for k in (0..n).rev() {
        if fresh[k as usize] {
            return k + 1;
        }
    }
    0
}

// Numbers for the new ones of the first n objects, from t on in their order. Answers how many objects the host then has, if there is room.
pub(crate) fn number_new(n: u8, t: u8, told: &mut [u8], fresh: &[bool]) -> Option<u8>
    requires { (n ≤ length told.old) × (n ≤ length fresh.now) }
    ensures { Fitted n t told.old fresh.now told.new result }
{
    let mut next = t;
    for x in 0..n {
        if fresh[x as usize] {
            if CAPACITY <= next {
                return None;
            }
            next += 1;
            told[x as usize] = next;
        }
    }
    Some(next)
}

// Object x of block src, its codes turned, at the place of object y of block host.
pub(crate) fn put_object(work: &mut [u8], src: u16, x: u8, host: u16, y: u8, told: &[u8])
    requires { Inside work.old src x × ((src ≡ host) → ⊥) × (y < capacity) × (block_size * host + block_size ≤ length work.old) × (length told.now ≡ capacity) }
    ensures { Lifted work.old (block_size * src + object_size * x) object_size (numbers_of told.now) work.old (block_size * host + object_size * y) work.new }
{
    let p = BLOCK * (src as usize) + OBJECT * (x as usize);
    let q = BLOCK * (host as usize) + OBJECT * (y as usize);
    let a = turn(told, work[p + 2]);
    let b = turn(told, work[p + 3]);
    let c = turn(told, work[p + 4]);
    let d = turn(told, work[p + 5]);
    let w = (a as u32) + BYTE * (b as u32) + TWO_BYTES * (c as u32) + THREE_BYTES * (d as u32);
    let o = NewObject {
        class: work[p],
        count: work[p + 1],
        codes: w,
        numbers: eight_at(work, p + NUMBERS),
    };
    lay(work, q, o);
}

// The new ones of the first n objects, each at the place that `told` has for it.
pub(crate) fn put_new(work: &mut [u8], src: u16, host: u16, told: &[u8], fresh: &[bool], n: u8)
    requires { Placing work.old src host told.now fresh.now × (n ≤ count_in work.old src) }
    ensures { Laid work.old src host told.now fresh.now n work.new }
{
    for x in 0..n {
        if fresh[x as usize] {
            put_object(work, src, x, host, told[x as usize] - 1, told);
        }
    }
}

// The new objects, all among the first n, in block host, which then has m objects.
pub(crate) fn extend(
    work: &mut [u8],
    src: u16,
    host: u16,
    told: &[u8],
    fresh: &[bool],
    n: u8,
    m: u8,
)
    requires { Placing work.old src host told.now fresh.now × NewAmong (count_in work.old src) fresh.now n × (count_in work.old host ≤ m) × (m ≤ capacity) }
    ensures { Extended work.old src host told.now fresh.now m work.new }
{
    let t = work[BLOCK * (host as usize) + COUNT];
    let l = work[BLOCK * (host as usize) + LEVEL];
    put_new(work, src, host, told, fresh, n);
    let k = level_of(work, BLOCK * (host as usize) + OBJECT * (t as usize), m - t);
    let h = l.max(k);
    work[BLOCK * (host as usize) + COUNT] = m;
    work[BLOCK * (host as usize) + LEVEL] = h;
    work[BLOCK * (host as usize) + REACH] = m;
}

// The new objects of block src added to block host. Answers whether there was room; if not, the host is as before.
pub(crate) fn join(work: &mut [u8], src: u16, host: u16, told: &mut [u8], fresh: &[bool]) -> bool
    requires { Joining work.old src host told.old fresh.now }
    ensures { Joined work.old src host told.old fresh.now work.new told.new result }
{
    let t = work[BLOCK * (host as usize) + COUNT];
    let n = up_to_new(work[BLOCK * (src as usize) + COUNT], fresh);
    let Some(m) = number_new(n, t, told, fresh) else {
        return false;
    };
    if m == t {
        return true;
    }
    extend(work, src, host, told, fresh, n, m);
    true
}
