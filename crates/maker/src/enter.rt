// An object among the objects of a block: found there, or added. Not here: the bytes of one more object (over), objects of other blocks (merge).
ghost use Rattle.std.specs.Prelude.{◌≡◌};
ghost use Rattle.canon.specs.Layout.{Block, count_in};
ghost use Rattle.maker.specs.Adding.{bytes_of, Missed};
ghost use Rattle.maker.specs.Merging.{Fits, Entered, lies_from, refers_from};

use crate::object::{NewObject, level_with};
use crate::over::{append, find};
use canon::layout::{
    BLOCK, BYTE, CAPACITY, COUNT, FIRST_LEAF, LEVEL, REACH, THREE_BYTES, TWO_BYTES,
};

// A new object, which is not among the objects of block host: its number there, if there is room.
pub(crate) fn enter_new(work: &mut [u8], host: u16, o: NewObject) -> Option<u8>
    requires { Block work.old host × Fits work.old host (bytes_of o) × Missed work.old host (bytes_of o) (count_in work.old host) }
    ensures { Entered work.old host (bytes_of o) work.new result }
{
    let t = work[BLOCK * (host as usize) + COUNT];
    if CAPACITY <= t {
        return None;
    }
    let l = level_with(o.codes, work[BLOCK * (host as usize) + LEVEL]);
    append(work, host, t, o, l);
    Some(t)
}

// The object, among the objects of block host: its number there, if it is there or there is room for it.
pub(crate) fn enter(work: &mut [u8], host: u16, o: NewObject) -> Option<u8>
    requires { Block work.old host × Fits work.old host (bytes_of o) }
    ensures { Entered work.old host (bytes_of o) work.new result }
{
    let t = work[BLOCK * (host as usize) + COUNT];
    if let Some(k) = find(work, host, t, o) {
        return Some(k);
    }
    enter_new(work, host, o)
}

// Whether a code is an object's, of number f or a higher one.
pub(crate) fn lies_from(c: u8, f: u8) -> bool
    ensures { result ≡ lies_from c f }
{
    if c < f {
        return false;
    }
    c < FIRST_LEAF
}

// Whether one of the four codes of w is.
pub(crate) fn refers_from(w: u32, f: u8) -> bool
    ensures { result ≡ refers_from w f }
{
    if lies_from((w % BYTE) as u8, f) {
        return true;
    }
    if lies_from((w / BYTE % BYTE) as u8, f) {
        return true;
    }
    if lies_from((w / TWO_BYTES % BYTE) as u8, f) {
        return true;
    }
    lies_from((w / THREE_BYTES) as u8, f)
}

// The same as `enter`. An object that refers to one that no object of the block refers to is not in the block, and need not be looked for.
pub(crate) fn enter_over(work: &mut [u8], host: u16, o: NewObject) -> Option<u8>
    requires { Block work.old host × Fits work.old host (bytes_of o) }
    ensures { Entered work.old host (bytes_of o) work.new result }
{
    if refers_from(o.codes, work[BLOCK * (host as usize) + REACH]) {
        return enter_new(work, host, o);
    }
    enter(work, host, o)
}
