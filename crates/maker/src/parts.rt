// The parts of a new object: which they are, and in which blocks they lie. Room for four is lent, and n says how many there are. Not here: what is made of them.
ghost use Rattle.std.specs.Prelude.{◌≡◌, false, ◌+◌, ◌*◌, ◌<◌, ◌≤◌, length};
ghost use Rattle.canon.specs.Figures.{code_count};
ghost use Rattle.canon.specs.Layout.{Block};
ghost use Rattle.values.specs.Layout.{Holds, lies_in};
ghost use Rattle.maker.specs.Laying.{PartsHeld};
ghost use Rattle.maker.specs.Adding.{some_object, block_of, first_block, stands_in, all_stand};
ghost use Rattle.maker.specs.Merging.{some_in, larger_of, largest_of};

use canon::layout::{BLOCK, COUNT};
use values::ValueRef;

// Whether one of the parts is an object.
pub(crate) fn some_object(parts: &[ValueRef], n: u8) -> bool
    requires { (n ≤ code_count) × (code_count ≤ length parts.now) }
    ensures { result ≡ some_object parts.now n }
{
    for i in 0..n {
        if let ValueRef::Object(_, _) = parts[i as usize] {
            return true;
        }
    }
    false
}

// The block of a value that is an object of a block other than 0.
pub(crate) fn block_of(v: ValueRef) -> Option<u16>
    ensures { result ≡ block_of v }
{
    let ValueRef::Object(_, b) = v else {
        return None;
    };
    if b == 0 {
        return None;
    }
    Some(b)
}

// The block of the first part that is an object of a block other than 0.
pub(crate) fn first_block(parts: &[ValueRef], n: u8) -> Option<u16>
    requires { (n ≤ code_count) × (code_count ≤ length parts.now) }
    ensures { result ≡ first_block parts.now n }
{
    for i in 0..n {
        if let Some(b) = block_of(parts[i as usize]) {
            return Some(b);
        }
    }
    None
}

// Whether a part lies in block b, or is no object.
pub(crate) fn stands(v: ValueRef, b: u16) -> bool
    ensures { result ≡ stands_in b v }
{
    match v {
        ValueRef::Object(_, x) => x == b,
        _ => true,
    }
}

// Whether each part lies in block b, or is no object.
pub(crate) fn together(parts: &[ValueRef], n: u8, b: u16) -> bool
    requires { (n ≤ code_count) × (code_count ≤ length parts.now) }
    ensures { result ≡ all_stand parts.now n b }
{
    for i in 0..n {
        if !stands(parts[i as usize], b) {
            return false;
        }
    }
    true
}

// Whether v is an object of block d.
pub(crate) fn lies_in(v: ValueRef, d: u16) -> bool
    ensures { result ≡ lies_in d v }
{
    match v {
        ValueRef::Object(_, x) => x == d,
        _ => false,
    }
}

// Whether one of the parts is an object of block d. Most often the last is.
pub(crate) fn some_in(parts: &[ValueRef], n: u8, d: u16) -> bool
    requires { (n ≤ code_count) × (code_count ≤ length parts.now) }
    ensures { result ≡ some_in parts.now n d }
{
    for i in (0..n).rev() {
        if lies_in(parts[i as usize], d) {
            return true;
        }
    }
    false
}

// The block of v, if v is an object of a block other than 0 and that block has more objects than block b; else b.
pub(crate) fn larger(work: &[u8], v: ValueRef, b: u16) -> u16
    requires { Holds work.now v × Block work.now b }
    ensures { result ≡ larger_of work.now v b }
{
    let ValueRef::Object(_, x) = v else {
        return b;
    };
    if x == 0 {
        return b;
    }
    if work[BLOCK * (b as usize) + COUNT] < work[BLOCK * (x as usize) + COUNT] {
        return x;
    }
    b
}

// The block with the most objects, of block b and those of the parts but block 0.
pub(crate) fn largest(work: &[u8], parts: &[ValueRef], n: u8, b: u16) -> u16
    requires { PartsHeld work.now parts.now n × (n ≤ code_count) × Block work.now b × (code_count ≤ length parts.now) }
    ensures { result ≡ largest_of work.now parts.now n b }
{
    let mut d = b;
    for i in 0..n {
        d = larger(work, parts[i as usize], d);
    }
    d
}
