// Whether the objects of a block fit the places that hold them, by the classes of a table: refusal 15 but for their number.
// Not here: how many they may be (input).
ghost use Rattle.canon.specs.Layout.{Inside};
ghost use Rattle.batch.specs.Judging.{Coded, HeldTest, FieldTest, ObjectTest, ValueTest};

use canon::layout::{COUNT, FIRST_LEAF, HEAD, NUMBER, OBJECT};
use classes::chain::{FieldType, field_type, fit};
use classes::places::{NUMBER_CLASS, SIZE};

// the tag of a place that may hold the undetermined value
const MINUS: u8 = 3;

// Whether a place of type w may hold what the code b stands for: an object whose class fits, a number, or undetermined.
pub(crate) fn held(block: &[u8], t: &[u8; SIZE], w: FieldType, b: u8) -> bool
    requires { Coded block.now b }
    ensures { HeldTest t.now block.now w b result }
{
    if b == NUMBER {
        return w.class == NUMBER_CLASS;
    }
    if FIRST_LEAF <= b {
        return w.tag == MINUS;
    }
    let c = block[OBJECT * (b as usize)];
    fit(t, c, w.class)
}

// Whether field f of a class may hold what the code b stands for.
pub(crate) fn field_holds(block: &[u8], t: &[u8; SIZE], class: u8, f: u8, b: u8) -> bool
    requires { Coded block.now b }
    ensures { FieldTest t.now block.now class f b result }
{
    let Some(w) = field_type(t, class, f) else {
        return false;
    };
    held(block, t, w, b)
}

// Whether each field of object i may hold what it does.
pub(crate) fn object_holds(block: &[u8], t: &[u8; SIZE], i: u8) -> bool
    requires { Inside block.now 0 i }
    ensures { ObjectTest t.now block.now i result }
{
    let at = OBJECT * (i as usize);
    let class = block[at];
    let n = block[at + 1];
    for f in 0..n {
        let b = block[at + HEAD + (f as usize)];
        if !field_holds(block, t, class, f, b) {
            return false;
        }
    }
    true
}

// Whether the value from object 0 of the block on fits a place of this class, and each of its objects the places that hold it.
pub(crate) fn value_fits(block: &[u8], t: &[u8; SIZE], class: u8) -> bool
    requires { Inside block.now 0 0 }
    ensures { ValueTest t.now block.now class result }
{
    let root = block[0];
    if !fit(t, root, class) {
        return false;
    }
    let n = block[COUNT];
    for i in 0..n {
        if !object_holds(block, t, i) {
            return false;
        }
    }
    true
}
