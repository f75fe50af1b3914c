// Block 0 with one object without fields of each class from 0 on. Not here: a new object (make).
ghost use Rattle.std.specs.Prelude.{◌≤◌, length};
ghost use Rattle.canon.specs.Figures.{block_size};
ghost use Rattle.maker.specs.Fieldless.{Preset, LaidFieldless};

use canon::bytes::copy;
use canon::layout::{REACH, UNDETERMINED};

// how many classes, from 0 on, have their object without fields in block 0
pub const PRESETS: u8 = 32;

// the code of a field that is not there
const U: u8 = UNDETERMINED;

// The bytes of the block: object c is the object of class c without fields; then how many objects there are, and the level.
#[rattlefmt::skip]
pub(crate) const PRESET: [u8; REACH] = [
    0, 0, U, U, U, U, 0, 0, 0, 0, 0, 0, 0, 0, 0, 0,
    1, 0, U, U, U, U, 0, 0, 0, 0, 0, 0, 0, 0, 0, 0,
    2, 0, U, U, U, U, 0, 0, 0, 0, 0, 0, 0, 0, 0, 0,
    3, 0, U, U, U, U, 0, 0, 0, 0, 0, 0, 0, 0, 0, 0,
    4, 0, U, U, U, U, 0, 0, 0, 0, 0, 0, 0, 0, 0, 0,
    5, 0, U, U, U, U, 0, 0, 0, 0, 0, 0, 0, 0, 0, 0,
    6, 0, U, U, U, U, 0, 0, 0, 0, 0, 0, 0, 0, 0, 0,
    7, 0, U, U, U, U, 0, 0, 0, 0, 0, 0, 0, 0, 0, 0,
    8, 0, U, U, U, U, 0, 0, 0, 0, 0, 0, 0, 0, 0, 0,
    9, 0, U, U, U, U, 0, 0, 0, 0, 0, 0, 0, 0, 0, 0,
    10, 0, U, U, U, U, 0, 0, 0, 0, 0, 0, 0, 0, 0, 0,
    11, 0, U, U, U, U, 0, 0, 0, 0, 0, 0, 0, 0, 0, 0,
    12, 0, U, U, U, U, 0, 0, 0, 0, 0, 0, 0, 0, 0, 0,
    13, 0, U, U, U, U, 0, 0, 0, 0, 0, 0, 0, 0, 0, 0,
    14, 0, U, U, U, U, 0, 0, 0, 0, 0, 0, 0, 0, 0, 0,
    15, 0, U, U, U, U, 0, 0, 0, 0, 0, 0, 0, 0, 0, 0,
    16, 0, U, U, U, U, 0, 0, 0, 0, 0, 0, 0, 0, 0, 0,
    17, 0, U, U, U, U, 0, 0, 0, 0, 0, 0, 0, 0, 0, 0,
    18, 0, U, U, U, U, 0, 0, 0, 0, 0, 0, 0, 0, 0, 0,
    19, 0, U, U, U, U, 0, 0, 0, 0, 0, 0, 0, 0, 0, 0,
    20, 0, U, U, U, U, 0, 0, 0, 0, 0, 0, 0, 0, 0, 0,
    21, 0, U, U, U, U, 0, 0, 0, 0, 0, 0, 0, 0, 0, 0,
    22, 0, U, U, U, U, 0, 0, 0, 0, 0, 0, 0, 0, 0, 0,
    23, 0, U, U, U, U, 0, 0, 0, 0, 0, 0, 0, 0, 0, 0,
    24, 0, U, U, U, U, 0, 0, 0, 0, 0, 0, 0, 0, 0, 0,
    25, 0, U, U, U, U, 0, 0, 0, 0, 0, 0, 0, 0, 0, 0,
    26, 0, U, U, U, U, 0, 0, 0, 0, 0, 0, 0, 0, 0, 0,
    27, 0, U, U, U, U, 0, 0, 0, 0, 0, 0, 0, 0, 0, 0,
    28, 0, U, U, U, U, 0, 0, 0, 0, 0, 0, 0, 0, 0, 0,
    29, 0, U, U, U, U, 0, 0, 0, 0, 0, 0, 0, 0, 0, 0,
    30, 0, U, U, U, U, 0, 0, 0, 0, 0, 0, 0, 0, 0, 0,
    31, 0, U, U, U, U, 0, 0, 0, 0, 0, 0, 0, 0, 0, 0,
    PRESETS, 0,
];

// These bytes, right by one test of all of them.
pub(crate) fn preset() -> [u8; REACH]
    ensures { Preset result }
{
    PRESET
}

// Object c of block 0 is the object of class c without fields, and there is no other.
pub fn lay_fieldless(work: &mut [u8])
    requires { block_size ≤ length work.old }
    ensures { LaidFieldless work.old work.new }
{
    let table = preset();
    copy(&table, 0, work, 0, REACH);
}
