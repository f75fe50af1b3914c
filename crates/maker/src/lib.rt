// A new object over values, in a block of the work buffer.
// Offered: `make::make` and `over::make_fieldless`, a new object with and without parts; `fieldless::lay_fieldless`, block 0 with the objects without fields, and
// `fieldless::PRESETS`.
// Not here: what else is done with values (values), which objects are equal (canon), which blocks are free.
#![tactic(auto)]

pub(crate) mod parts; // the parts of a new object, and where they lie
pub(crate) mod object; // a new object as numbers, and its bytes
pub mod over; // a new object beside the objects of one block
pub(crate) mod enter; // an object among the objects of a block
pub(crate) mod reach; // what an object of a block leads to
pub(crate) mod seek; // an object of a part among the objects of the host
pub(crate) mod sort; // which objects of a part are new to the host
pub(crate) mod join; // the new objects of a part added to the host
pub(crate) mod part; // an object of another block in the host
pub(crate) mod merge; // a new object over the objects of several blocks
pub(crate) mod limit; // whether a value has at most so many objects
pub mod make; // a new object
pub mod fieldless; // block 0 with the objects without fields

use canon::layout::CAPACITY;

// The number in the host of an object that is not told: no object of a block has it, and no other code is it. A number, for codes are turned by a table
// of bytes in fixed memory, whose contract (canon, `Lifted`) has one for each.
const NOT_TOLD: u8 = CAPACITY;
