// Canonical values in blocks of the work buffer, and what is done with them: selected from, closed, compared, reported.
// Offered: `ValueRef`; of `refs` `pack`, `unpack`, `select`, and `HIGH`; of `lockstep` `equal`, `alike` and `in_step`; of `value` `bring`, `close` and
// `copy_block`; `report::report`.
// Not here: objects in bytes and which of them are equal (canon), a new object (maker); which blocks are free: the caller names the block that a result goes to.
#![tactic(auto)]

pub mod refs; // references: as one number, of a code, selected from
pub mod lockstep; // values compared
pub(crate) mod bind; // a mark bound to an object
pub mod value; // values closed, moved
pub mod report; // the report of a value

// A value: an object's number and the block where it lies, the mark of an open call, a number, or undetermined.
#[derive(Clone, Copy)]
pub enum ValueRef {
    Object(u8, u16),
    Mark(u8),
    Number(u16),
    Undetermined,
}
