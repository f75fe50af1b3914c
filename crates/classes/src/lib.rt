// A program's class table in bytes (docs/TABLE.md) and what is asked of it: class fit, fields, methods and their parts.
// Offered: `ClassTable`; the figures of `places`; of `chain` `fit`, `field_total` and `field_type`; of `methods` `lookup`, `method_with` and a method's parts;
// of `known` `closed`; of `shape` `shape_at` with `Shape`, `is_field` and `byte_at`; `skip::skip_expr`; `build::place_table`; `overrides::overrides`.
// Not here: reading a text into it, types of expressions, runs.
#![tactic(auto)]

pub mod places; // the figures of the layout
pub mod chain; // class fit and the fields of a class
pub mod methods; // where a method is found, and its parts
pub mod shape; // what stands at a place of an expression
pub mod skip; // the place after an expression
pub mod known; // tests of a line against the number of classes
pub(crate) mod place; // one line into the table
pub mod build; // all lines into the table
pub mod overrides; // methods that override have the same types

use crate::places::SIZE;

// The bytes of a class table. Lend them: nothing is copied.
#[repr(C)]
#[derive(Clone, Copy)]
pub struct ClassTable {
    pub bytes: [u8; SIZE],
}
