// How parts lie in bytes: as objects do (canon), but a field's byte is the number of the part that it holds, FE for a number, and FF for one that is not there
// or holds neither. specs/Figures has the same for the specifications. Not here: objects of a block (canon).

use canon::layout::{CODES, OBJECT};

// the bytes of a part: HEAD and NUMBERS, where its fields and its numbers begin, are canon's
pub(crate) const PART: usize = OBJECT;

// its fields, a byte each
pub(crate) const FIELDS: u8 = CODES;

// where its two blank bytes stand
pub(crate) const BLANK: usize = 14;

// the byte of a field that holds a number; every lower one is a part's
pub(crate) const NUMBER_FIELD: u8 = 254;

// the byte of a field that holds neither
pub(crate) const NO_PART: u8 = 255;

// as many as a byte can number: the length of a table with a byte for each part
pub(crate) const PER_BYTE: usize = 256;

// the bytes of so many parts
pub(crate) const WIDE: usize = PART * PER_BYTE;
