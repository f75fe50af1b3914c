// The places of a class table's bytes, each figure named once. docs/TABLE.md says what stands where.

// all bytes of a table
pub const SIZE: usize = 25616;

// a class's row
pub const ROW: usize = 16;

// the last class number that has a row
pub const CLASSES: u8 = 32;

// the class byte of numbers, which has no row
pub const NUMBER_CLASS: u8 = 0xFE;

// how many fields a class may have
pub const FIELDS: u8 = 4;

// the index of own methods: a row of 256 bytes for each class
pub(crate) const INDEX: usize = 528;

// the methods' rows, 256 bytes each
pub const METHODS: usize = 8976;

// main's row
pub const MAIN: usize = 25360;

// a row of the index, of a method and of main
pub const LONG: usize = 256;

// the byte of a long row that has its line's length
pub const LAST: usize = 255;

// where it says how many classes and methods there are, in the room of class 0
pub const CLASS_COUNT_AT: usize = 11;

pub const METHOD_COUNT_AT: usize = 12;
