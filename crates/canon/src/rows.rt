// The tables of parting: what their rows hold. Row x is object x - 1's; row 0 stands for no object.
// Not here: what is done with them (links, parting).
use crate::layout::{CODES, PER_OBJECT};

// the rows for the objects of a block: one for each, and one for none
pub(crate) const ROWS: usize = PER_OBJECT + 1;

// a table of links for each field
pub(crate) const LISTS: usize = CODES as usize;

// Object x, place x and class x.
#[derive(Clone, Copy)]
pub(crate) struct Row {
    // the class of object x
    pub(crate) class: u8,
    // its place
    pub(crate) place: u8,
    // the object at place x
    pub(crate) object_at: u8,
    // where class x begins
    pub(crate) begin: u8,
    // its middle
    pub(crate) middle: u8,
    // its end
    pub(crate) end: u8,
    // a note, of whoever uses it
    pub(crate) note: u8,
    // one of the classes that have objects in front
    pub(crate) marked: u8,
}

// Who refers to row x, and to what it refers, by one field; 0 is none.
#[derive(Clone, Copy)]
pub(crate) struct Link {
    // the last row that refers to x
    pub(crate) last: u8,
    // the one before x that refers to what x does
    pub(crate) before: u8,
    // what x refers to
    pub(crate) target: u8,
}

// A row with nothing in it, and the same for links.
pub(crate) const BLANK: Row = Row {
    class: 0,
    place: 0,
    object_at: 0,
    begin: 0,
    middle: 0,
    end: 0,
    note: 0,
    marked: 0,
};

pub(crate) const FREE: Link = Link {
    last: 0,
    before: 0,
    target: 0,
};

// The links of each field.
pub(crate) type Fields = [[Link; ROWS]; LISTS];
