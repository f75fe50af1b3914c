// Class fit and the fields of a class: each goes to the parent, whose number is smaller.
// A parent that is not smaller ends the chain: no class of a table that is read has one (proofs/OnTables). A class byte that has no row, as that of
// numbers, is its own parent and has no fields.
ghost use Rattle.std.specs.Prelude.{◌≡◌, ◌+◌, ◌*◌, ◌<◌};
ghost use Rattle.classes.specs.Figures.{row_size, table_size};
ghost use Rattle.classes.specs.Machine.{Stored, type_at, up, total_of, fits_of, field_of, own_field};

use crate::places::{CLASSES, ROW, SIZE};

// A type: a class number and a tag.
#[derive(Clone, Copy)]
pub struct FieldType {
    pub class: u8,
    pub tag: u8,
}

// Where the row of class c begins.
pub(crate) fn class_row(c: u8) -> usize
    ensures { result ≡ row_size * c }
{
    ROW * usize::from(c)
}

// The type that stands at a place.
pub(crate) fn type_at(t: &[u8; SIZE], at: usize) -> FieldType
    requires { at + 1 < table_size }
    ensures { result ≡ type_at t.now at }
{
    FieldType {
        class: t[at],
        tag: t[at + 1],
    }
}

// The parent of class c.
pub(crate) fn parent(t: &[u8; SIZE], c: u8) -> u8
    ensures { result ≡ up t.now c }
{
    if CLASSES < c {
        return c;
    }
    t[class_row(c)]
}

// Whether class c is d or stands below it.
pub fn fit(t: &[u8; SIZE], c: u8, d: u8) -> bool
    ensures { result ≡ fits_of t.now c d }
{
    if c == d {
        return true;
    }
    let p = parent(t, c);
    if c <= p {
        return false;
    }
    fit(t, p, d)
}

// The number of all fields of class c, inherited ones included.
pub fn field_total(t: &[u8; SIZE], c: u8) -> u8
    ensures { result ≡ total_of t.now c }
{
    if CLASSES < c {
        return 0;
    }
    t[class_row(c) + 1]
}

// Where the type of own field j of class c stands, 0 if there is none.
pub(crate) fn own_place(t: &[u8; SIZE], c: u8, j: u8) -> usize
    ensures { Stored t.now result (own_field t.now c j) }
{
    let row = class_row(c);
    if t[row + 2] <= j {
        return 0;
    }
    row + 3 + 2 * usize::from(j)
}

// Where the type of field f of class c stands, inherited ones first; 0 if there is none. No `Option`: the compiler makes a loop of this recursion only
// where one number goes back (1.3 times as many instructions).
pub(crate) fn field_place(t: &[u8; SIZE], c: u8, f: u8) -> usize
    ensures { Stored t.now result (field_of t.now c f) }
{
    let p = parent(t, c);
    if c <= p {
        return 0;
    }
    let k = field_total(t, p);
    if f < k {
        return field_place(t, p, f);
    }
    own_place(t, c, f - k)
}

// The type of field f of class c.
pub fn field_type(t: &[u8; SIZE], c: u8, f: u8) -> Option<FieldType>
    ensures { result ≡ field_of t.now c f }
{
    let at = field_place(t, c, f);
    if at == 0 {
        return None;
    }
    Some(type_at(t, at))
}
