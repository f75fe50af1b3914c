// Where a method is found, and the parts of a method and of main at their places in their rows.
// Not here: class fit and fields (chain).
ghost use Rattle.std.specs.Prelude.{◌≡◌, ◌+◌, ◌*◌, ◌<◌, get_or};
ghost use Rattle.classes.specs.Machine.{owned, own_of, lookup_of, method_with, row_of, type_at, param_of, left_of, right_of, main_place, input_type};

use crate::chain::{FieldType, parent, type_at};
use crate::places::{CLASSES, INDEX, LONG, MAIN, METHODS, SIZE};

// A method that a search finds: the class in which it stopped, which owns the method, and the method's number in file order.
#[derive(Clone, Copy)]
pub struct Found {
    pub owner: u8,
    pub method: u8,
}

// The number of the method m that class c has itself. The index has the number and 1, or 0: its bytes lie in fixed memory.
pub(crate) fn own_number(t: &[u8; SIZE], c: u8, m: u8) -> Option<u8>
    ensures { own_of t.now c m ≡ owned c result }
{
    if CLASSES < c {
        return None;
    }
    t[INDEX + LONG * usize::from(c) + usize::from(m)].checked_sub(1)
}

// Class c or the nearest class above it that has a method m itself; where none has, the last class of the chain. A class, and not what is found: the compiler
// makes a loop of this recursion only where one number goes back.
pub(crate) fn nearest(t: &[u8; SIZE], c: u8, m: u8) -> u8
    ensures { lookup_of t.now c m ≡ own_of t.now result m }
{
    if own_number(t, c, m).is_some() {
        return c;
    }
    let p = parent(t, c);
    if c <= p {
        return c;
    }
    nearest(t, p, m)
}

// The method m of class c or of the nearest class above it. Its owner is the class where the search stopped, whatever its row says.
pub fn lookup(t: &[u8; SIZE], c: u8, m: u8) -> Option<Found>
    ensures { result ≡ lookup_of t.now c m }
{
    let owner = nearest(t, c, m);
    let method = own_number(t, owner, m)?;
    Some(Found { owner, method })
}

// ---- the parts of method i

// Where the row of method i begins; a number past the rows is taken around.
pub(crate) fn method_row(i: u8) -> usize
    ensures { result ≡ row_of i }
{
    METHODS + LONG * usize::from(i % 64)
}

// The class that declares method i.
pub fn owner(t: &[u8; SIZE], i: u8) -> u8
    ensures { result ≡ get_or t.now (row_of i + 1) 0 }
{
    t[method_row(i) + 1]
}

pub(crate) fn name(t: &[u8; SIZE], i: u8) -> u8
    ensures { result ≡ get_or t.now (row_of i + 2) 0 }
{
    t[method_row(i) + 2]
}

// The first result type of method i.
pub fn first(t: &[u8; SIZE], i: u8) -> FieldType
    ensures { result ≡ type_at t.now (row_of i + 3) }
{
    type_at(t, method_row(i) + 3)
}

pub fn second(t: &[u8; SIZE], i: u8) -> FieldType
    ensures { result ≡ type_at t.now (row_of i + 5) }
{
    type_at(t, method_row(i) + 5)
}

// How many parameters method i has.
pub(crate) fn param_count(t: &[u8; SIZE], i: u8) -> u8
    ensures { result ≡ get_or t.now (row_of i + 7) 0 }
{
    t[method_row(i) + 7]
}

// What `lookup` finds, if it has n parameters.
pub fn method_with(t: &[u8; SIZE], c: u8, m: u8, n: u8) -> Option<Found>
    ensures { result ≡ method_with t.now c m n }
{
    let f = lookup(t, c, m)?;
    if param_count(t, f.method) != n {
        return None;
    }
    Some(f)
}

// The type of parameter k of method i. There are at most three.
pub fn param_type(t: &[u8; SIZE], i: u8, k: u8) -> Option<FieldType>
    ensures { result ≡ param_of t.now i k }
{
    if 2 < k {
        return None;
    }
    let b = method_row(i);
    if t[b + 7] <= k {
        return None;
    }
    Some(type_at(t, b + 8 + 2 * usize::from(k)))
}

// Where the left expression of method i stands.
pub fn left_place(t: &[u8; SIZE], i: u8) -> usize
    ensures { (result ≡ left_of t.now i) × (result < 65536) }
{
    let b = method_row(i);
    let n = t[b + 7];
    b + 8 + 2 * usize::from(n)
}

// Where the right expression of method i stands.
pub fn right_place(t: &[u8; SIZE], i: u8) -> usize
    ensures { (result ≡ right_of t.now i) × (result < 65536) }
{
    let b = method_row(i);
    let n = t[b];
    b + usize::from(n)
}

// ---- the parts of main

// Where main's expression stands.
pub fn main_place(t: &[u8; SIZE]) -> usize
    ensures { (result ≡ main_place t.now) × (result < 65536) }
{
    let n = t[MAIN];
    MAIN + 1 + usize::from(n)
}

// The type of main's parameter, if it has one.
pub fn input_type(t: &[u8; SIZE]) -> Option<FieldType>
    ensures { result ≡ input_type t.now }
{
    if t[MAIN] == 0 {
        return None;
    }
    Some(type_at(t, MAIN + 1))
}
