// One line's frame into the table: the rules of a class table (refusal 4), and the bytes that are written.
// Not here: the order of the lines (build), overriding (overrides).
ghost use Rattle.std.specs.Prelude.{◌≡◌, ◌≤◌, ◌<◌, ◌+◌, ◌*◌, length, get_or, drop};
ghost use Rattle.std.proofs.lemmas.List.Edits.{sets};
ghost use Rattle.cofj.specs.Limits.{class_count, method_count, line_size};
ghost use Rattle.classes.specs.Figures.{table_size};
ghost use Rattle.classes.specs.Placing.{scan, placed, class_placed, index_put, method_put, method_placed, input_fits, main_put, main_placed};
ghost use Rattle.classes.specs.Layout.{ahead_of};

use crate::chain::{class_row, field_total};
use crate::known::{all_known, head_good, types_good};
use crate::methods::own_number;
use crate::places::{CLASSES, FIELDS, INDEX, LAST, LONG, MAIN, METHODS, SIZE};
use lineform::lines::RIGHTS;

// The first byte of a line of main that has a parameter, and the bytes of its type.
const INPUT: u8 = 4;

const INPUT_SIZE: u8 = 2;

// Writes the bytes of the line from `from` on into the table at `to`.
pub(crate) fn copy(l: &[u8], from: usize, t: &mut [u8; SIZE], to: usize)
    requires { (length l.now ≤ line_size) × (to + length l.now ≤ table_size) }
    ensures { t.new ≡ sets t.old to (drop from l.now) }
{
    for i in from..l.len() {
        t[to + i - from] = l[i];
    }
}

// Class k of n: its number, its parent, its own fields' types, and how many fields it has in all.
pub(crate) fn place_class(l: &[u8], k: u8, n: u8, t: &mut [u8; SIZE]) -> bool
    requires { (length l.now ≤ line_size) × (k ≤ class_count) }
    ensures { placed result t.new ≡ class_placed l.now k n t.old }
{
    if l.len() < 4 {
        return false;
    }
    if l[1] != k {
        return false;
    }
    let p = l[2];
    if k <= p {
        return false;
    }
    let own = l[3];
    if !types_good(l, 4, own, n) {
        return false;
    }
    let above = field_total(t, p);
    if FIELDS < above {
        return false;
    }
    if FIELDS < own {
        return false;
    }
    let total = above + own;
    if FIELDS < total {
        return false;
    }
    let row = class_row(k);
    t[row] = p;
    t[row + 1] = total;
    copy(l, 3, t, row + 2);
    true
}

// Whether the expressions of a method's line name known classes only.
fn bodies_known(l: &[u8], n: u8) -> bool
    requires { (8 ≤ length l.now) × (length l.now ≤ line_size) }
    ensures { result ≡ scan n 0 (drop (8 + 2 * get_or l.now 7 0) l.now) }
{
    all_known(l, 8 + 2 * usize::from(l[7]), n)
}

// Sets the index of class c under the name m.
pub(crate) fn put_index(c: u8, m: u8, x: u8, t: &mut [u8; SIZE])
    ensures { t.new ≡ index_put c m x t.old }
{
    if CLASSES < c {
        return;
    }
    t[INDEX + LONG * usize::from(c) + usize::from(m)] = x;
}

// Writes the row of method i.
pub(crate) fn put_method(l: &[u8], i: u8, right: u8, t: &mut [u8; SIZE])
    requires { (length l.now ≤ line_size) × (i < method_count) }
    ensures { t.new ≡ method_put l.now i right t.old }
{
    let b = METHODS + LONG * usize::from(i);
    t[b] = right;
    copy(l, 1, t, b + 1);
    t[b + LAST] = l.len() as u8;
}

// Method i, whose right expression stands where `rights` says: the line is good, and its class has no method of its name yet.
pub(crate) fn place_method(
    l: &[u8],
    i: u8,
    rights: &[u8; RIGHTS],
    n: u8,
    t: &mut [u8; SIZE],
) -> bool
    requires { (length l.now ≤ line_size) × (i < method_count) }
    ensures { placed result t.new ≡ method_placed l.now i (get_or rights.now i 0) n t.old }
{
    if l.len() < 8 {
        return false;
    }
    if !head_good(l, n) {
        return false;
    }
    let c = l[1];
    let m = l[2];
    if own_number(t, c, m).is_some() {
        return false;
    }
    if !bodies_known(l, n) {
        return false;
    }
    let b = rights[usize::from(i)];
    put_index(c, m, i + 1, t);
    put_method(l, i, b, t);
    true
}

// How many bytes stand between the first byte of main's line and its expression: the type of its parameter, if it has one.
fn input_size(l: &[u8]) -> u8
    ensures { result ≡ ahead_of l.now }
{
    if l.is_empty() {
        return 0;
    }
    if l[0] == INPUT {
        return INPUT_SIZE;
    }
    0
}

// Whether that type, where it has k bytes, is known and has tag 0.
fn input_fits(l: &[u8], k: u8, n: u8) -> bool
    ensures { result ≡ input_fits n k l.now }
{
    if k == 0 {
        return true;
    }
    if l.len() < 3 {
        return false;
    }
    if n < l[1] {
        return false;
    }
    l[2] == 0
}

// Writes main's row; k bytes stand in front of the expression.
fn put_main(l: &[u8], k: u8, t: &mut [u8; SIZE])
    requires { (length l.now ≤ line_size) × (k ≡ ahead_of l.now) }
    ensures { t.new ≡ main_put l.now t.old }
{
    t[MAIN] = k;
    copy(l, 1, t, MAIN + 1);
    t[MAIN + LAST] = l.len() as u8;
}

// The line of main.
pub(crate) fn place_main(l: &[u8], n: u8, t: &mut [u8; SIZE]) -> bool
    requires { length l.now ≤ line_size }
    ensures { placed result t.new ≡ main_placed l.now n t.old }
{
    let k = input_size(l);
    if !input_fits(l, k, n) {
        return false;
    }
    if !all_known(l, 1 + usize::from(k), n) {
        return false;
    }
    put_main(l, k, t);
    true
}
