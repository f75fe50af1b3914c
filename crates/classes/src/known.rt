// Tests of a line's bytes against the number of classes n: types that are known and closed, expressions whose classes are known. A number's class is
// known where the type of a field, a parameter or a result stands.
// Not here: that the line is a frame (lineform), which every line is that gets here.
ghost use Rattle.std.specs.Prelude.{◌≡◌, ◌≤◌, ◌<◌, ◌+◌, ◌-◌, length, drop};
ghost use Rattle.cofj.specs.Limits.{line_size};
ghost use Rattle.cofj.specs.Typing.{closed_tag};
ghost use Rattle.classes.specs.Placing.{known_class, good_types, names_known, scan, names_above, none_above, head_good};

use crate::places::NUMBER_CLASS;
use lineform::sign::{NEW, sign_row};

// How many bytes are tested at once.
const BLOCK: usize = 16;

// Tags 0 and 3 are closed.
pub fn closed(g: u8) -> bool
    ensures { result ≡ closed_tag g }
{
    matches!(g, 0 | 3)
}

// Whether c is one of the n classes, or the class byte of numbers.
fn class_known(c: u8, n: u8) -> bool
    ensures { result ≡ known_class n c }
{
    c <= n || c == NUMBER_CLASS
}

// Whether the k types from `at` on have known classes and closed tags.
pub(crate) fn types_good(s: &[u8], at: usize, k: u8, n: u8) -> bool
    ensures { result ≡ good_types n k (drop at s.now) }
{
    if k == 0 {
        return true;
    }
    if s.len() <= at {
        return false;
    }
    let a = at + 1;
    if s.len() <= a {
        return false;
    }
    if !class_known(s[at], n) {
        return false;
    }
    if !closed(s[a]) {
        return false;
    }
    types_good(s, a + 1, k - 1, n)
}

// Whether the byte a may be the sign of a new object, with a class b after it that is not known.
fn names_above(a: u8, b: u8, n: u8) -> bool
    ensures { result ≡ names_above n a b }
{
    (a == NEW) & (n < b)
}

// Whether none of the bytes in a block from `at` on, signs or not, may name a class that is not known. The compiler takes them at once.
fn block_clear(s: &[u8], at: usize, n: u8) -> bool
    requires { at + 16 < length s.now }
    ensures { result ≡ none_above n s.now at 16 }
{
    let mut good = true;
    for k in 0..BLOCK {
        good = good & !names_above(s[at + k], s[at + k + 1], n);
    }
    good
}

// The same of all bytes from `at` on, one by one.
fn rest_clear(s: &[u8], at: usize, n: u8) -> bool
    requires { at < length s.now }
    ensures { result ≡ none_above n s.now at (length s.now - (at + 1)) }
{
    for p in at..s.len() - 1 {
        if names_above(s[p], s[p + 1], n) {
            return false;
        }
    }
    true
}

// The same, by blocks first.
fn none_above(s: &[u8], at: usize, n: u8) -> bool
    requires { at < length s.now }
    ensures { result ≡ none_above n s.now at (length s.now - (at + 1)) }
{
    let mut p: usize = at;
    // a block at a time: no range
    while p + BLOCK < s.len() {
        if !block_clear(s, p, n) {
            return false;
        }
        p += BLOCK;
    }
    rest_clear(s, p, n)
}

// Whether the sign b at `at` names no class that is not known: only a new object names one.
fn names_known(s: &[u8], at: usize, b: u8, n: u8) -> bool
    requires { at < length s.now }
    ensures { result ≡ names_known n b (drop (at + 1) s.now) }
{
    if b != NEW {
        return true;
    }
    let a = at + 1;
    if s.len() <= a {
        return true;
    }
    s[a] <= n
}

// Whether the expressions from `at` on name known classes only. Written one after another they are a row of signs (lineform's table).
fn scan_known(s: &[u8], at: usize, n: u8) -> bool
    requires { length s.now ≤ line_size }
    ensures { result ≡ scan n 0 (drop at s.now) }
{
    let mut a: usize = at;
    // by what each sign takes: no range
    while a < s.len() {
        let b = s[a];
        if !names_known(s, a, b, n) {
            return false;
        }
        let g = sign_row(b, 0);
        if g.size == 0 {
            return true;
        }
        a += g.size;
    }
    true
}

// The same, by a quick test first.
pub(crate) fn all_known(s: &[u8], at: usize, n: u8) -> bool
    requires { length s.now ≤ line_size }
    ensures { result ≡ scan n 0 (drop at s.now) }
{
    if s.len() <= at {
        return true;
    }
    if none_above(s, at, n) {
        return true;
    }
    scan_known(s, at, n)
}

// A method's line without its name and its expressions: owner known and not Object, types known, first result and parameters closed.
pub(crate) fn head_good(s: &[u8], n: u8) -> bool
    ensures { result ≡ head_good n s.now }
{
    if s.len() < 8 {
        return false;
    }
    if s[1] == 0 {
        return false;
    }
    if n < s[1] {
        return false;
    }
    if !class_known(s[3], n) {
        return false;
    }
    if !class_known(s[5], n) {
        return false;
    }
    if !closed(s[4]) {
        return false;
    }
    types_good(s, 8, s[7], n)
}
