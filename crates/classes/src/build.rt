// A text's packed lines into a table, in their order: the class lines, the method lines, the line of main. Each line is its count of
// bytes and its bytes. Not here: what one line writes (place), overriding (overrides).
ghost use Rattle.std.specs.Prelude.{◌≡◌, ◌≤◌, get_or, set};
ghost use Rattle.cofj.specs.Limits.{class_count, method_count};
ghost use Rattle.classes.specs.Figures.{class_count_at, method_count_at};
ghost use Rattle.classes.specs.Placing.{placed, class_placed, method_placed};
ghost use Rattle.classes.specs.Building.{walked, line_end, lines_placed, last_placed, rest_placed};
ghost use Rattle.classes.specs.Made.{Built};

use crate::place::{place_class, place_main, place_method};
use crate::places::{CLASS_COUNT_AT, METHOD_COUNT_AT, SIZE};
use cofj::Refusal;
use lineform::lines::RIGHTS;

// Where the line at a place ends, if it is whole.
fn line_end(s: &[u8], at: usize) -> Option<usize>
    ensures { result ≡ line_end s.now at }
{
    if s.len() <= at {
        return None;
    }
    let w = usize::from(s[at]);
    if s.len() - (at + 1) < w {
        return None;
    }
    Some(at + 1 + w)
}

// The first n lines, as classes 1 to n. Where the next line begins.
pub(crate) fn place_classes(s: &[u8], n: u8, t: &mut [u8; SIZE]) -> Option<usize>
    requires { n ≤ class_count }
    ensures { walked result t.new ≡ lines_placed (λ l k B. class_placed l k n B) s.now n 0 1 t.old }
{
    let mut at: usize = 0;
    for k in 0..n {
        let e = line_end(s, at)?;
        if !place_class(&s[at + 1..e], k + 1, n, t) {
            return None;
        }
        at = e;
    }
    Some(at)
}

// The m lines from `from` on, as methods 0 to m - 1; `rights` says where their right expressions stand. Where the next line begins.
pub(crate) fn place_methods(
    s: &[u8],
    rights: &[u8; RIGHTS],
    from: usize,
    n: u8,
    m: u8,
    t: &mut [u8; SIZE],
) -> Option<usize>
    requires { m ≤ method_count }
    ensures { walked result t.new ≡ lines_placed (λ l i B. method_placed l i (get_or rights.now i 0) n B) s.now m from 0 t.old }
{
    let mut at: usize = from;
    for i in 0..m {
        let e = line_end(s, at)?;
        if !place_method(&s[at + 1..e], i, rights, n, t) {
            return None;
        }
        at = e;
    }
    Some(at)
}

// The line at `at`, as main.
pub(crate) fn place_last(s: &[u8], at: usize, n: u8, t: &mut [u8; SIZE]) -> bool
    ensures { placed result t.new ≡ last_placed s.now at n t.old }
{
    let end = line_end(s, at);
    let Some(e) = end else {
        return false;
    };
    place_main(&s[at + 1..e], n, t)
}

// Writes how many classes and methods there are.
pub(crate) fn put_counts(n: u8, m: u8, t: &mut [u8; SIZE])
    ensures { t.new ≡ set (set t.old class_count_at n) method_count_at m }
{
    t[CLASS_COUNT_AT] = n;
    t[METHOD_COUNT_AT] = m;
}

// The lines from `at` on, as m methods and main; then the counts.
pub(crate) fn place_rest(
    s: &[u8],
    rights: &[u8; RIGHTS],
    at: usize,
    n: u8,
    m: u8,
    t: &mut [u8; SIZE],
) -> bool
    requires { m ≤ method_count }
    ensures { placed result t.new ≡ rest_placed s.now rights.now n m at t.old }
{
    let d = place_methods(s, rights, at, n, m, t);
    let Some(b) = d else {
        return false;
    };
    if !place_last(s, b, n, t) {
        return false;
    }
    put_counts(n, m, t);
    true
}

// All lines of a text with n classes and m methods. The table's bytes are zero before.
pub fn place_table(
    s: &[u8],
    rights: &[u8; RIGHTS],
    n: u8,
    m: u8,
    t: &mut [u8; SIZE],
) -> Result<(), Refusal>
    requires { (n ≤ class_count) × (m ≤ method_count) }
    ensures { Built s.now rights.now n m t.old result t.new }
{
    let c = place_classes(s, n, t);
    let Some(a) = c else {
        return Err(Refusal::BadTable);
    };
    if !place_rest(s, rights, a, n, m, t) {
        return Err(Refusal::BadTable);
    }
    Ok(())
}
