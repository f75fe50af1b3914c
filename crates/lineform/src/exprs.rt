// Types and expressions in a line's bytes, passed over: where each ends, or that it is none.
// Not here: what they say, which the crates above read again from the same bytes.
ghost use Rattle.std.specs.Prelude.{◌≡◌, ◌≤◌, ◌<◌, ◌+◌, ◌-◌, length, drop};
ghost use Rattle.cofj.specs.Frames.{expr, exprs_by, types};
ghost use Rattle.lineform.specs.Signs.{sign_row};
ghost use Rattle.lineform.specs.Answers.{end_of, sign_of, sign_at, end_by};

use crate::sign::sign_row;

// Document 01's figures (cofj's Limits).
pub(crate) const FIELD_COUNT: u8 = 4;

pub(crate) const PARAM_COUNT: u8 = 3;

// The expressions in one: a new object's values, or a call's receiver and its arguments.
const PART_COUNT: usize = 4;

pub(crate) const NESTING_LIMIT: usize = 6;

pub(crate) const LARGEST_TAG: u8 = 3;

// An expression's sign and what belongs to it: the place after them, and how many expressions the expression has from there on.
#[derive(Clone, Copy)]
pub(crate) struct Sign {
    pub next: usize,
    pub parts: usize,
}

// The sign b at `at`, where n is the second byte after it, and what belongs to it stands in the line.
fn sign_of(s: &[u8], at: usize, b: u8, n: u8) -> Option<Sign>
    requires { at + (sign_row b n).size ≤ length s.now }
    ensures { result ≡ sign_of at (sign_row b n) }
{
    let g = sign_row(b, n);
    if g.size == 0 {
        return None;
    }
    if PART_COUNT < g.parts {
        return None;
    }
    Some(Sign {
        next: at + g.size,
        parts: g.parts,
    })
}

// How many places have two bytes after them.
fn whole_places(s: &[u8]) -> usize
    ensures { result ≡ length s.now - 2 }
{
    s.len().saturating_sub(2)
}

// The sign at `at`, which has at most one byte after it.
fn last_sign(s: &[u8], at: usize) -> Option<Sign>
    requires { length s.now - 2 ≤ at }
    ensures { result ≡ sign_at s.now at }
{
    if s.len() <= at {
        return None;
    }
    let b = s[at];
    let g = sign_row(b, 0);
    if s.len() - at < g.size {
        return None;
    }
    sign_of(s, at, b, 0)
}

// The sign at `at`.
pub(crate) fn sign_at(s: &[u8], at: usize) -> Option<Sign>
    ensures { result ≡ sign_at s.now at }
{
    if whole_places(s) <= at {
        return last_sign(s, at);
    }
    sign_of(s, at, s[at], s[at + 2])
}

// The place after the expression whose sign tells `next` and `parts`, nested at most `left` deep.
#[cycle(read_expr_read_list)]
pub(crate) fn read_expr(s: &[u8], next: usize, parts: usize, left: usize) -> Option<usize>
    requires { 1 ≤ left }
    ensures { result ≡ end_by s.now left next parts }
{
    if parts == 0 {
        return Some(next);
    }
    read_list(s, next, parts, left - 1)
}

// The place after n expressions, one after the other.
#[cycle(read_expr_read_list)]
pub(crate) fn read_list(s: &[u8], at: usize, n: usize, left: usize) -> Option<usize>
    requires { 1 ≤ n }
    ensures { result ≡ end_of s.now (exprs_by (expr left) n (drop at s.now)) }
{
    if left == 0 {
        return None;
    }
    let mut a: usize = at;
    for _ in 0..n {
        let g = sign_at(s, a)?;
        if g.parts == 0 {
            a = g.next;
            continue;
        }
        a = read_expr(s, g.next, g.parts, left)?;
    }
    Some(a)
}

// n types, one after the other.
pub(crate) fn types_end(s: &[u8], at: usize, n: usize) -> Option<usize>
    requires { at ≤ length s.now }
    ensures { result ≡ end_of s.now (types n (drop at s.now)) }
{
    if n == 0 {
        return Some(at);
    }
    if s.len() <= at {
        return None;
    }
    let a1 = at + 1;
    if s.len() <= a1 {
        return None;
    }
    if LARGEST_TAG < s[a1] {
        return None;
    }
    types_end(s, a1 + 1, n - 1)
}
