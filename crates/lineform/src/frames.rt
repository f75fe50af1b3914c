// One line's frame: its kind, or that it has none (refusal 2). Of a method, the place of its right expression.
// Not here: the frames of a whole text (lines).
ghost use Rattle.std.specs.Prelude.{◌≡◌, drop};
ghost use Rattle.std.proofs.Math.Option.{none};
ghost use Rattle.cofj.specs.Frames.{frame, class_after, method_after, main_after, input_after};
ghost use Rattle.lineform.specs.Answers.{framed_of};

use crate::exprs::{FIELD_COUNT, LARGEST_TAG, PARAM_COUNT, types_end};
use crate::reader::{expr_at, first_byte};

// What a line is; of a method, where its right expression stands in the line.
#[derive(Clone, Copy)]
pub enum Kind {
    Class,
    Method(usize),
    Main,
}

pub(crate) fn frame_kind(s: &[u8]) -> Option<Kind>
    ensures { result ≡ framed_of (frame s.now) }
{
    match first_byte(s)? {
        1 => class_frame(s),
        2 => method_frame(s),
        3 => main_frame(s, 1),
        4 => input_frame(s),
        _ => None,
    }
}

// Number, parent, count of own fields, their types.
pub(crate) fn class_frame(s: &[u8]) -> Option<Kind>
    ensures { result ≡ framed_of (class_after (drop 1 s.now)) }
{
    if s.len() <= 3 {
        return None;
    }
    let n = s[3];
    if FIELD_COUNT < n {
        return None;
    }
    let e = types_end(s, 4, usize::from(n))?;
    if e < s.len() {
        return None;
    }
    Some(Kind::Class)
}

// Owner, name, both result types, count of parameters, their types, both expressions.
pub(crate) fn method_frame(s: &[u8]) -> Option<Kind>
    ensures { result ≡ framed_of (method_after (drop 1 s.now)) }
{
    if s.len() <= 7 {
        return None;
    }
    if LARGEST_TAG < s[4] {
        return None;
    }
    if LARGEST_TAG < s[6] {
        return None;
    }
    let n = s[7];
    if PARAM_COUNT < n {
        return None;
    }
    let a = types_end(s, 8, usize::from(n))?;
    let b = expr_at(s, a)?;
    let e = expr_at(s, b)?;
    if e < s.len() {
        return None;
    }
    Some(Kind::Method(b))
}

// Main's expression from `at` on, to the end of the line.
pub(crate) fn main_frame(s: &[u8], at: usize) -> Option<Kind>
    ensures { result ≡ framed_of (main_after none (drop at s.now)) }
{
    let e = expr_at(s, at)?;
    if e < s.len() {
        return None;
    }
    Some(Kind::Main)
}

// The type of main's parameter, then its expression.
pub(crate) fn input_frame(s: &[u8]) -> Option<Kind>
    ensures { result ≡ framed_of (input_after (drop 1 s.now)) }
{
    if s.len() <= 2 {
        return None;
    }
    if LARGEST_TAG < s[2] {
        return None;
    }
    main_frame(s, 3)
}
