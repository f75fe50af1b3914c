// What stands at a place of an expression in prefix form. Not here: its type.
ghost use Rattle.std.specs.Prelude.{◌≡◌, ◌<◌};
ghost use Rattle.classes.specs.Figures.{table_size};
ghost use Rattle.classes.specs.Shapes.{byte_in, shape_of, shape_at, is_field};

use crate::places::SIZE;
use lineform::sign::{
    CALL, CHOOSE, DIFFERENCE, FIELD, NEW, NUMBER, PARAMETER, RES, SUM, THIS, past_sign,
};

// What is done with two numbers.
#[derive(Clone, Copy)]
pub enum Operation {
    Sum,
    Difference,
}

// An expression's first bytes, and the place after them. A number's two stand as they are: put together here, they would be too much for the compiler to take
// this into the evaluator.
#[derive(Clone, Copy)]
pub enum Shape {
    This { next: usize },
    Result { next: usize },
    Parameter { k: u8, next: usize },
    Field { f: u8, next: usize },
    Call { m: u8, n: u8, next: usize },
    New { c: u8, n: u8, next: usize },
    Number { k: u8, n: u8, next: usize },
    Combine { o: Operation, next: usize },
    Choose { next: usize },
    Nothing,
}

// The byte at a place, 0 past the end.
pub fn byte_at(t: &[u8; SIZE], at: usize) -> u8
    ensures { result ≡ byte_in t.now at }
{
    t.get(at).copied().unwrap_or(0)
}

// What an expression at `at` is whose first three bytes are b, k and n.
pub(crate) fn shape_of(b: u8, k: u8, n: u8, at: usize) -> Shape
    requires { at < table_size }
    ensures { result ≡ shape_of b k n at }
{
    match b {
        THIS => Shape::This {
            next: past_sign(b, at),
        },
        RES => Shape::Result {
            next: past_sign(b, at),
        },
        PARAMETER => Shape::Parameter {
            k,
            next: past_sign(b, at),
        },
        FIELD => Shape::Field {
            f: k,
            next: past_sign(b, at),
        },
        CALL => Shape::Call {
            m: k,
            n,
            next: past_sign(b, at),
        },
        NEW => Shape::New {
            c: k,
            n,
            next: past_sign(b, at),
        },
        NUMBER => Shape::Number {
            k,
            n,
            next: past_sign(b, at),
        },
        SUM => Shape::Combine {
            o: Operation::Sum,
            next: past_sign(b, at),
        },
        DIFFERENCE => Shape::Combine {
            o: Operation::Difference,
            next: past_sign(b, at),
        },
        CHOOSE => Shape::Choose {
            next: past_sign(b, at),
        },
        _ => Shape::Nothing,
    }
}

// What stands at a place. Nearly all places have two more after them.
pub fn shape_at(t: &[u8; SIZE], at: usize) -> Shape
    ensures { result ≡ shape_at t.now at }
{
    if at < SIZE - 2 {
        return shape_of(t[at], t[at + 1], t[at + 2], at);
    }
    if SIZE <= at {
        return Shape::Nothing;
    }
    shape_of(t[at], byte_at(t, at + 1), byte_at(t, at + 2), at)
}

// Whether a field is selected at a place that has two more after it.
pub fn is_field(t: &[u8; SIZE], at: usize) -> bool
    ensures { result ≡ is_field t.now at }
{
    at < SIZE - 2 && t[at] == FIELD
}
