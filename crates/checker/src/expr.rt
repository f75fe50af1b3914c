// The type of an expression: it calls the walks over its parts, which call it back, while the nesting left falls.
// Not here: expressions of numbers (numbers), what a call or a new object asks of a type (fits), methods and main (program).
ghost use Rattle.std.specs.Prelude.{◌≡◌, true, false, ◌<◌};
ghost use Rattle.cofj.specs.Limits.{nesting_limit};
ghost use Rattle.cofj.specs.Typing.{closed_tag};
ghost use Rattle.classes.specs.Machine.{pick};
ghost use Rattle.classes.specs.Figures.{table_size};
ghost use Rattle.checker.specs.Items.{Fields};
ghost use Rattle.checker.specs.Machine.{type_in, var_by, parts_by, field_by, call_by, args_by, new_by, new_then, list_by};

use crate::fits::{arg_fits, receiver, result_type, value_fits};
use crate::numbers::by_sign;
use crate::scope::{Scope, Typed, found, param_var, res_type, this_type};
use classes::chain::{FieldType, field_total, field_type};
use classes::known::closed as closed_tag;
use classes::places::SIZE;
use classes::shape::byte_at;
use lineform::sign::{CALL, FIELD, NEW, PARAMETER, RES, THIS, is_variable, past_sign};

// How deep the parts of a body may be nested.
const PARTS_NESTING: usize = 5;

// The type of the expression at `at`, nested at most `left` deep.
#[cycle(typing)]
pub(crate) fn type_expr(t: &[u8; SIZE], scope: Scope, at: usize, left: usize) -> Option<Typed>
    ensures { result ≡ type_in t.now left scope at }
{
    if left == 0 {
        return None;
    }
    if SIZE <= at {
        return None;
    }
    let b = t[at];
    if is_variable(b) {
        return type_var(t, scope, b, at);
    }
    type_parts(t, scope, b, at, left - 1)
}

// The type of a body, or of main. It is type_expr for the whole nesting: with two callers the walk of the parts stays one function when compiled.
pub(crate) fn type_body(t: &[u8; SIZE], scope: Scope, at: usize) -> Option<Typed>
    ensures { result ≡ type_in t.now nesting_limit scope at }
{
    if SIZE <= at {
        return None;
    }
    let b = t[at];
    if is_variable(b) {
        return type_var(t, scope, b, at);
    }
    type_parts(t, scope, b, at, PARTS_NESTING)
}

// The variable at `at`, whose first byte is b.
#[tactic(auto, unfolding(crate::specs::Machine::var_by))]
pub(crate) fn type_var(t: &[u8; SIZE], scope: Scope, b: u8, at: usize) -> Option<Typed>
    requires { at < table_size }
    ensures { result ≡ var_by t.now scope b at }
{
    if b == THIS {
        return this_type(t, scope, past_sign(b, at));
    }
    if b == RES {
        return res_type(scope, past_sign(b, at));
    }
    if b == PARAMETER {
        let k = byte_at(t, at + 1);
        return param_var(t, scope, k, past_sign(b, at));
    }
    None
}

// The expression with parts at `at`, whose first byte is b. The parts are nested at most `left` deep.
#[cycle(typing)]
#[tactic(auto, unfolding(crate::specs::Machine::parts_by))]
pub(crate) fn type_parts(
    t: &[u8; SIZE],
    scope: Scope,
    b: u8,
    at: usize,
    left: usize,
) -> Option<Typed>
    requires { at < table_size }
    ensures { result ≡ parts_by t.now (type_in t.now left scope) scope.main b at }
{
    let k = byte_at(t, at + 1);
    if b == FIELD {
        return type_field(t, scope, k, past_sign(b, at), left);
    }
    let n = byte_at(t, at + 2);
    if b == CALL {
        return type_call(t, scope, k, n, past_sign(b, at), left);
    }
    if b == NEW {
        return type_new(t, scope, k, n, past_sign(b, at), left);
    }
    by_sign(t, scope, b, at, left)
}

// Field f of the expression at `at`.
#[cycle(typing)]
#[tactic(auto, unfolding(crate::specs::Machine::field_by))]
pub(crate) fn type_field(
    t: &[u8; SIZE],
    scope: Scope,
    f: u8,
    at: usize,
    left: usize,
) -> Option<Typed>
    ensures { result ≡ field_by t.now (type_in t.now left scope) f at }
{
    let o = type_expr(t, scope, at, left)?;
    if o.ty.tag != 0 {
        return None;
    }
    found(field_type(t, o.ty.class, f), o.next)
}

// Call of m with n arguments: the receiver at `at`, then the arguments.
#[cycle(typing)]
#[tactic(auto, unfolding(crate::specs::Machine::call_by))]
pub(crate) fn type_call(
    t: &[u8; SIZE],
    scope: Scope,
    m: u8,
    n: u8,
    at: usize,
    left: usize,
) -> Option<Typed>
    ensures { result ≡ call_by t.now (type_in t.now left scope) scope.main m n at }
{
    let o = type_expr(t, scope, at, left)?;
    let f = receiver(t, o.ty, m, n)?;
    type_args(t, scope, f.method, n, o.next, left)
}

// The n arguments of a call of method i: each has a closed tag and fits its parameter.
#[cycle(typing)]
#[tactic(auto, unfolding(crate::specs::Machine::args_by, crate::specs::Machine::list_by, crate::specs::Types::arg_fits))]
pub(crate) fn type_args(
    t: &[u8; SIZE],
    scope: Scope,
    i: u8,
    n: u8,
    at: usize,
    left: usize,
) -> Option<Typed>
    ensures { result ≡ args_by t.now (type_in t.now left scope) scope.main i n at }
{
    let mut a = at;
    for k in 0..n {
        let o = type_expr(t, scope, a, left)?;
        if !arg_fits(t, i, k, o.ty) {
            return None;
        }
        a = o.next;
    }
    let ty = result_type(t, scope.main, i);
    Some(Typed { ty, next: a })
}

// A new object of class c with n values.
#[cycle(typing)]
#[tactic(auto, unfolding(crate::specs::Machine::new_by))]
pub(crate) fn type_new(
    t: &[u8; SIZE],
    scope: Scope,
    c: u8,
    n: u8,
    at: usize,
    left: usize,
) -> Option<Typed>
    ensures { result ≡ new_by t.now (type_in t.now left scope) c n at }
{
    if field_total(t, c) != n {
        return None;
    }
    type_values(t, scope, c, n, at, left)
}

// Whether an object stays closed after a value with this tag.
fn stays_closed(closed: bool, tag: u8) -> bool
    ensures { result ≡ pick (closed_tag tag) closed false }
{
    closed && closed_tag(tag)
}

// The n values of a new object of class c: each fits its field, an open tag read as 0. The object is open if a value is.
#[cycle(typing)]
#[tactic(auto, unfolding(crate::specs::Machine::list_by))]
pub(crate) fn type_values(
    t: &[u8; SIZE],
    scope: Scope,
    c: u8,
    n: u8,
    at: usize,
    left: usize,
) -> Option<Typed>
    ensures { result ≡ new_then c (list_by t.now (type_in t.now left scope) (Fields c) 0 n true at) }
{
    let mut closed = true;
    let mut a = at;
    for k in 0..n {
        let o = type_expr(t, scope, a, left)?;
        if !value_fits(t, c, k, o.ty) {
            return None;
        }
        closed = stays_closed(closed, o.ty.tag);
        a = o.next;
    }
    let tag = if closed { 0 } else { 1 };
    let ty = FieldType { class: c, tag };
    Some(Typed { ty, next: a })
}
