// Methods and main: the check of a program. Refusals 6 and 7.
// Not here: the type of an expression (expr).
ghost use Rattle.std.specs.Prelude.{◌≡◌};
ghost use Rattle.checker.specs.Program.{results_fit, right_typed, method_in, methods_in, check_of};

use crate::expr::type_body;
use crate::fits::{close, fits};
use crate::scope::Scope;
use classes::chain::FieldType;
use classes::methods::{first, left_place, main_place, right_place, second};
use classes::places::{METHOD_COUNT_AT, SIZE};
use cofj::Refusal;

// The four conditions of method i: u is its left type, v its right one.
#[tactic(auto, unfolding(crate::specs::Program::results_fit, crate::specs::Program::fits_first, crate::specs::Program::fits_second))]
pub(crate) fn results_fit(t: &[u8; SIZE], i: u8, u: FieldType, v: FieldType) -> bool
    ensures { result ≡ results_fit t.now i u v }
{
    let d = first(t, i);
    let e = second(t, i);
    let closed = close(u);
    fits(t, closed, d) && fits(t, v, e) && fits(t, d, e) && fits(t, u, e)
}

// Whether method i has a type, given its left one, u: res has its class on the right side.
#[tactic(auto, unfolding(crate::specs::Program::right_typed))]
pub(crate) fn right_typed(t: &[u8; SIZE], i: u8, u: FieldType) -> bool
    ensures { result ≡ right_typed t.now i u }
{
    let scope = Scope {
        main: false,
        method: i,
        res: Some(u.class),
    };
    let Some(o) = type_body(t, scope, right_place(t, i)) else {
        return false;
    };
    results_fit(t, i, u, o.ty)
}

// Whether method i has a type.
#[tactic(auto, unfolding(crate::specs::Program::method_in))]
pub(crate) fn method_typed(t: &[u8; SIZE], i: u8) -> bool
    ensures { result ≡ method_in t.now i }
{
    let scope = Scope {
        main: false,
        method: i,
        res: None,
    };
    let Some(o) = type_body(t, scope, left_place(t, i)) else {
        return false;
    };
    right_typed(t, i, o.ty)
}

// Whether every method has a type.
pub(crate) fn methods_typed(t: &[u8; SIZE]) -> bool
    ensures { result ≡ methods_in t.now }
{
    let n = t[METHOD_COUNT_AT];
    for i in 0..n {
        if !method_typed(t, i) {
            return false;
        }
    }
    true
}

// The check of a program: main's type, or a refusal of 6, for a method without a type, or 7, for a main without one.
#[tactic(auto, unfolding(crate::specs::Program::check_of))]
pub fn check(t: &[u8; SIZE]) -> Result<FieldType, Refusal>
    ensures { result ≡ check_of t.now }
{
    if !methods_typed(t) {
        return Err(Refusal::UntypedMethod);
    }
    let scope = Scope {
        main: true,
        method: 0,
        res: None,
    };
    let Some(o) = type_body(t, scope, main_place(t)) else {
        return Err(Refusal::UntypedMain);
    };
    Ok(o.ty)
}
