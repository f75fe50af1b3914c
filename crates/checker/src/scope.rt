// What an expression has, and its variables: in main parameter 0, if main takes an input; in a body this, the parameters and, on the right side, res.
// Not here: the types of other expressions (expr).
ghost use Rattle.std.specs.Prelude.{◌≡◌};
ghost use Rattle.checker.specs.Types.{found_at, this_of, res_of, input_var, param_var};

use classes::chain::FieldType;
use classes::methods::{input_type, owner, param_type};
use classes::places::SIZE;

// What an expression has: a type, and the place after it.
#[derive(Clone, Copy)]
pub(crate) struct Typed {
    pub ty: FieldType,
    pub next: usize,
}

// Where an expression stands: in main, or in a body of a method. On the right side res has the class of the left type.
#[derive(Clone, Copy)]
pub(crate) struct Scope {
    pub main: bool,
    pub method: u8,
    pub res: Option<u8>,
}

// A type that was found or not, with the place after.
pub(crate) fn found(w: Option<FieldType>, next: usize) -> Option<Typed>
    ensures { result ≡ found_at w next }
{
    let ty = w?;
    Some(Typed { ty, next })
}

// The type of this: owner+.
pub(crate) fn this_type(t: &[u8; SIZE], scope: Scope, next: usize) -> Option<Typed>
    ensures { result ≡ this_of t.now scope next }
{
    if scope.main {
        return None;
    }
    let class = owner(t, scope.method);
    let ty = FieldType { class, tag: 0 };
    Some(Typed { ty, next })
}

// The type of res: the class of the left type with tag 2.
pub(crate) fn res_type(scope: Scope, next: usize) -> Option<Typed>
    ensures { result ≡ res_of scope next }
{
    let class = scope.res?;
    let ty = FieldType { class, tag: 2 };
    Some(Typed { ty, next })
}

// The type of parameter k in main: parameter 0 has the input's.
fn input_var(t: &[u8; SIZE], k: u8, next: usize) -> Option<Typed>
    ensures { result ≡ input_var t.now k next }
{
    if k != 0 {
        return None;
    }
    found(input_type(t), next)
}

// The type of parameter k.
pub(crate) fn param_var(t: &[u8; SIZE], scope: Scope, k: u8, next: usize) -> Option<Typed>
    ensures { result ≡ param_var t.now scope k next }
{
    if scope.main {
        return input_var(t, k, next);
    }
    found(param_type(t, scope.method, k), next)
}
