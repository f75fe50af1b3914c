// The type of an expression of numbers: a literal, a sum, a difference or a choice. Its parts are expressions (expr), nested less deep.
ghost use Rattle.std.specs.Prelude.{◌≡◌, ◌<◌};
ghost use Rattle.classes.specs.Figures.{table_size};
ghost use Rattle.checker.specs.Machine.{type_in, numbers_by, operand_by, combine_by, choose_by, branches_by};

use crate::expr::type_expr;
use crate::fits::{is_number, wider};
use crate::scope::{Scope, Typed, found};
use classes::chain::FieldType;
use classes::places::{NUMBER_CLASS, SIZE};
use lineform::sign::{CHOOSE, DIFFERENCE, NUMBER, SUM, past_sign};

// The type of a number.
const NUMBER_TYPE: FieldType = FieldType {
    class: NUMBER_CLASS,
    tag: 0,
};

// The expression of numbers at `at`, whose first byte is b.
#[cycle(typing)]
#[tactic(auto, unfolding(crate::specs::Machine::numbers_by))]
pub(crate) fn by_sign(t: &[u8; SIZE], scope: Scope, b: u8, at: usize, left: usize) -> Option<Typed>
    requires { at < table_size }
    ensures { result ≡ numbers_by t.now (type_in t.now left scope) b at }
{
    if b == NUMBER {
        return Some(Typed {
            ty: NUMBER_TYPE,
            next: past_sign(b, at),
        });
    }
    if b == SUM {
        return combine(t, scope, past_sign(b, at), left);
    }
    if b == DIFFERENCE {
        return combine(t, scope, past_sign(b, at), left);
    }
    if b == CHOOSE {
        return choose(t, scope, past_sign(b, at), left);
    }
    None
}

// The operand at `at`: a number, of tag 0.
#[cycle(typing)]
#[tactic(auto, unfolding(crate::specs::Machine::operand_by))]
pub(crate) fn operand(t: &[u8; SIZE], scope: Scope, at: usize, left: usize) -> Option<Typed>
    ensures { result ≡ operand_by (type_in t.now left scope) at }
{
    let o = type_expr(t, scope, at, left)?;
    if !is_number(o.ty) {
        return None;
    }
    Some(Typed {
        ty: NUMBER_TYPE,
        next: o.next,
    })
}

// The two operands of a sum or a difference.
#[cycle(typing)]
#[tactic(auto, unfolding(crate::specs::Machine::combine_by))]
pub(crate) fn combine(t: &[u8; SIZE], scope: Scope, at: usize, left: usize) -> Option<Typed>
    ensures { result ≡ combine_by (type_in t.now left scope) at }
{
    let o = operand(t, scope, at, left)?;
    operand(t, scope, o.next, left)
}

// A choice: what is asked at `at`, then the branches.
#[cycle(typing)]
#[tactic(auto, unfolding(crate::specs::Machine::choose_by))]
pub(crate) fn choose(t: &[u8; SIZE], scope: Scope, at: usize, left: usize) -> Option<Typed>
    ensures { result ≡ choose_by t.now (type_in t.now left scope) at }
{
    let o = operand(t, scope, at, left)?;
    branches(t, scope, o.next, left)
}

// Two branches: their types fit one way, and the wider is the type.
#[cycle(typing)]
#[tactic(auto, unfolding(crate::specs::Machine::branches_by))]
pub(crate) fn branches(t: &[u8; SIZE], scope: Scope, at: usize, left: usize) -> Option<Typed>
    ensures { result ≡ branches_by t.now (type_in t.now left scope) at }
{
    let o = type_expr(t, scope, at, left)?;
    let q = type_expr(t, scope, o.next, left)?;
    found(wider(t, o.ty, q.ty), q.next)
}
