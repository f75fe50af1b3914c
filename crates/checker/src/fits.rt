// Type fit, tags, and what a call or a list asks of a type. Not here: class fit and lookup (classes).
ghost use Rattle.std.specs.Prelude.{◌≡◌, leb};
ghost use Rattle.checker.specs.Items.{Fields};
ghost use Rattle.checker.specs.Types.{fits_type, is_number, wider_of, narrow_type, close_type, fits_found, item_fits, arg_fits, receiver_of, result_of};

use classes::chain::{FieldType, field_type, fit};
use classes::known::closed as closed_tag;
use classes::methods::{Found, first, method_with, param_type, second};
use classes::places::{NUMBER_CLASS, SIZE};

// Whether tag g is not larger than tag h.
pub(crate) fn tag_fits(g: u8, h: u8) -> bool
    ensures { result ≡ leb g h }
{
    g <= h
}

// Whether type u fits d: its class fits, and its tag is not larger.
pub(crate) fn fits(t: &[u8; SIZE], u: FieldType, d: FieldType) -> bool
    ensures { result ≡ fits_type t.now u d }
{
    tag_fits(u.tag, d.tag) && fit(t, u.class, d.class)
}

// Whether a type is that of a number, of tag 0.
#[tactic(auto, unfolding(crate::specs::Types::is_number))]
pub(crate) fn is_number(u: FieldType) -> bool
    ensures { result ≡ is_number u }
{
    u.class == NUMBER_CLASS && u.tag == 0
}

// The wider of two types, where one fits the other.
#[tactic(auto, unfolding(crate::specs::Types::wider_of))]
pub(crate) fn wider(t: &[u8; SIZE], u: FieldType, v: FieldType) -> Option<FieldType>
    ensures { result ≡ wider_of t.now u v }
{
    if fits(t, u, v) {
        return Some(v);
    }
    if fits(t, v, u) {
        return Some(u);
    }
    None
}

// A type with an open tag read as 0, for an item of a list.
pub(crate) fn narrow(u: FieldType) -> FieldType
    ensures { result ≡ narrow_type u }
{
    if closed_tag(u.tag) {
        return u;
    }
    FieldType {
        class: u.class,
        tag: 0,
    }
}

// A type with tag 1 read as 0 and 2 as 3.
pub(crate) fn close(u: FieldType) -> FieldType
    ensures { result ≡ close_type u }
{
    let tag = match u.tag {
        1 => 0,
        2 => 3,
        g => g,
    };
    FieldType {
        class: u.class,
        tag,
    }
}

// Whether a type, an open tag read as 0, fits the type w of an item, where there is one.
fn item_fits(t: &[u8; SIZE], w: Option<FieldType>, u: FieldType) -> bool
    ensures { result ≡ fits_found t.now (narrow_type u) w }
{
    let Some(d) = w else {
        return false;
    };
    fits(t, narrow(u), d)
}

// Whether a value's type fits field k of class c.
#[tactic(auto, unfolding(crate::specs::Types::item_fits))]
pub(crate) fn value_fits(t: &[u8; SIZE], c: u8, k: u8, u: FieldType) -> bool
    ensures { result ≡ item_fits t.now (Fields c) k u }
{
    item_fits(t, field_type(t, c, k), u)
}

// Whether an argument's type is closed and fits parameter k of method i.
#[tactic(auto, unfolding(crate::specs::Types::arg_fits, crate::specs::Types::item_fits))]
pub(crate) fn arg_fits(t: &[u8; SIZE], i: u8, k: u8, u: FieldType) -> bool
    ensures { result ≡ arg_fits t.now i k u }
{
    closed_tag(u.tag) && item_fits(t, param_type(t, i, k), u)
}

// The method m with n parameters that a receiver of type u has.
#[tactic(auto, unfolding(crate::specs::Types::receiver_of))]
pub(crate) fn receiver(t: &[u8; SIZE], u: FieldType, m: u8, n: u8) -> Option<Found>
    ensures { result ≡ receiver_of t.now u m n }
{
    if u.tag != 0 {
        return None;
    }
    method_with(t, u.class, m, n)
}

// The type of a call of method i: the first result type in main, the second in a body.
pub(crate) fn result_type(t: &[u8; SIZE], main: bool, i: u8) -> FieldType
    ensures { result ≡ result_of t.now main i }
{
    if main {
        return first(t, i);
    }
    second(t, i)
}
