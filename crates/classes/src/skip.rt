// The place after an expression in the table: a branch that is not taken is passed over by the table of signs.
// Not here: what the expression is (shape).
ghost use Rattle.std.specs.Prelude.{◌<◌};
ghost use Rattle.classes.specs.Figures.{table_size};
ghost use Rattle.classes.specs.Skipping.{SignIn, Skipped};

use crate::places::SIZE;
use crate::shape::byte_at;
use lineform::sign::{SignRow, sign_row};

// The row of the sign at a place.
fn row_at(t: &[u8; SIZE], at: usize) -> SignRow
    requires { at < table_size }
    ensures { SignIn t.now at result }
{
    let n = byte_at(t, at + 2);
    sign_row(t[at], n)
}

// The place after the expression at a place. Where a byte is no sign, or the table ends, it goes no further.
pub fn skip_expr(t: &[u8; SIZE], from: usize) -> usize
    ensures { Skipped t.now from result }
{
    let mut at: usize = from;
    let mut left: usize = 1;
    // by what each sign takes, until no expression is left: no range
    while 0 < left {
        if SIZE <= at {
            return at;
        }
        let g = row_at(t, at);
        if g.size == 0 {
            return at;
        }
        at += g.size;
        left = left - 1 + g.parts;
    }
    at
}
