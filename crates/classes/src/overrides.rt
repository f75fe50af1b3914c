// A method has the types of the method of its name above its class (refusal 5).
// Not here: the other rules of a class table (place).
ghost use Rattle.std.specs.Prelude.{◌≡◌, ◌≤◌, ◌+◌};
ghost use Rattle.classes.specs.Figures.{table_size};
ghost use Rattle.classes.specs.Overriding.{same_from, same_as, same_above};
ghost use Rattle.classes.specs.Made.{Overrides};

use crate::chain::parent;
use crate::methods::{lookup, method_row, name, owner};
use crate::places::{METHOD_COUNT_AT, SIZE};
use cofj::Refusal;

// Whether methods i and j have the same types: both results, the number of parameters and theirs, in one row of bytes.
pub(crate) fn same_types(t: &[u8; SIZE], i: u8, j: u8) -> bool
    ensures { result ≡ same_as t.now i j }
{
    let a = method_row(i) + 3;
    let b = method_row(j) + 3;
    let k = 5 + 2 * (usize::from(t[a + 4]) % 4);
    t[a..a + k] == t[b..b + k]
}

// Whether method i has the types of the method of its name above its class, where there is one.
pub(crate) fn same_above(t: &[u8; SIZE], i: u8) -> bool
    ensures { result ≡ same_above t.now i }
{
    let p = parent(t, owner(t, i));
    let above = lookup(t, p, name(t, i));
    let Some(f) = above else {
        return true;
    };
    same_types(t, i, f.method)
}

// Refused with 5 where a method has other types than that of its name above it.
pub fn overrides(t: &[u8; SIZE]) -> Result<(), Refusal>
    ensures { Overrides t.now result }
{
    for i in 0..t[METHOD_COUNT_AT] {
        if !same_above(t, i) {
            return Err(Refusal::BadOverride);
        }
    }
    Ok(())
}
