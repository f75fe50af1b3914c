// Objects copied, with their codes turned. Not here: which table turns them.
ghost use Rattle.std.specs.Prelude.{◌≡◌, ◌+◌, ◌<◌, ◌≤◌, length};
ghost use Rattle.canon.specs.Figures.{head_size, numbers_at, first_leaf};
ghost use Rattle.canon.specs.Tables.{turned, copied, Turnable, Lifted};

use crate::layout::{FIRST_LEAF, HEAD, NUMBERS, OBJECT};

// A code turned: an object by the table, any other code itself.
pub(crate) fn turn(table: &[u8], b: u8) -> u8
    requires { b < first_leaf → b < length table.now }
    ensures { result ≡ turned table.now b }
{
    if b < FIRST_LEAF {
        return table[b as usize];
    }
    b
}

// Byte k of an object, turned if it is a code.
pub(crate) fn part_of(table: &[u8], k: usize, b: u8) -> u8
    requires { head_size ≤ k → k < numbers_at → b < first_leaf → b < length table.now }
    ensures { result ≡ copied table.now k b }
{
    if k < HEAD {
        return b;
    }
    if NUMBERS <= k {
        return b;
    }
    turn(table, b)
}

// p bytes of objects, from a place of `src` to a place of `dst`.
pub(crate) fn lift(src: &[u8], from: usize, p: usize, table: &[u8], dst: &mut [u8], to: usize)
    requires { Turnable src.now from p table.now × (to + p ≤ length dst.old) }
    ensures { Lifted src.now from p table.now dst.old to dst.new }
{
    for q in 0..p {
        dst[to + q] = part_of(table, q % OBJECT, src[from + q]);
    }
}
