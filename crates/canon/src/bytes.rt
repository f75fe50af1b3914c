// Runs of bytes compared and copied, and tables filled. Not here: what the bytes stand for.
ghost use Rattle.std.specs.Prelude.{◌≡◌, ◌+◌, ◌<◌, ◌≤◌, length};
ghost use Rattle.cofj.specs.Values.{eq_nats};
ghost use Rattle.canon.specs.Figures.{object_size};
ghost use Rattle.canon.specs.Layout.{part};
ghost use Rattle.canon.specs.Tables.{Filled, Two, Four, Eight, PlainTest, Carried};

use crate::layout::NUMBERS;

// Four bytes as one number, eight, and two: the machine reads them at once.
pub fn four_at(a: &[u8], p: usize) -> u32
    requires { p + 4 ≤ length a.now }
    ensures { Four a.now p result }
{
    u32::from_le_bytes([a[p], a[p + 1], a[p + 2], a[p + 3]])
}

pub fn eight_at(a: &[u8], p: usize) -> u64
    requires { p + 8 ≤ length a.now }
    ensures { Eight a.now p result }
{
    u64::from_le_bytes([
        a[p],
        a[p + 1],
        a[p + 2],
        a[p + 3],
        a[p + 4],
        a[p + 5],
        a[p + 6],
        a[p + 7],
    ])
}

pub fn two_at(a: &[u8], p: usize) -> u16
    requires { p + 2 ≤ length a.now }
    ensures { Two a.now p result }
{
    u16::from_le_bytes([a[p], a[p + 1]])
}

// Whether the bytes of two objects are the same.
pub(crate) fn same_object(a: &[u8], i: usize, b: &[u8], j: usize) -> bool
    requires { (i + object_size ≤ length a.now) × (j + object_size ≤ length b.now) }
    ensures { result ≡ eq_nats (part a.now i object_size) (part b.now j object_size) }
{
    if eight_at(a, i) != eight_at(b, j) {
        return false;
    }
    eight_at(a, i + 8) == eight_at(b, j + 8)
}

// The same for those of them that are no codes.
pub fn same_plain(a: &[u8], i: usize, j: usize) -> bool
    requires { (i + object_size ≤ length a.now) × (j + object_size ≤ length a.now) }
    ensures { PlainTest a.now i j result }
{
    if two_at(a, i) != two_at(a, j) {
        return false;
    }
    if two_at(a, i + NUMBERS) != two_at(a, j + NUMBERS) {
        return false;
    }
    eight_at(a, i + 8) == eight_at(a, j + 8)
}

// n bytes of `from`, from place i on, to place j of `to`. By a loop: with `copy_from_slice` the archive for C needs `memmove` from outside too.
pub fn copy(from: &[u8], i: usize, to: &mut [u8], j: usize, n: usize)
    requires { (i + n ≤ length from.now) × (j + n ≤ length to.old) }
    ensures { Carried from.now i to.old j n to.new }
{
    for k in 0..n {
        to[j + k] = from[i + k];
    }
}

// 0, 1, .., n of them.
pub fn count_up(n: u8, to: &mut [u8])
    requires { n ≤ length to.old }
    ensures { Filled (λ i. i) n to.new }
{
    for i in 0..n {
        to[i as usize] = i;
    }
}
