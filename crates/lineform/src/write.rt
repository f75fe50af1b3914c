// A line's characters, written into a lent buffer: two upper-case digits a byte, and LF.
// Not here: which lines a table has, and what they say.
ghost use Rattle.std.specs.Prelude.{◌≡◌, [], ◌∷◌, ◌+◌, ◌*◌, ◌/◌, ◌%◌, ◌<◌, ◌≤◌, length};
ghost use Rattle.cofj.specs.Text.{char};
ghost use Rattle.lineform.specs.Writes.{wrote, put, hex_bytes, put_line};

use crate::lines::LF;

// A digit's character.
pub(crate) fn char_of(d: u8) -> u8
    requires { d < 16 }
    ensures { result ≡ char d }
{
    if d < 10 {
        return d + 48;
    }
    d + 55
}

// The digits of a byte, and the place after them.
pub fn put_byte(b: u8, out: &mut [u8], at: usize) -> usize
    requires { at + 2 ≤ length out.old }
    ensures { wrote result out.new ≡ put out.old at (hex_bytes (b ∷ [])) }
{
    out[at] = char_of(b / 16);
    out[at + 1] = char_of(b % 16);
    at + 2
}

// The digits of bytes, and the place after them.
fn put_bytes(s: &[u8], out: &mut [u8], at: usize) -> usize
    requires { at + 2 * length s.now ≤ length out.old }
    ensures { wrote result out.new ≡ put out.old at (hex_bytes s.now) }
{
    let mut w: usize = at;
    for &b in s {
        w = put_byte(b, out, w);
    }
    w
}

// The line of the byte `first` and the bytes of `rest`, and the place after it. Bytes elsewhere stay.
pub fn put_line(first: u8, rest: &[u8], out: &mut [u8], at: usize) -> usize
    requires { at + 2 * length rest.now + 3 ≤ length out.old }
    ensures { wrote result out.new ≡ put_line out.old at (first ∷ rest.now) }
{
    let a = put_byte(first, out, at);
    let b = put_bytes(rest, out, a);
    out[b] = LF;
    b + 1
}
