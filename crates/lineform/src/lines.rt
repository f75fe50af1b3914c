// A text's lines, packed: each as its count of bytes and its bytes. Decoded (refusal 1), all framed (2), in order (3).
// Not here: what a line says (frames).
ghost use Rattle.std.specs.Prelude.{◌≡◌, ◌<◌, ◌≤◌, ◌+◌, ◌-◌, ◌/◌, length};
ghost use Rattle.cofj.specs.Limits.{method_count};
ghost use Rattle.cofj.specs.Frames.{frames};
ghost use Rattle.lineform.specs.Packed.{unpack, Packed, FramedLines};
ghost use Rattle.lineform.specs.Answers.{Roomy, Ahead, Puts, Decodable, Decodes, ends_line, noted, put_right, SmallKind, note_right, Framing, order_of};

use crate::blocks::put_blocks;
use crate::frames::{Kind, frame_kind};
use crate::hex::Digits;
use cofj::Refusal;

// Document 01's figures (cofj's Limits).
const TEXT_SIZE: usize = 49567;

const LINE_SIZE: usize = 255;

const CLASS_COUNT: usize = 32;

const METHOD_COUNT: usize = 64;

// how many right expressions are noted: one for each method that a text may have
pub const RIGHTS: usize = METHOD_COUNT;

pub(crate) const LF: u8 = 10;

// what no sum of three bytes reaches (digits)
const NO_BYTE: u16 = 768;

// How many classes and methods a text has.
#[derive(Clone, Copy)]
pub struct Counts {
    pub classes: u8,
    pub methods: u8,
}

// Writes the lines of `text` to the front of `out`; the bytes after them stay.
pub fn decode(text: &[u8], out: &mut [u8]) -> Result<usize, Refusal>
    requires { Roomy text.now out.old }
    ensures { Decodes text.now out.old out.new result }
{
    if text.is_empty() {
        return Err(Refusal::NoLineForm);
    }
    if TEXT_SIZE < text.len() {
        return Err(Refusal::NoLineForm);
    }
    let t = Digits::all();
    decode_lines(text, &t, out)
}

// Whether the character c ends a line of n bytes.
fn ends_line(c: u8, n: usize) -> bool
    ensures { result ≡ ends_line c n }
{
    c == LF && (1..=LINE_SIZE).contains(&n)
}

// Writes the bytes of the digits from `from` on to `to` and further, three at a time, until there are no three. The place after them.
fn put_threes(text: &[u8], t: &Digits, from: usize, out: &mut [u8], to: usize) -> usize
    requires { Ahead text.now out.old from to }
    ensures { Puts text.now out.old out.new from to result (to + (result - from) / 2) }
{
    let n = text.len();
    let mut i: usize = from;
    let mut o: usize = to;
    // six characters at a time, up to three that are not all digits: no range
    while i + 6 < n {
        let x = t.pair(text[i], text[i + 1]);
        let y = t.pair(text[i + 2], text[i + 3]);
        let z = t.pair(text[i + 4], text[i + 5]);
        if NO_BYTE <= x + y + z {
            return i;
        }
        out[o] = x as u8;
        out[o + 1] = y as u8;
        out[o + 2] = z as u8;
        i += 6;
        o += 3;
    }
    i
}

// Writes the bytes of the digits from `from` on to `to` and further, as long as many digits follow. The place after them.
fn put_ahead(text: &[u8], t: &Digits, from: usize, out: &mut [u8], to: usize) -> usize
    requires { Ahead text.now out.old from to }
    ensures { Puts text.now out.old out.new from to result (to + (result - from) / 2) }
{
    let c = put_blocks(text, from, out, to);
    let q = to + (c - from) / 2;
    put_threes(text, t, c, out, q)
}

// The same of a text of a fit length. At `w` the line begins whose next byte goes to `o`.
fn decode_lines(text: &[u8], t: &Digits, out: &mut [u8]) -> Result<usize, Refusal>
    requires { Decodable text.now out.old }
    ensures { Decodes text.now out.old out.new result }
{
    let last = text.len() - 1;
    let mut i: usize = 0;
    let mut w: usize = 0;
    let mut o: usize = 1;
    // by what is read: no range
    while i < last {
        let c = text[i];
        let x = t.pair(c, text[i + 1]);
        if x < 256 {
            out[o] = x as u8;
            o += 1;
            i += 2;
            continue;
        }
        let n = o - w - 1;
        if !ends_line(c, n) {
            return Err(Refusal::NoLineForm);
        }
        out[w] = n as u8;
        w = o;
        let a = i + 1;
        let b = o + 1;
        i = put_ahead(text, t, a, out, b);
        o = b + (i - a) / 2;
    }
    if last < i {
        return Err(Refusal::NoLineForm);
    }
    let n = o - w - 1;
    if !ends_line(text[i], n) {
        return Err(Refusal::NoLineForm);
    }
    out[w] = n as u8;
    Ok(o)
}

// Notes that the right expression of method m stands at b of its line, if there is room. How many are noted then.
fn put_right(b: usize, rights: &mut [u8; RIGHTS], m: usize) -> usize
    requires { b < 256 }
    ensures { noted result rights.new ≡ put_right b m rights.old }
{
    if RIGHTS <= m {
        return m;
    }
    rights[m] = b as u8;
    m + 1
}

// Notes the right expression of a line whose kind is k, if that is a method's. How many are noted then.
fn note_right(k: Kind, rights: &mut [u8; RIGHTS], m: usize) -> usize
    requires { SmallKind k }
    ensures { noted result rights.new ≡ note_right k m rights.old }
{
    match k {
        Kind::Method(b) => put_right(b, rights, m),
        Kind::Class => m,
        Kind::Main => m,
    }
}

// Whether every line has a frame. Notes where the right expression of each method stands in its line.
pub fn frames_good(d: &[u8], rights: &mut [u8; RIGHTS]) -> Result<(), Refusal>
    requires { Packed d.now × (length rights.old ≡ method_count) }
    ensures { Framing d.now result rights.new }
{
    let mut i: usize = 0;
    let mut m: usize = 0;
    // by what each line takes: no range
    while i < d.len() {
        let a = i + 1;
        let e = a + usize::from(d[i]);
        let k = frame_kind(&d[a..e]).ok_or(Refusal::BadFrame)?;
        m = note_right(k, rights, m);
        i = e;
    }
    Ok(())
}

// Whether classes come first, then methods, then one main, and how many: c classes and m methods so far.
pub fn order(d: &[u8]) -> Result<Counts, Refusal>
    requires { FramedLines d.now }
    ensures { result ≡ order_of (frames (unpack d.now)) }
{
    let mut i: usize = 0;
    let mut c: usize = 0;
    let mut m: usize = 0;
    // by what each line takes: no range
    while i < d.len() {
        let a = i + 1;
        let k = d[a];
        let e = a + usize::from(d[i]);
        if k == 1 {
            if 0 < m {
                return Err(Refusal::BadOrder);
            }
            c += 1;
            i = e;
            continue;
        }
        if k == 2 {
            m += 1;
            i = e;
            continue;
        }
        if e < d.len() {
            return Err(Refusal::BadOrder);
        }
        if CLASS_COUNT < c {
            return Err(Refusal::BadOrder);
        }
        if METHOD_COUNT < m {
            return Err(Refusal::BadOrder);
        }
        return Ok(Counts {
            classes: c as u8,
            methods: m as u8,
        });
    }
    Err(Refusal::BadOrder)
}
