// Writing: the text of a table's bytes. A candidate text is taken from the bytes and read again: refusal 8 where it does not read into them.
// Not here: what one line is in characters (lineform), what reading asks of a text (read).
ghost use Rattle.std.specs.Prelude.{◌≡◌, ◌+◌, ◌*◌, ◌≤◌, length};
ghost use Rattle.cofj.specs.Limits.{class_count, method_count};
ghost use Rattle.lineform.specs.Writes.{wrote, put_line, put_text};
ghost use Rattle.tables.specs.Writings.{room_size, line_text, After, class_in, classes_in, methods_in, main_first, main_in, lines_in, readable, written_by, wrote_table, writing_of};

use crate::read::read_into;
use classes::ClassTable;
use classes::places::{
    CLASS_COUNT_AT, CLASSES, FIELDS, LAST, LONG, MAIN, METHOD_COUNT_AT, METHODS, ROW, SIZE,
};
use cofj::{Refusal, Written};
use lineform::write::put_line;

// how many methods there are at most
const MOST_METHODS: u8 = 64;

// the longest candidate: 32 class lines of 25 characters, 65 lines of 511
const ROOM: usize = 34015;

// the longest text: a shorter buffer is refused
const TEXT: usize = 49567;

// How many bytes follow the first in a line of x bytes.
fn after_first(x: u8) -> usize
    ensures { After x result }
{
    usize::from(x.saturating_sub(1))
}

// The line of class k, and the place after it.
fn class_line(t: &[u8; SIZE], k: u8, out: &mut [u8], at: usize) -> usize
    requires { (k ≤ class_count) × (at + 25 ≤ length out.old) }
    ensures { wrote result out.new ≡ put_line out.old at (class_in t.now k) }
{
    let b = ROW * (k as usize);
    let own = t[b + 2].min(FIELDS);
    let l = [
        k,
        t[b],
        t[b + 2],
        t[b + 3],
        t[b + 4],
        t[b + 5],
        t[b + 6],
        t[b + 7],
        t[b + 8],
        t[b + 9],
        t[b + 10],
    ];
    let e = 3 + 2 * (own as usize);
    put_line(1, &l[..e], out, at)
}

// The lines of classes 1 to n, and the place after them.
fn class_lines(t: &[u8; SIZE], n: u8, out: &mut [u8], at: usize) -> usize
    requires { (n ≤ class_count) × (at + 25 * n ≤ length out.old) }
    ensures { wrote result out.new ≡ put_text out.old at (classes_in t.now n) }
{
    let mut w = at;
    for k in 0..n {
        w = class_line(t, k + 1, out, w);
    }
    w
}

// The lines of methods 0 to m - 1, and the place after them.
fn method_lines(t: &[u8; SIZE], m: u8, out: &mut [u8], at: usize) -> usize
    requires { (m ≤ method_count) × (at + line_text * m ≤ length out.old) }
    ensures { wrote result out.new ≡ put_text out.old at (methods_in t.now m) }
{
    let mut w = at;
    for i in 0..m {
        let b = METHODS + LONG * (i as usize);
        let n = after_first(t[b + LAST]);
        let a = b + 1;
        let e = a + n;
        w = put_line(2, &t[a..e], out, w);
    }
    w
}

// The first byte of main's line, whose row begins with x: the bytes between it and the expression.
fn main_first(x: u8) -> u8
    ensures { result ≡ main_first x }
{
    if x == 0 {
        return 3;
    }
    4
}

// The line of main, and the place after it.
fn main_line(t: &[u8; SIZE], out: &mut [u8], at: usize) -> usize
    requires { at + line_text ≤ length out.old }
    ensures { wrote result out.new ≡ put_line out.old at (main_in t.now) }
{
    let n = after_first(t[MAIN + LAST]);
    let e = MAIN + 1 + n;
    let f = main_first(t[MAIN]);
    put_line(f, &t[MAIN + 1..e], out, at)
}

// The candidate text, and its length.
fn put_lines(t: &[u8; SIZE], out: &mut [u8]) -> usize
    requires { room_size ≤ length out.old }
    ensures { wrote result out.new ≡ put_text out.old 0 (lines_in t.now) }
{
    let n = t[CLASS_COUNT_AT].min(CLASSES);
    let m = t[METHOD_COUNT_AT].min(MOST_METHODS);
    let a = class_lines(t, n, out, 0);
    let b = method_lines(t, m, out, a);
    main_line(t, out, b)
}

// Whether the candidate text reads into these bytes.
fn reads_back(t: &[u8; SIZE]) -> bool
    ensures { result ≡ readable t.now }
{
    let mut room = [0u8; ROOM];
    let w = put_lines(t, &mut room);
    let mut bytes = [0u8; SIZE];
    match read_into(&room[..w], &mut bytes) {
        Ok(()) => *t == bytes,
        Err(_) => false,
    }
}

// The length of the text, which stands at the front of the buffer; or 8 for bytes that no text reads into, then 9 for a buffer under 49,567 bytes.
fn text_of(t: &[u8; SIZE], buffer: &mut [u8]) -> Result<u16, Refusal>
    ensures { wrote_table (written_by result) buffer.new ≡ writing_of t.now buffer.old }
{
    if !reads_back(t) {
        return Err(Refusal::UnreadableTable);
    }
    if buffer.len() < TEXT {
        return Err(Refusal::ShortText);
    }
    let w = put_lines(t, buffer);
    Ok(w as u16)
}

// The text of a table, or refusal 8 or 9.
pub fn write(table: ClassTable, buffer: &mut [u8]) -> Written
    ensures { wrote_table result buffer.new ≡ writing_of table.bytes buffer.old }
{
    match text_of(&table.bytes, buffer) {
        Ok(length) => Written { refusal: 0, length },
        Err(r) => Written {
            refusal: r.number(),
            length: 0,
        },
    }
}
