// A text's lines, read into parts: refusal 14. Not here: which of the parts are reached, and whether they fit (judge).
ghost use Rattle.std.specs.Prelude.{◌≡◌, ◌+◌, ◌<◌, ◌≤◌, length};
ghost use Rattle.lineform.specs.Packed.{Packed};
ghost use Rattle.batch.specs.Figures.{part_size, field_room, wide_size};
ghost use Rattle.batch.specs.Layout.{FieldPut, Spared};
ghost use Rattle.batch.specs.Reading.{front_size, field_good, line_count, FieldRead, FieldsRead, LineRead, LinesRead, TextRead};

use crate::layout::{BLANK, FIELDS, NO_PART, NUMBER_FIELD, PART};
use canon::layout::{HEAD, NUMBERS};
use classes::chain::field_total;
use classes::places::{CLASS_COUNT_AT, SIZE};
use cofj::Refusal;
use lineform::lines::decode;

// the first byte of a part's line
const PART_LINE: u8 = 5;

// the bytes of a line before its fields
const FRONT: usize = 4;

// how many parts a text may list
const PARTS: usize = 254;

// the most characters that a list of parts has: two for each byte of a line, which has at most sixteen, and its end
const LONGEST: usize = 33 * PARTS;

// room for the packed lines of so many characters, of which three make at most two bytes
const ROOM: usize = 5592;

// Whether a field's byte is one of n parts, or that it holds none.
fn field_good(b: u8, n: u8) -> bool
    ensures { result ≡ field_good n b }
{
    if b < n {
        return true;
    }
    b == NO_PART
}

// Field f of the part at a place: its byte, and its number's two bytes.
fn put_field(parts: &mut [u8], at: usize, f: usize, b: u8, low: u8, high: u8)
    requires { (at + part_size ≤ length parts.old) × (f < field_room) }
    ensures { FieldPut parts.old at f b low high parts.new }
{
    parts[at + HEAD + f] = b;
    parts[at + NUMBERS + 2 * f] = low;
    parts[at + NUMBERS + 2 * f + 1] = high;
}

// The field of a line at place q, as field f of the part at a place: one of n parts, none, or a number and its two bytes. The place after it, if it is one.
fn read_field(line: &[u8], q: usize, n: u8, parts: &mut [u8], at: usize, f: usize) -> Option<usize>
    requires { (at + part_size ≤ length parts.old) × (f < field_room) }
    ensures { FieldRead line.now q n parts.old at f parts.new result }
{
    if line.len() <= q {
        return None;
    }
    let b = line[q];
    if b != NUMBER_FIELD {
        if !field_good(b, n) {
            return None;
        }
        put_field(parts, at, f, b, 0, 0);
        return Some(q + 1);
    }
    if line.len() - q < 3 {
        return None;
    }
    let high = line[q + 1];
    let low = line[q + 2];
    put_field(parts, at, f, b, low, high);
    Some(q + 3)
}

// The m fields of a line, as those of the part at a place. The place after them, if they are fields.
fn read_fields(line: &[u8], m: u8, n: u8, parts: &mut [u8], at: usize) -> Option<usize>
    requires { (at + part_size ≤ length parts.old) × (m ≤ field_room) × (front_size ≤ length line.now) }
    ensures { FieldsRead line.now m n parts.old at parts.new result }
{
    let mut q = FRONT;
    for f in 0..m {
        q = read_field(line, q, n, parts, at, usize::from(f))?;
    }
    Some(q)
}

// What the part at a place has besides its class and its m fields: fields that hold nothing, and blank bytes.
fn spare_fields(parts: &mut [u8], at: usize, m: u8)
    requires { (at + part_size ≤ length parts.old) × (m ≤ field_room) }
    ensures { Spared parts.old at m parts.new }
{
    for f in m..FIELDS {
        put_field(parts, at, usize::from(f), NO_PART, 0, 0);
    }
    parts[at + BLANK] = 0;
    parts[at + BLANK + 1] = 0;
}

// Line k of n, as part k. Whether it is the line of a part with that number, of a known class and with its fields.
fn read_line(line: &[u8], k: u8, n: u8, t: &[u8; SIZE], parts: &mut [u8]) -> bool
    requires { wide_size ≤ length parts.old }
    ensures { LineRead t.now line.now k n parts.old parts.new result }
{
    if line.len() < FRONT {
        return false;
    }
    if line[0] != PART_LINE {
        return false;
    }
    if line[1] != k {
        return false;
    }
    let c = line[2];
    if t[CLASS_COUNT_AT] < c {
        return false;
    }
    let m = line[3];
    if m != field_total(t, c) {
        return false;
    }
    if FIELDS < m {
        return false;
    }
    let at = PART * (k as usize);
    parts[at] = c;
    parts[at + 1] = m;
    let Some(q) = read_fields(line, m, n, parts, at) else {
        return false;
    };
    if q != line.len() {
        return false;
    }
    spare_fields(parts, at, m);
    true
}

// How many packed lines there are.
fn count_lines(d: &[u8]) -> usize
    requires { Packed d.now }
    ensures { result ≡ line_count d.now }
{
    let mut i: usize = 0;
    let mut n: usize = 0;
    // by what each line takes: no range
    while i < d.len() {
        i = i + 1 + usize::from(d[i]);
        n += 1;
    }
    n
}

// Packed lines, read into parts.
fn read_lines(d: &[u8], t: &[u8; SIZE], parts: &mut [u8]) -> Result<u8, Refusal>
    requires { Packed d.now × (wide_size ≤ length parts.old) }
    ensures { LinesRead t.now d.now parts.new result }
{
    let n = count_lines(d);
    if PARTS < n {
        return Err(Refusal::BadParts);
    }
    let mut i: usize = 0;
    let mut k: u8 = 0;
    // by what each line takes: no range
    while i < d.len() {
        let a = i + 1;
        let e = a + usize::from(d[i]);
        if !read_line(&d[a..e], k, n as u8, t, parts) {
            return Err(Refusal::BadParts);
        }
        k += 1;
        i = e;
    }
    Ok(n as u8)
}

// The parts that a text lists, by the classes of a table: how many they are.
pub(crate) fn read_parts(text: &[u8], t: &[u8; SIZE], parts: &mut [u8]) -> Result<u8, Refusal>
    requires { wide_size ≤ length parts.old }
    ensures { TextRead t.now text.now parts.new result }
{
    if LONGEST < text.len() {
        return Err(Refusal::BadParts);
    }
    let mut room = [0u8; ROOM];
    let Ok(w) = decode(text, &mut room) else {
        return Err(Refusal::BadParts);
    };
    read_lines(&room[..w], t, parts)
}
