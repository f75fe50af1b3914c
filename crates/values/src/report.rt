// The report of a value: a line of hexadecimal for each object. Not here: a byte as two digits (lineform), the report of a run that stops.
ghost use Rattle.std.specs.Prelude.{◌≡◌, ◌+◌, ◌*◌, ◌<◌, ◌≤◌, length};
ghost use Rattle.cofj.specs.Limits.{report_size};
ghost use Rattle.cofj.specs.Values.{undetermined, number_of};
ghost use Rattle.cofj.specs.Report.{ref_bytes, field_bytes};
ghost use Rattle.canon.specs.Figures.{object_size, code_count};
ghost use Rattle.canon.specs.Layout.{ref_in, node_in, Block, graph_at, Packed};
ghost use Rattle.values.specs.Layout.{Holds, value_of};
ghost use Rattle.values.specs.Reporting.{head_text, field_text, fields_text, line_size, Written, head_in, line_in, Line, Reported};

use crate::ValueRef;
use crate::value::move_out;
use canon::layout::{BLOCK, COUNT, FIRST_LEAF, HEAD, NUMBER, NUMBERS, OBJECT};
use lineform::write::put_byte;

// the first bytes of the lines: of an object's, of undetermined, of a number's
const OBJECT_LINE: u8 = 5;

const UNDETERMINED_LINE: u8 = 6;

const NUMBER_LINE: u8 = 9;

// what stands before a number in a field
const NUMBER_CLASS: u8 = 0xFE;

// the byte of a field that is undetermined
const NO_OBJECT: u8 = 255;

// A field of the object at a place, at a place of `out`: FE and a number, high byte first, or one byte. Answers with the place after it.
pub(crate) fn put_field(work: &[u8], at: usize, f: u8, out: &mut [u8], to: usize) -> usize
    requires { Packed work.now at × (at + object_size ≤ length work.now) × (f < code_count) × (to + field_text ≤ length out.old) }
    ensures { Written (ref_bytes (ref_in work.now at f)) out.old to out.new result × (result ≤ to + field_text) }
{
    let c = work[at + HEAD + f as usize];
    if c == NUMBER {
        let a = put_byte(NUMBER_CLASS, out, to);
        let b = put_byte(work[at + NUMBERS + 2 * (f as usize) + 1], out, a);
        return put_byte(work[at + NUMBERS + 2 * (f as usize)], out, b);
    }
    if c < FIRST_LEAF {
        return put_byte(c, out, to);
    }
    put_byte(NO_OBJECT, out, to)
}

// The fields of the object at a place. Answers as `put_field`.
pub(crate) fn put_fields(work: &[u8], at: usize, out: &mut [u8], to: usize) -> usize
    requires { Packed work.now at × (at + object_size ≤ length work.now) × (to + fields_text ≤ length out.old) }
    ensures { Written (field_bytes (node_in work.now at).refs) out.old to out.new result × (result ≤ to + fields_text) }
{
    let n = work[at + 1];
    let mut t = to;
    for f in 0..n {
        t = put_field(work, at, f, out, t);
    }
    t
}

// What stands before the fields in the line of object j, which lies at a place of `work`. Answers as `put_field`.
pub(crate) fn put_head(work: &[u8], at: usize, j: u8, out: &mut [u8], to: usize) -> usize
    requires { (at + object_size ≤ length work.now) × (to + head_text ≤ length out.old) }
    ensures { Written (head_in work.now at j) out.old to out.new result × (result ≡ to + head_text) }
{
    let a = put_byte(OBJECT_LINE, out, to);
    let b = put_byte(j, out, a);
    let c = put_byte(work[at], out, b);
    put_byte(work[at + 1], out, c)
}

// The line of object j, at a place of `out`. Answers with the place after it.
pub(crate) fn put_line(work: &[u8], at: usize, j: u8, out: &mut [u8], to: usize) -> usize
    requires { Packed work.now at × (at + object_size ≤ length work.now) × (to + line_size ≤ length out.old) }
    ensures { Line (line_in work.now at j) out.old to out.new result }
{
    let h = put_head(work, at, j, out, to);
    let t = put_fields(work, at, out, h);
    out[t] = b'\n';
    t + 1
}

// The lines of the value in block b. Answers how many characters they are.
pub(crate) fn put_lines(work: &[u8], b: u16, out: &mut [u8]) -> usize
    requires { Block work.now b × (report_size ≤ length out.old) }
    ensures { Reported (graph_at work.now b 0) out.old out.new result }
{
    let n = work[BLOCK * (b as usize) + COUNT];
    let mut to: usize = 0;
    for j in 0..n {
        to = put_line(
            work,
            BLOCK * (b as usize) + OBJECT * (j as usize),
            j,
            out,
            to,
        );
    }
    to
}

// The line of a value that is neither an object nor a number.
pub(crate) fn put_undetermined(out: &mut [u8]) -> usize
    requires { report_size ≤ length out.old }
    ensures { Reported undetermined out.old out.new result }
{
    let t = put_byte(UNDETERMINED_LINE, out, 0);
    out[t] = b'\n';
    t + 1
}

// The line of a number.
pub(crate) fn put_number(n: u16, out: &mut [u8]) -> usize
    requires { report_size ≤ length out.old }
    ensures { Reported (number_of n) out.old out.new result }
{
    let [high, low] = n.to_be_bytes();
    let a = put_byte(NUMBER_LINE, out, 0);
    let b = put_byte(high, out, a);
    let t = put_byte(low, out, b);
    out[t] = b'\n';
    t + 1
}

// The report of a value, at the front of `out`. Answers how many characters it is. An object's block is left with that value alone.
pub fn report(work: &mut [u8], r: ValueRef, out: &mut [u8]) -> usize
    requires { Holds work.old r × (report_size ≤ length out.old) }
    ensures { Reported (value_of work.old r) out.old out.new result × (length work.new ≡ length work.old) }
{
    match r {
        ValueRef::Object(i, b) => {
            move_out(work, b, i, b);
            put_lines(work, b, out)
        }
        ValueRef::Mark(_) => put_undetermined(out),
        ValueRef::Number(n) => put_number(n, out),
        ValueRef::Undetermined => put_undetermined(out),
    }
}
