// What `linerun` shows for its input: the verdict line, and after 00 the report of a checked run with fuel 1,000.
// Not here: where the input is cut (cut), the buffers, standard input and output (host/).
ghost use Rattle.std.specs.Prelude.{◌≤◌, ◌≡◌, length};
ghost use Rattle.cofj.specs.Show.{verdict_size, show_texts, show_call};
ghost use Rattle.cofj.specs.Refusals.{refusal_number};
ghost use Rattle.checker.specs.Answers.{verdict_of};
ghost use Rattle.engine.specs.Showing.{showing, no_line, line_of, PutVerdict};

use crate::check::main_type;
use crate::cut::first_length;
use crate::run::{Mode, run_ready};
use crate::session::{open_session, ready};
use classes::chain::FieldType;
use cofj::{Refusal, Shown};
use lineform::write::put_line;

// The fuel that `linerun` opens with.
const FUEL: u16 = 1000;

// The characters of the verdict line of an accepted program, the longest.
const VERDICT: usize = 9;

// The line of a verdict, main's type or a refusal, at the front of `out`. Answers with the place after it.
fn put_verdict(v: Result<FieldType, Refusal>, out: &mut [u8]) -> usize
    requires { verdict_size ≤ length out.old }
    ensures { PutVerdict (verdict_of v) out.old out.new result }
{
    match v {
        Ok(u) => put_line(8, &[0, u.class, u.tag], out, 0),
        Err(r) => put_line(8, &[r.number()], out, 0),
    }
}

// A verdict's line by value, beside the report's length.
fn with_line(v: Result<FieldType, Refusal>, length: u16) -> Shown
    ensures { result ≡ line_of (verdict_of v) length }
{
    let mut verdict = [0u8; VERDICT];
    let n = put_verdict(v, &mut verdict);
    Shown {
        refusal: 0,
        verdict_length: n as u8,
        verdict,
        length,
    }
}

// Nothing is shown: a buffer is too short.
fn without_line(r: Refusal) -> Shown
    ensures { result ≡ no_line (refusal_number r) }
{
    Shown {
        refusal: r.number(),
        verdict_length: 0,
        verdict: [0u8; VERDICT],
        length: 0,
    }
}

// Both texts shown. The run comes before the verdict, which it decides; it writes nothing where it refuses.
fn show_texts(text: &[u8], input: &[u8], report: &mut [u8], work: &mut [u8]) -> Shown
    ensures { showing result report.new work.new ≡ show_texts text.now input.now report.old work.old }
{
    if let Err(r) = ready(true, report.len(), work.len()) {
        return without_line(r);
    }
    let session = open_session(FUEL);
    match run_ready(Mode::Checked, text, input, session, report, work) {
        Ok(r) => with_line(main_type(text), r.length),
        Err(r) => with_line(Err(r), 0),
    }
}

// What is shown for the input of `linerun`.
pub(crate) fn show(input: &[u8], report: &mut [u8], work: &mut [u8]) -> Shown
    ensures { showing result report.new work.new ≡ show_call input.now report.old work.old }
{
    let n = first_length(input);
    show_texts(&input[..n], &input[n..], report, work)
}
