// The report of a run: the lines of its value, or the line of what it stopped at.
// Not here: the lines of a value (values), what a call answers (engine).
ghost use Rattle.std.specs.Prelude.{◌≡◌, ◌+◌, ◌≤◌, length};
ghost use Rattle.cofj.specs.Limits.{report_size};
ghost use Rattle.evaluator.specs.Figures.{main_block, work_room};
ghost use Rattle.evaluator.specs.Answers.{out_in, out_with, OutOlder};
ghost use Rattle.evaluator.specs.Main.{Given};
ghost use Rattle.evaluator.specs.Reporting.{stop_number, StopReports, OutcomeReports, RunReports};

use crate::run::run;
use crate::{Ran, Stop};
use canon::layout::BLOCK;
use classes::places::SIZE;
use values::report::report;

// How many characters a report has, and the fuel that its run left.
#[derive(Clone, Copy)]
pub struct Reported {
    pub length: u16,
    pub fuel: u16,
}

// What a run stopped at, by its number.
fn stop_number(s: Stop) -> u8
    ensures { result ≡ stop_number s }
{
    s as u8
}

// The report of a run that stopped, at the front of `out`.
fn report_stop(s: Stop, out: &mut [u8])
    requires { report_size ≤ length out.old }
    ensures { StopReports s out.old out.new }
{
    let k = stop_number(s);
    out[0] = b'0';
    out[1] = b'7';
    out[2] = b'0';
    out[3] = b'0' + k;
    out[4] = b'\n';
}

// The report of an outcome, at the front of `out`.
fn report_outcome(work: &mut [u8], o: Ran, out: &mut [u8]) -> Reported
    requires { OutOlder work.old (main_block + 1) (out_with o.fuel o.outcome) × (report_size ≤ length out.old) }
    ensures { OutcomeReports (out_in work.old (out_with o.fuel o.outcome)) out.old out.new result × (length work.new ≡ length work.old) }
{
    match o.outcome {
        Ok(got) => {
            let n = report(work, got.value, out);
            Reported {
                length: n as u16,
                fuel: o.fuel,
            }
        }
        Err(s) => {
            report_stop(s, out);
            Reported {
                length: 5,
                fuel: o.fuel,
            }
        }
    }
}

// Main of the table is run with this fuel, and with the value in `block` from object 0 on if it is fed, and its report written at the front of `out`.
// What is left in `work` is open.
pub fn run_report(
    t: &[u8; SIZE],
    work: &mut [u8],
    fuel: u16,
    fed: bool,
    block: &[u8; BLOCK],
    out: &mut [u8],
) -> Reported
    requires { (work_room ≤ length work.old) × Given fed block.now × (report_size ≤ length out.old) }
    ensures { RunReports t.now fuel fed block.now (length work.old) out.old (length work.new) out.new result }
{
    let o = run(t, work, fuel, fed, block);
    report_outcome(work, o, out)
}
