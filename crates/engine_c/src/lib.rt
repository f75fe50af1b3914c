// The public calls for C and Rust: slices are pointer and length, structs go by value; `line_find` is lent its table, a pointer to its bytes.
// `input` is the second text of a run, and for `line_show` all that `linerun` reads.
// Not here: what they do; each is the engine's call of the same name, under the same contract.
#![tactic(auto)]

ghost use Rattle.std.specs.Prelude.{◌≡◌};
ghost use Rattle.cofj.specs.Calls.{open_session, close_session, check_call, checked, trial, run_call};
ghost use Rattle.classes.specs.Machine.{lookup_of};
ghost use Rattle.tables.specs.Readings.{reading_of};
ghost use Rattle.tables.specs.Writings.{wrote_table, writing_of};
ghost use Rattle.cofj.specs.Show.{show_call};
ghost use Rattle.engine.specs.Finding.{finding_in};
ghost use Rattle.engine.specs.Steps.{ran};
ghost use Rattle.engine.specs.Showing.{showing};

use classes::ClassTable;
use classes::places::SIZE;
use cofj::{Answer, Closing, Finding, Session, Shown, Verdict, Written};
use tables::read::Reading;

#[unsafe(no_mangle)]
pub extern "C" fn line_open(fuel: u16) -> Session
    ensures { result ≡ open_session fuel }
{
    engine::exports::line_open(fuel)
}

#[unsafe(no_mangle)]
pub extern "C" fn line_close(session: Session) -> Closing
    ensures { result ≡ close_session session }
{
    engine::exports::line_close(session)
}

#[unsafe(no_mangle)]
pub extern "C" fn line_read(text: &[u8]) -> Reading
    ensures { result ≡ reading_of text.now }
{
    engine::exports::line_read(text)
}

#[unsafe(no_mangle)]
pub extern "C" fn line_write(table: ClassTable, buffer: &mut [u8]) -> Written
    ensures { wrote_table result buffer.new ≡ writing_of table.bytes buffer.old }
{
    engine::exports::line_write(table, buffer)
}

#[unsafe(no_mangle)]
pub extern "C" fn line_find(table: &[u8; SIZE], class: u8, name: u8) -> Finding
    ensures { result ≡ finding_in (lookup_of table.now class name) }
{
    engine::exports::line_find(table, class, name)
}

#[unsafe(no_mangle)]
pub extern "C" fn line_check(text: &[u8]) -> Verdict
    ensures { result ≡ check_call text.now }
{
    engine::exports::line_check(text)
}

#[unsafe(no_mangle)]
pub extern "C" fn line_run(
    text: &[u8],
    input: &[u8],
    session: Session,
    report: &mut [u8],
    work: &mut [u8],
) -> Answer
    ensures { ran result report.new work.new
        ≡ run_call (record { mode = checked; text = text.now; input = input.now; session = session; report = report.old; work = work.old }) }
{
    engine::exports::line_run(text, input, session, report, work)
}

#[unsafe(no_mangle)]
pub extern "C" fn line_trial(
    text: &[u8],
    input: &[u8],
    session: Session,
    report: &mut [u8],
    work: &mut [u8],
) -> Answer
    ensures { ran result report.new work.new
        ≡ run_call (record { mode = trial; text = text.now; input = input.now; session = session; report = report.old; work = work.old }) }
{
    engine::exports::line_trial(text, input, session, report, work)
}

#[unsafe(no_mangle)]
pub extern "C" fn line_show(input: &[u8], report: &mut [u8], work: &mut [u8]) -> Shown
    ensures { showing result report.new work.new ≡ show_call input.now report.old work.old }
{
    engine::exports::line_show(input, report, work)
}
