// The public calls. `input` is the second text of a run, and for `line_show` all that `linerun` reads.
// Not here: what they do; each is a call of this crate or of tables. How C and Rust call them: engine_c.
ghost use Rattle.std.specs.Prelude.{◌≡◌};
ghost use Rattle.cofj.specs.Calls.{open_session, close_session, check_call, checked, trial, run_call};
ghost use Rattle.classes.specs.Machine.{lookup_of};
ghost use Rattle.tables.specs.Readings.{reading_of};
ghost use Rattle.tables.specs.Writings.{wrote_table, writing_of};
ghost use Rattle.cofj.specs.Show.{show_call};
ghost use Rattle.engine.specs.Finding.{finding_in};
ghost use Rattle.engine.specs.Steps.{ran};
ghost use Rattle.engine.specs.Showing.{showing};

use crate::check::check_text;
use crate::find::find_method;
use crate::run::{checked_run, trial_run};
use crate::session::{close_session, open_session};
use crate::show::show;
use classes::ClassTable;
use classes::places::SIZE;
use cofj::{Answer, Closing, Finding, Session, Shown, Verdict, Written};
use tables::read::{Reading, read};
use tables::write::write;

pub fn line_open(fuel: u16) -> Session
    ensures { result ≡ open_session fuel }
{
    open_session(fuel)
}

pub fn line_close(session: Session) -> Closing
    ensures { result ≡ close_session session }
{
    close_session(session)
}

pub fn line_read(text: &[u8]) -> Reading
    ensures { result ≡ reading_of text.now }
{
    read(text)
}

pub fn line_write(table: ClassTable, buffer: &mut [u8]) -> Written
    ensures { wrote_table result buffer.new ≡ writing_of table.bytes buffer.old }
{
    write(table, buffer)
}

pub fn line_find(table: &[u8; SIZE], class: u8, name: u8) -> Finding
    ensures { result ≡ finding_in (lookup_of table.now class name) }
{
    find_method(table, class, name)
}

pub fn line_check(text: &[u8]) -> Verdict
    ensures { result ≡ check_call text.now }
{
    check_text(text)
}

pub fn line_run(
    text: &[u8],
    input: &[u8],
    session: Session,
    report: &mut [u8],
    work: &mut [u8],
) -> Answer
    ensures { ran result report.new work.new
        ≡ run_call (record { mode = checked; text = text.now; input = input.now; session = session; report = report.old; work = work.old }) }
{
    checked_run(text, input, session, report, work)
}

pub fn line_trial(
    text: &[u8],
    input: &[u8],
    session: Session,
    report: &mut [u8],
    work: &mut [u8],
) -> Answer
    ensures { ran result report.new work.new
        ≡ run_call (record { mode = trial; text = text.now; input = input.now; session = session; report = report.old; work = work.old }) }
{
    trial_run(text, input, session, report, work)
}

pub fn line_show(input: &[u8], report: &mut [u8], work: &mut [u8]) -> Shown
    ensures { showing result report.new work.new ≡ show_call input.now report.old work.old }
{
    show(input, report, work)
}
