// The checked run and the trial run: state, text, types where they are asked for, the second text, then main.
// Not here: what a second text gives (feed), evaluation (evaluator).
ghost use Rattle.std.specs.Prelude.{◌≡◌, Ok, length};
ghost use Rattle.cofj.specs.Calls.{checked, trial, run_call};
ghost use Rattle.engine.specs.Steps.{ran, answer_by, mode_of, judged_in, state_of};

use crate::feed::feed;
use crate::session::{WORK, ready, with_fuel};
use crate::work::clear;
use canon::layout::BLOCK;
use checker::program::check;
use classes::places::SIZE;
use cofj::{Answer, Refusal, Session};
use evaluator::report::{Reported, run_report};
use tables::read::read_into;

// Whether types are checked first.
#[derive(Clone, Copy)]
pub(crate) enum Mode {
    Checked,
    Trial,
}

// What the mode asks of a table's bytes: their types, or nothing.
fn judge(mode: Mode, t: &[u8; SIZE]) -> Result<(), Refusal>
    ensures { result ≡ judged_in mode t.now }
{
    match mode {
        Mode::Checked => {
            check(t)?;
            Ok(())
        }
        Mode::Trial => Ok(()),
    }
}

// What a call answers. A refused one has the same session, and no report.
fn answer(session: Session, r: Result<Reported, Refusal>) -> Answer
    ensures { result ≡ answer_by session r }
{
    match r {
        Ok(r) => Answer {
            refusal: 0,
            session: with_fuel(session, r.fuel),
            length: r.length,
        },
        Err(k) => Answer {
            refusal: k.number(),
            session,
            length: 0,
        },
    }
}

// A run of a text, and of a second one, whose state refuses nothing: its report, or the first refusal. Main runs in the first work bytes, which are zero after.
// A function of its own, so that a call which its state refuses makes no room for a run.
pub(crate) fn run_ready(
    mode: Mode,
    text: &[u8],
    input: &[u8],
    session: Session,
    out: &mut [u8],
    work: &mut [u8],
) -> Result<Reported, Refusal>
    requires { state_of session.active (length out.old) (length work.old) ≡ Ok tt }
    ensures { ran (answer_by session result) out.new work.new
        ≡ run_call (record { mode = mode_of mode; text = text.now; input = input.now; session = session; report = out.old; work = work.old }) }
{
    let mut bytes = [0u8; SIZE];
    read_into(text, &mut bytes)?;
    judge(mode, &bytes)?;
    let mut block = [0u8; BLOCK];
    let fed = feed(&bytes, input, &mut block)?;
    let fuel = session.fuel;
    let r = run_report(&bytes, &mut work[..WORK], fuel, fed, &block, out);
    clear(work);
    Ok(r)
}

// The same in any state: what it refuses, 11 to 13, comes first.
fn run_text(
    mode: Mode,
    text: &[u8],
    input: &[u8],
    session: Session,
    out: &mut [u8],
    work: &mut [u8],
) -> Result<Reported, Refusal>
    ensures { ran (answer_by session result) out.new work.new
        ≡ run_call (record { mode = mode_of mode; text = text.now; input = input.now; session = session; report = out.old; work = work.old }) }
{
    ready(session.active, out.len(), work.len())?;
    run_ready(mode, text, input, session, out, work)
}

// The checked run of a text, with the second text `input`; an empty one counts as none.
pub(crate) fn checked_run(
    text: &[u8],
    input: &[u8],
    session: Session,
    out: &mut [u8],
    work: &mut [u8],
) -> Answer
    ensures { ran result out.new work.new
        ≡ run_call (record { mode = checked; text = text.now; input = input.now; session = session; report = out.old; work = work.old }) }
{
    let r = run_text(Mode::Checked, text, input, session, out, work);
    answer(session, r)
}

// The trial run: no types are asked for.
pub(crate) fn trial_run(
    text: &[u8],
    input: &[u8],
    session: Session,
    out: &mut [u8],
    work: &mut [u8],
) -> Answer
    ensures { ran result out.new work.new
        ≡ run_call (record { mode = trial; text = text.now; input = input.now; session = session; report = out.old; work = work.old }) }
{
    let r = run_text(Mode::Trial, text, input, session, out, work);
    answer(session, r)
}
