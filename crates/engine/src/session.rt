// Sessions: opened, closed, and what their state refuses.
// Not here: runs (run).
ghost use Rattle.std.specs.Prelude.{◌≡◌};
ghost use Rattle.cofj.specs.Calls.{open_session, with_fuel, close_session};
ghost use Rattle.engine.specs.Steps.{state_of};

use cofj::{Closing, Refusal, Session};

// How many bytes a report buffer has at least, and a work buffer.
pub(crate) const REPORT: usize = 1056;

pub(crate) const WORK: usize = 163840;

// A session with this fuel.
pub(crate) fn open_session(fuel: u16) -> Session
    ensures { result ≡ open_session fuel }
{
    Session { active: true, fuel }
}

// The session with this fuel left.
pub(crate) fn with_fuel(session: Session, fuel: u16) -> Session
    ensures { result ≡ with_fuel session fuel }
{
    Session {
        active: session.active,
        fuel,
    }
}

// A closed session has no fuel; closing it again is 11.
#[tactic(auto, unfolding(cofj::specs::Calls::close_session))]
pub(crate) fn close_session(session: Session) -> Closing
    ensures { result ≡ close_session session }
{
    if !session.active {
        return Closing {
            refusal: Refusal::ClosedSession.number(),
            session,
        };
    }
    Closing {
        refusal: 0,
        session: Session {
            active: false,
            fuel: 0,
        },
    }
}

// What the state refuses before the text is looked at: 11, 12 or 13.
#[tactic(auto, unfolding(crate::specs::Steps::state_of))]
pub(crate) fn ready(active: bool, report: usize, work: usize) -> Result<(), Refusal>
    ensures { result ≡ state_of active report work }
{
    if !active {
        return Err(Refusal::ClosedSession);
    }
    if report < REPORT {
        return Err(Refusal::ShortReport);
    }
    if work < WORK {
        return Err(Refusal::ShortWork);
    }
    Ok(())
}
