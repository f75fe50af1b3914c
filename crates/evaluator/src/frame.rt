// Frames: what the variables of a body hold, as value enums.
// Not here: what an expression that is no variable gives (eval).
ghost use Rattle.std.specs.Prelude.{◌≡◌, ◌≤◌, ◌<◌};
ghost use Rattle.evaluator.specs.Figures.{place_limit};
ghost use Rattle.evaluator.specs.State.{variable_of};
ghost use Rattle.evaluator.specs.Answers.{done_of};
ghost use Rattle.evaluator.specs.Frames.{body_frame, main_frame};

use crate::spot::INPUT_BLOCK;
use crate::trace::OpenCall;
use crate::{Evaluated, Stop};
use values::ValueRef;

// The variables of a body: this, res and the first n arguments; and the class that owns the body, as the search answered it, for 2026-07 (open calls by owner) to read.
// In main there is no `this` and no `res`, the one parameter is the input, if there is one, and the owner is 0.
#[derive(Clone, Copy)]
pub struct Frame {
    pub this: Option<ValueRef>,
    pub res: Option<ValueRef>,
    pub args: [ValueRef; 3],
    pub n: u8,
    pub owner: u8,
}

// The frame of a body: the receiver and the arguments of its call, what res holds, and the class that owns it.
pub(crate) fn body_frame(c: &OpenCall, res: Option<ValueRef>, owner: u8) -> Frame
    ensures { result ≡ body_frame c.now.receiver res c.now.args c.now.n owner }
{
    Frame {
        this: Some(c.receiver),
        res,
        args: c.args,
        n: c.n,
        owner,
    }
}

// The frame of main: the input, if there is one, stands in its block from object 0 on.
pub(crate) fn main_frame(fed: bool) -> Frame
    ensures { result ≡ main_frame fed }
{
    let v = ValueRef::Object(0, INPUT_BLOCK);
    Frame {
        this: None,
        res: None,
        args: [v, ValueRef::Undetermined, ValueRef::Undetermined],
        n: u8::from(fed),
        owner: 0,
    }
}

// What parameter k holds.
#[tactic(auto, unfolding(crate::specs::State::variable_of, crate::specs::State::passed_of))]
pub(crate) fn parameter(frame: &Frame, k: u8) -> Option<ValueRef>
    requires { frame.now.n ≤ 3 }
    ensures { result ≡ variable_of frame.now k }
{
    if frame.n <= k {
        return None;
    }
    Some(frame.args[k as usize])
}

// What a variable holds, as an answer: stuck if it holds nothing.
pub(crate) fn answer(h: Option<ValueRef>, next: usize) -> Result<Evaluated, Stop>
    requires { next < place_limit }
    ensures { result ≡ done_of h next }
{
    let Some(r) = h else {
        return Err(Stop::Stuck);
    };
    Ok(Evaluated {
        value: r,
        next: next as u16,
    })
}
