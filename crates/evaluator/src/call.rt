// Running a call: its receiver, its arguments, then a side of its method, while the calls that may be opened fall.
// The receiver lies in the call's block or below, and the arguments in the three blocks after it; a side is run four blocks on, and its value is brought
// down to the call's block. A left side is run with its call open.
ghost use Rattle.evaluator.specs.Steps.{PartRunnable, CallRunnable, BodyRunnable, MarkGiven, CallStep, InvokeStep, RightStep, LeftStep};

use crate::eval::{eval, eval_list, stopped};
use crate::find::find;
use crate::frame::{Frame, body_frame};
use crate::met::open_call;
use crate::spot::{Spot, body, moved};
use crate::trace::{OpenCall, Trace, push, side_call};
use crate::{Evaluated, Stop};
use classes::methods::{Found, left_place, right_place};
use classes::places::SIZE;
use values::ValueRef;
use values::value::{bring, close};

// The call of m with n arguments: the receiver at a spot, then the arguments, if there are any; a walk of none would cost calls without arguments a twentieth. In
// one function, since the compiler leaves one for the arguments outside, which costs calls with arguments a seventh (docs/SPEED.md).
#[cycle(evaluation)]
pub(crate) fn eval_call(
    t: &[u8; SIZE],
    work: &mut [u8],
    trace: &mut Trace,
    frame: &Frame,
    p: Spot,
    m: u8,
    n: u8,
) -> Result<Evaluated, Stop>
    requires { PartRunnable work.old frame.now trace.old p }
    ensures { CallStep t.now work.old frame.now trace.old p m n work.new trace.new result }
{
    if p.nesting == 0 {
        return Err(Stop::Stuck);
    }
    let o = eval(t, work, trace, frame, p);
    let Ok(Evaluated { value: v, next: at }) = o else {
        return o;
    };
    let w = find(t, work, v, m, n);
    let Some(f) = w else {
        return Err(Stop::Stuck);
    };
    if n == 0 {
        let bare = side_call(v, m, [ValueRef::Undetermined; 3], n, p.opened);
        return invoke(t, work, trace, &bare, f, moved(p, at, p.block));
    }
    let mut vs = [ValueRef::Undetermined; 4];
    let l = eval_list(t, work, trace, frame, moved(p, at, p.block + 1), n, &mut vs);
    let Ok(next) = l else {
        return stopped(l);
    };
    let c = side_call(v, m, [vs[0], vs[1], vs[2]], n, p.opened);
    invoke(t, work, trace, &c, f, moved(p, next, p.block))
}

// The method f called; the spot is after the call.
#[cycle(evaluation)]
pub(crate) fn invoke(
    t: &[u8; SIZE],
    work: &mut [u8],
    trace: &mut Trace,
    c: &OpenCall,
    f: Found,
    p: Spot,
) -> Result<Evaluated, Stop>
    requires { CallRunnable work.old trace.old c.now p }
    ensures { InvokeStep t.now work.old trace.old c.now f.method p work.new trace.new result }
{
    let fuel = trace.fuel;
    if fuel == 0 {
        return Err(Stop::NoFuel);
    }
    trace.fuel = fuel - 1;
    if p.calls == 0 {
        return Err(Stop::TooDeep);
    }
    let h = open_call(work, trace, p.opened, c);
    match h {
        Some(mark) => run_right(t, work, trace, c, f, p, mark),
        None => run_left(t, work, trace, c, f, p),
    }
}

// The right side of the method f, with res the mark of the open call.
#[cycle(evaluation)]
pub(crate) fn run_right(
    t: &[u8; SIZE],
    work: &mut [u8],
    trace: &mut Trace,
    c: &OpenCall,
    f: Found,
    p: Spot,
    mark: ValueRef,
) -> Result<Evaluated, Stop>
    requires { BodyRunnable work.old trace.old c.now p × MarkGiven mark }
    ensures { RightStep t.now work.old trace.old c.now f.method p mark work.new trace.new result }
{
    let frame = body_frame(c, Some(mark), f.owner);
    let o = eval(
        t,
        work,
        trace,
        &frame,
        body(p, right_place(t, f.method), p.opened),
    );
    let Ok(Evaluated { value: u, next: _ }) = o else {
        return o;
    };
    Ok(Evaluated {
        value: bring(work, u, p.block),
        next: p.at,
    })
}

// The left side of the method f, under a fresh mark, with its call open.
#[cycle(evaluation)]
pub(crate) fn run_left(
    t: &[u8; SIZE],
    work: &mut [u8],
    trace: &mut Trace,
    c: &OpenCall,
    f: Found,
    p: Spot,
) -> Result<Evaluated, Stop>
    requires { BodyRunnable work.old trace.old c.now p }
    ensures { LeftStep t.now work.old trace.old c.now f.method p work.new trace.new result }
{
    let k = p.opened;
    push(trace, k, c);
    let frame = body_frame(c, None, f.owner);
    let o = eval(
        t,
        work,
        trace,
        &frame,
        body(p, left_place(t, f.method), p.opened + 1),
    );
    let Ok(Evaluated { value: u, next: _ }) = o else {
        return o;
    };
    Ok(Evaluated {
        value: close(work, k, u, p.block),
        next: p.at,
    })
}
