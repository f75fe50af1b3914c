// Running an expression: it calls its list walk, which calls it back, while the nesting left falls.
// An expression is evaluated at a block: blocks below it stay, and its value is an older one or lies in that block. What a part gives is taken apart with
// `let .. else`, as document 01 has it, and what it stopped at is the whole's: no `?`.
// Table, work, trace, frame and spot stay parameters of their own, since each clause speaks of one of them, before or after.
ghost use Rattle.std.specs.Prelude.{◌≡◌, ◌+◌, ◌*◌, ◌<◌, length};
ghost use Rattle.evaluator.specs.Answers.{stops_as};
ghost use Rattle.evaluator.specs.Evaluation.{Limited};
ghost use Rattle.evaluator.specs.Preset.{is_preset};
ghost use Rattle.evaluator.specs.Spots.{past_of};
ghost use Rattle.evaluator.specs.Steps.{Runnable, PartRunnable, ListRunnable, PartsReady, EvalStep, FieldStep, ListStep, FinishStep, NewStep};

use crate::call::eval_call;
use crate::fields::fields_at;
use crate::frame::{Frame, answer, parameter};
use crate::number::{eval_number, literal};
use crate::spot::{Spot, down, inner, moved};
use crate::trace::Trace;
use crate::{Evaluated, Stop};
use classes::chain::field_total;
use classes::places::SIZE;
use classes::shape::{Shape, shape_at};
use maker::fieldless::PRESETS;
use maker::make::make;
use maker::over::make_fieldless;
use values::ValueRef;
use values::refs::select;

// Whether a new object of class c with n values stands in block 0 from the start.
#[tactic(auto, unfolding(crate::specs::Preset::is_preset))]
pub(crate) fn is_preset(t: &[u8; SIZE], c: u8, n: u8) -> bool
    ensures { result ≡ is_preset t.now c n }
{
    if n != 0 {
        return false;
    }
    if PRESETS <= c {
        return false;
    }
    field_total(t, c) == 0
}

// The expression at a spot. What is made of numbers, in a function of its own: that costs calls less.
#[cycle(evaluation)]
pub(crate) fn eval(
    t: &[u8; SIZE],
    work: &mut [u8],
    trace: &mut Trace,
    frame: &Frame,
    p: Spot,
) -> Result<Evaluated, Stop>
    requires { Runnable work.old frame.now trace.old p }
    ensures { EvalStep t.now work.old frame.now trace.old p work.new trace.new result }
{
    if p.nesting == 0 {
        return Err(Stop::Stuck);
    }
    let s = shape_at(t, p.at as usize);
    match s {
        Shape::This { next } => answer(frame.this, next),
        Shape::Result { next } => answer(frame.res, next),
        Shape::Parameter { k, next } => answer(parameter(frame, k), next),
        Shape::Field { f: k, next } => eval_field(t, work, trace, frame, inner(p, next), k),
        Shape::Call { m, n, next } => eval_call(t, work, trace, frame, inner(p, next), m, n),
        Shape::New { c, n, next } => eval_new(t, work, trace, frame, inner(p, next), c, n),
        _ => eval_number(t, work, trace, frame, p, s),
    }
}

// The same for an item of a list: variables, numbers, fields and new objects, which most are, at once. With one caller, which the compiler takes it into, it
// saves a quarter to three tenths of building a list (docs/SPEED.md).
#[cycle(evaluation)]
pub(crate) fn eval_item(
    t: &[u8; SIZE],
    work: &mut [u8],
    trace: &mut Trace,
    frame: &Frame,
    p: Spot,
) -> Result<Evaluated, Stop>
    requires { Runnable work.old frame.now trace.old p }
    ensures { EvalStep t.now work.old frame.now trace.old p work.new trace.new result }
{
    if p.nesting == 0 {
        return Err(Stop::Stuck);
    }
    let s = shape_at(t, p.at as usize);
    match s {
        Shape::This { next } => answer(frame.this, next),
        Shape::Parameter { k, next } => answer(parameter(frame, k), next),
        Shape::Number { k, n, next } => literal(k, n, next),
        Shape::Field { f: k, next } => eval_field(t, work, trace, frame, inner(p, next), k),
        Shape::New { c, n, next } => {
            if is_preset(t, c, n) {
                let v = ValueRef::Object(c, 0);
                return Ok(Evaluated {
                    value: v,
                    next: next as u16,
                });
            }
            eval_new(t, work, trace, frame, inner(p, next), c, n)
        }
        _ => eval(t, work, trace, frame, p),
    }
}

// Field k of the expression at a spot. Where that is a field too, the fields are selected one after another, from the innermost out.
#[cycle(evaluation)]
pub(crate) fn eval_field(
    t: &[u8; SIZE],
    work: &mut [u8],
    trace: &mut Trace,
    frame: &Frame,
    p: Spot,
    k: u8,
) -> Result<Evaluated, Stop>
    requires { PartRunnable work.old frame.now trace.old p }
    ensures { FieldStep t.now work.old frame.now trace.old p k work.new trace.new result }
{
    let at = p.at as usize;
    let d = fields_at(t, at, p.nesting);
    let o = eval(t, work, trace, frame, down(p, d));
    let Ok(Evaluated { value: v, next }) = o else {
        return o;
    };
    let mut u = v;
    for j in (0..d).rev() {
        let s = select(work, u, t[at + 2 * (j as usize) + 1]);
        let Some(r) = s else {
            return Err(Stop::Stuck);
        };
        u = r;
    }
    let s = select(work, u, k);
    let Some(r) = s else {
        return Err(Stop::Stuck);
    };
    Ok(Evaluated { value: r, next })
}

// The block for what follows the value v: the next, if v lies in this one.
pub(crate) fn past(b: u16, v: ValueRef) -> u16
    requires { b < 65535 }
    ensures { result ≡ past_of b v }
{
    let ValueRef::Object(_, c) = v else {
        return b;
    };
    if c == b {
        return b + 1;
    }
    b
}

// What a part stopped at, as the answer of the whole.
pub(crate) fn stopped<A: Copy, B>(o: Result<A, Stop>) -> Result<B, Stop>
    ensures { result ≡ stops_as o }
{
    match o {
        Ok(_) => Err(Stop::Stuck),
        Err(s) => Err(s),
    }
}

// The n expressions at a spot, each at the block after that of the one before; their values to the front of vs.
#[cycle(evaluation)]
pub(crate) fn eval_list(
    t: &[u8; SIZE],
    work: &mut [u8],
    trace: &mut Trace,
    frame: &Frame,
    p: Spot,
    n: u8,
    vs: &mut [ValueRef; 4],
) -> Result<u16, Stop>
    requires { ListRunnable work.old frame.now trace.old p n × (length vs.old ≡ 4) }
    ensures { ListStep t.now work.old frame.now trace.old p n work.new trace.new vs.new result }
{
    let mut q = p;
    for i in 0..n {
        let o = eval_item(t, work, trace, frame, q);
        let Ok(Evaluated { value: v, next: at }) = o else {
            return stopped(o);
        };
        vs[i as usize] = v;
        q = moved(q, at, past(q.block, v));
    }
    Ok(q.at)
}

// A new object of class c with the first n values of vs, in block dst or below, unless it has more than `objects` objects; `next` is the place after.
pub(crate) fn finish(
    work: &mut [u8],
    c: u8,
    n: u8,
    vs: &[ValueRef; 4],
    objects: u8,
    dst: u16,
    next: u16,
) -> Result<Evaluated, Stop>
    requires { PartsReady work.old vs.now n dst × Limited objects }
    ensures { FinishStep work.old c n vs.now objects dst next work.new result }
{
    if n == 0 {
        return Ok(Evaluated {
            value: make_fieldless(work, c, dst),
            next,
        });
    }
    let Some(v) = make(work, c, &vs[..], n, dst, objects) else {
        return Err(Stop::TooLarge);
    };
    Ok(Evaluated { value: v, next })
}

// A new object of class c with the values of the n expressions at a spot.
#[cycle(evaluation)]
pub(crate) fn eval_new(
    t: &[u8; SIZE],
    work: &mut [u8],
    trace: &mut Trace,
    frame: &Frame,
    p: Spot,
    c: u8,
    n: u8,
) -> Result<Evaluated, Stop>
    requires { PartRunnable work.old frame.now trace.old p }
    ensures { NewStep t.now work.old frame.now trace.old p c n work.new trace.new result }
{
    if is_preset(t, c, n) {
        let v = ValueRef::Object(c, 0);
        return Ok(Evaluated {
            value: v,
            next: p.at,
        });
    }
    if field_total(t, c) != n {
        return Err(Stop::Stuck);
    }
    if 4 < n {
        return Err(Stop::Stuck);
    }
    let mut vs = [ValueRef::Undetermined; 4];
    let w = eval_list(t, work, trace, frame, p, n, &mut vs);
    let Ok(next) = w else {
        return stopped(w);
    };
    finish(work, c, n, &vs, p.objects, p.block, next)
}
