// Running what is made of numbers: literals, sums, differences, choices. No fuel is spent. A number lies in no block, so what follows an operand is
// evaluated at the operand's block.
// Not here: the other expressions (eval).
ghost use Rattle.std.specs.Prelude.{◌≡◌, ◌<◌};
ghost use Rattle.cofj.specs.Limits.{number_count};
ghost use Rattle.evaluator.specs.Figures.{place_limit};
ghost use Rattle.evaluator.specs.Answers.{two_bytes, number_at, operand_of, reckoned, combined, passed_over};
ghost use Rattle.classes.specs.declared.shape.Operation.TheVariants.{Sum, Difference};
ghost use Rattle.evaluator.specs.Steps.{PartRunnable, NumberRunnable, EvalStep, CombineStep, ChooseStep};

use crate::eval::{eval, stopped};
use crate::frame::Frame;
use crate::spot::{Spot, inner, moved};
use crate::trace::Trace;
use crate::{Counted, Evaluated, Stop};
use classes::places::SIZE;
use classes::shape::{Operation, Shape};
use classes::skip::skip_expr;
use values::ValueRef;

// The number of two bytes, high first, as an answer.
pub(crate) fn literal(k: u8, n: u8, next: usize) -> Result<Evaluated, Stop>
    requires { next < place_limit }
    ensures { (result ≡ number_at (two_bytes k n) next) × (two_bytes k n < number_count) }
{
    let v = ValueRef::Number(u16::from_be_bytes([k, n]));
    Ok(Evaluated {
        value: v,
        next: next as u16,
    })
}

// What an expression gives, as an operand: stuck if it is no number.
pub(crate) fn operand(o: Result<Evaluated, Stop>) -> Result<Counted, Stop>
    ensures { result ≡ operand_of o }
{
    match o {
        Ok(Evaluated { value: v, next: at }) => {
            let ValueRef::Number(n) = v else {
                return Err(Stop::Stuck);
            };
            Ok(Counted {
                number: n,
                next: at,
            })
        }
        Err(s) => Err(s),
    }
}

// The sum of two numbers, unless it is above the largest; `next` is the place after.
#[tactic(auto, unfolding(crate::specs::Answers::reckoned))]
fn sum(x: u16, y: u16, next: u16) -> Result<Evaluated, Stop>
    ensures { result ≡ reckoned Sum x y next }
{
    let Some(z) = x.checked_add(y) else {
        return Err(Stop::Overflow);
    };
    let v = ValueRef::Number(z);
    Ok(Evaluated { value: v, next })
}

// The difference of two numbers, 0 if it would be below.
#[tactic(auto, unfolding(crate::specs::Answers::reckoned))]
fn difference(x: u16, y: u16, next: u16) -> Result<Evaluated, Stop>
    ensures { result ≡ reckoned Difference x y next }
{
    let v = ValueRef::Number(x.saturating_sub(y));
    Ok(Evaluated { value: v, next })
}

// Two numbers put together.
pub(crate) fn reckon(o: Operation, x: u16, y: u16, next: u16) -> Result<Evaluated, Stop>
    ensures { result ≡ reckoned o x y next }
{
    match o {
        Operation::Sum => sum(x, y, next),
        Operation::Difference => difference(x, y, next),
    }
}

// The number x and what an expression gives, put together.
pub(crate) fn combine(
    o: Operation,
    x: u16,
    second: Result<Evaluated, Stop>,
) -> Result<Evaluated, Stop>
    ensures { result ≡ combined o x (operand_of second) }
{
    let b = operand(second);
    let Ok(Counted { number: y, next }) = b else {
        return stopped(b);
    };
    reckon(o, x, y, next)
}

// The sum or difference of the two expressions at a spot.
#[cycle(evaluation)]
pub(crate) fn eval_combine(
    t: &[u8; SIZE],
    work: &mut [u8],
    trace: &mut Trace,
    frame: &Frame,
    p: Spot,
    o: Operation,
) -> Result<Evaluated, Stop>
    requires { PartRunnable work.old frame.now trace.old p }
    ensures { CombineStep t.now work.old frame.now trace.old p o work.new trace.new result }
{
    let a = operand(eval(t, work, trace, frame, p));
    let Ok(x) = a else {
        return stopped(a);
    };
    let second = eval(t, work, trace, frame, moved(p, x.next, p.block));
    combine(o, x.number, second)
}

// What a branch gives, with the place after the branch that follows it.
pub(crate) fn pass_over(t: &[u8; SIZE], o: Result<Evaluated, Stop>) -> Result<Evaluated, Stop>
    ensures { result ≡ passed_over t.now o }
{
    let Ok(Evaluated { value: v, next: at }) = o else {
        return o;
    };
    Ok(Evaluated {
        value: v,
        next: skip_expr(t, at as usize) as u16,
    })
}

// The choice at a spot: a number, the branch for any but 0, the branch for 0. The other branch is passed over.
#[cycle(evaluation)]
pub(crate) fn eval_choose(
    t: &[u8; SIZE],
    work: &mut [u8],
    trace: &mut Trace,
    frame: &Frame,
    p: Spot,
) -> Result<Evaluated, Stop>
    requires { PartRunnable work.old frame.now trace.old p }
    ensures { ChooseStep t.now work.old frame.now trace.old p work.new trace.new result }
{
    let c = operand(eval(t, work, trace, frame, p));
    let Ok(x) = c else {
        return stopped(c);
    };
    if x.number == 0 {
        let second = skip_expr(t, x.next as usize);
        return eval(t, work, trace, frame, moved(p, second as u16, p.block));
    }
    pass_over(t, eval(t, work, trace, frame, moved(p, x.next, p.block)))
}

// The expression at a spot, where s stands: made of numbers, or none that is known.
#[cycle(evaluation)]
pub(crate) fn eval_number(
    t: &[u8; SIZE],
    work: &mut [u8],
    trace: &mut Trace,
    frame: &Frame,
    p: Spot,
    s: Shape,
) -> Result<Evaluated, Stop>
    requires { NumberRunnable t.now work.old frame.now trace.old p s }
    ensures { EvalStep t.now work.old frame.now trace.old p work.new trace.new result }
{
    match s {
        Shape::Number { k, n, next } => literal(k, n, next),
        Shape::Combine { o, next } => eval_combine(t, work, trace, frame, inner(p, next), o),
        Shape::Choose { next } => eval_choose(t, work, trace, frame, inner(p, next)),
        _ => Err(Stop::Stuck),
    }
}
