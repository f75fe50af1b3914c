// The open left-side calls, the oldest first, and the fuel left after them.
// Not here: which call is met again (met).
ghost use Rattle.std.specs.Prelude.{◌≡◌, ◌<◌};
ghost use Rattle.evaluator.specs.Figures.{call_limit};
ghost use Rattle.evaluator.specs.State.{side_call, CallPut};

use crate::spot::DEPTH;
use values::ValueRef;

// An open call: its receiver, its name, its first n arguments, and what meeting it again gives.
#[derive(Clone, Copy)]
pub struct OpenCall {
    pub receiver: ValueRef,
    pub name: u8,
    pub args: [ValueRef; 3],
    pub n: u8,
    pub gives: ValueRef,
}

// how many calls may be open
pub const CALLS: usize = DEPTH as usize;

// The open calls and the fuel left. How many are open is told by where an evaluation stands (spot); what stands in the places after them is not read.
#[derive(Drop)]
pub struct Trace {
    pub calls: [OpenCall; CALLS],
    pub fuel: u16,
}

// No calls, and this fuel.
pub(crate) fn fresh(fuel: u16) -> Trace
    ensures { result.fuel ≡ fuel }
{
    let none = OpenCall {
        receiver: ValueRef::Undetermined,
        name: 0,
        args: [ValueRef::Undetermined; 3],
        n: 0,
        gives: ValueRef::Undetermined,
    };
    Trace {
        calls: [none; CALLS],
        fuel,
    }
}

// The call of m on v with the first n of these arguments, as call k: meeting it again gives its mark.
pub(crate) fn side_call(v: ValueRef, m: u8, args: [ValueRef; 3], n: u8, k: u8) -> OpenCall
    ensures { result ≡ side_call v m args n k }
{
    OpenCall {
        receiver: v,
        name: m,
        args,
        n,
        gives: ValueRef::Mark(k),
    }
}

// Call k becomes this one.
pub(crate) fn push(trace: &mut Trace, k: u8, c: &OpenCall)
    requires { k < call_limit }
    ensures { CallPut trace.old k c.now trace.new }
{
    trace.calls[k as usize] = *c;
}
