// A call met again: an open call with the same receiver, name and arguments, the newest first.
// Not here: when two values are equal (values), what is done with a call that is met (call).
ghost use Rattle.std.specs.Prelude.{◌≡◌, ◌≤◌};
ghost use Rattle.cofj.specs.Values.{eq_graphs};
ghost use Rattle.cofj.specs.Running.{open_mark};
ghost use Rattle.values.specs.Layout.{Holds, value_of};
ghost use Rattle.maker.specs.Laying.{PartsHeld, values_from};
ghost use Rattle.evaluator.specs.State.{apart_of, ApartTest, ReceiverTest, OtherTest, CallHolds, CallsHold, call_in, same_of, trace_in, met_of};

use crate::trace::{OpenCall, Trace};
use values::ValueRef;
use values::lockstep::equal;

// Whether two values are different objects of one block, or different numbers: it costs no comparison of objects.
pub(crate) fn apart(v: ValueRef, w: ValueRef) -> bool
    ensures { result ≡ apart_of v w }
{
    match (v, w) {
        (ValueRef::Object(i, b), ValueRef::Object(j, c)) => b == c && i != j,
        (ValueRef::Number(x), ValueRef::Number(y)) => x != y,
        _ => false,
    }
}

// True only if two values are apart, told of objects alone: the receivers of calls are objects, and looking for numbers too costs a call up to a fifth.
fn objects_apart(v: ValueRef, w: ValueRef) -> bool
    ensures { ReceiverTest v w result }
{
    match (v, w) {
        (ValueRef::Object(i, b), ValueRef::Object(j, c)) => b == c && i != j,
        _ => false,
    }
}

// Whether the first n arguments are the same.
pub(crate) fn same_args(work: &[u8], a: &[ValueRef; 3], b: &[ValueRef; 3], n: u8) -> bool
    requires { PartsHeld work.now a.now n × PartsHeld work.now b.now n × (n ≤ 3) }
    ensures { result ≡ eq_graphs (values_from work.now a.now 0 n) (values_from work.now b.now 0 n) }
{
    for i in 0..n {
        if !equal(work, a[i as usize], b[i as usize]) {
            return false;
        }
    }
    true
}

// Whether an open call is the same call as this.
pub(crate) fn same_call(work: &[u8], o: &OpenCall, c: &OpenCall) -> bool
    requires { CallHolds work.now o.now × CallHolds work.now c.now × (c.now.n ≤ 3) }
    ensures { result ≡ same_of (call_in work.now 0 o.now) (value_of work.now c.now.receiver) c.now.name (values_from work.now c.now.args 0 c.now.n) }
{
    if o.name != c.name {
        return false;
    }
    if o.n != c.n {
        return false;
    }
    if !equal(work, o.receiver, c.receiver) {
        return false;
    }
    same_args(work, &o.args, &c.args, c.n)
}

// True only if one of the first n arguments is apart from the other.
pub(crate) fn args_apart(a: &[ValueRef; 3], b: &[ValueRef; 3], n: u8) -> bool
    requires { n ≤ 3 }
    ensures { ApartTest a.now b.now n result }
{
    for k in 0..n {
        if apart(a[k as usize], b[k as usize]) {
            return true;
        }
    }
    false
}

// True only if an open call is not the same call as this, told by its name, its count, or a receiver or an argument that is apart.
pub(crate) fn other_call(o: &OpenCall, c: &OpenCall) -> bool
    requires { c.now.n ≤ 3 }
    ensures { OtherTest o.now c.now result }
{
    o.name != c.name
        || o.n != c.n
        || objects_apart(o.receiver, c.receiver)
        || args_apart(&o.args, &c.args, c.n)
}

// What meeting the newest of the first k open calls gives that is the same call as this; `None` if there is none.
pub(crate) fn open_call(work: &[u8], trace: &Trace, k: u8, c: &OpenCall) -> Option<ValueRef>
    requires { CallsHold work.now trace.now k × CallHolds work.now c.now × (c.now.n ≤ 3) }
    ensures { result ≡ met_of (open_mark (trace_in work.now trace.now k) (value_of work.now c.now.receiver) c.now.name (values_from work.now c.now.args 0 c.now.n)) }
{
    for j in (0..k).rev() {
        let o = &trace.calls[j as usize];
        if !other_call(o, c) && same_call(work, o, c) {
            return Some(o.gives);
        }
    }
    None
}
