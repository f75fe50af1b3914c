// The method that a call names, or that it is stuck. Not here: lookup along the parents (classes).
ghost use Rattle.values.specs.Layout.{Holds};
ghost use Rattle.evaluator.specs.Calling.{FindsTarget};

use canon::layout::{BLOCK, OBJECT};
use classes::methods::{Found, method_with};
use classes::places::SIZE;
use values::ValueRef;

// The method m with n parameters of the class of v, if v is an object that has it. Classes without a row have no methods.
pub(crate) fn find(t: &[u8; SIZE], work: &[u8], v: ValueRef, m: u8, n: u8) -> Option<Found>
    requires { Holds work.now v }
    ensures { FindsTarget t.now work.now v m n result }
{
    let ValueRef::Object(i, b) = v else {
        return None;
    };
    let c = work[BLOCK * (b as usize) + OBJECT * (i as usize)];
    if 3 < n {
        return None;
    }
    method_with(t, c, m, n)
}
