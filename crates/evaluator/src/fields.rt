// Fields of fields: how many begin at a place. Not here: what they are selected of (eval).
ghost use Rattle.std.specs.Prelude.{◌<◌};
ghost use Rattle.evaluator.specs.Chains.{Chain};

use classes::places::SIZE;
use classes::shape::is_field;

// How many fields of fields begin at `at`, within the nesting left.
pub(crate) fn fields_at(t: &[u8; SIZE], at: usize, left: u8) -> u8
    requires { at < 65536 }
    ensures { Chain t.now at left result }
{
    for d in 0..left {
        if !is_field(t, at + 2 * (d as usize)) {
            return d;
        }
    }
    left
}
