// Running main: its input the only variable, no open calls, the first block after those with the objects without fields and with the input.
// Not here: the report of its outcome (report).
ghost use Rattle.std.specs.Prelude.{◌≡◌, ◌≤◌, length};
ghost use Rattle.evaluator.specs.Figures.{work_room};
ghost use Rattle.evaluator.specs.Answers.{out_with};
ghost use Rattle.evaluator.specs.Main.{Given, Laid, Runs};

use crate::Ran;
use crate::eval::eval;
use crate::frame::main_frame;
use crate::spot::{DEPTH, INPUT_BLOCK, MAIN_BLOCK, NESTING, OBJECTS, Spot};
use crate::trace::fresh;
use canon::bytes::copy;
use canon::layout::BLOCK;
use classes::methods::main_place;
use classes::places::SIZE;
use maker::fieldless::lay_fieldless;

// The blocks that main begins with: the objects without fields, and the input, if there is one, as it lies in `block`.
pub(crate) fn lay(work: &mut [u8], fed: bool, block: &[u8; BLOCK])
    requires { (work_room ≤ length work.old) × Given fed block.now }
    ensures { Laid fed block.now work.old work.new }
{
    lay_fieldless(work);
    if !fed {
        return;
    }
    copy(&block[..], 0, work, BLOCK * (INPUT_BLOCK as usize), BLOCK);
}

// The outcome of main with this fuel and the input in `block`, if one is given.
pub(crate) fn run(t: &[u8; SIZE], work: &mut [u8], fuel: u16, fed: bool, block: &[u8; BLOCK]) -> Ran
    requires { (work_room ≤ length work.old) × Given fed block.now }
    ensures { Runs t.now work.old fuel fed block.now work.new (out_with result.fuel result.outcome) }
{
    lay(work, fed, block);
    let mut trace = fresh(fuel);
    let frame = main_frame(fed);
    let p = Spot {
        at: main_place(t) as u16,
        block: MAIN_BLOCK,
        nesting: NESTING,
        calls: DEPTH,
        opened: 0,
        objects: OBJECTS,
    };
    let outcome = eval(t, work, &mut trace, &frame, p);
    Ran {
        outcome,
        fuel: trace.fuel,
    }
}
