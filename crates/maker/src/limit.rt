// The limit on objects: whether a value has at most so many. Not here: how many a block has room for (canon, layout).
ghost use Rattle.std.specs.Prelude.{◌≡◌, false, ◌+◌, ◌*◌, ◌≤◌, length};
ghost use Rattle.canon.specs.Figures.{block_size, capacity, spare_block};
ghost use Rattle.values.specs.Layout.{Holds, lies_in};
ghost use Rattle.maker.specs.Laying.{FitsIn};

use crate::over::empty;
use crate::part::import;
use canon::layout::{BLOCK, COUNT, SPARE};
use values::ValueRef;

// Whether a value that does not lie in the spare block has at most `objects` objects. It has no more than its block; where that has more, what it leads to is
// brought into the spare block, which begins empty, and counted there.
pub(crate) fn fits(work: &mut [u8], v: ValueRef, objects: u8) -> bool
    requires { Holds work.old v × (lies_in spare_block v ≡ false) × (block_size * spare_block + block_size ≤ length work.old) × (objects ≤ capacity) }
    ensures { FitsIn work.old v objects work.new result }
{
    let ValueRef::Object(i, b) = v else {
        return true;
    };
    if work[BLOCK * (b as usize) + COUNT] <= objects {
        return true;
    }
    empty(work, SPARE);
    let Some(_) = import(work, b, i, SPARE) else {
        return false;
    };
    work[BLOCK * (SPARE as usize) + COUNT] <= objects
}
