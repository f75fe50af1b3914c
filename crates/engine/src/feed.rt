// What the second text of a run gives its main: refusals 14 and 15. An `03` main takes none, an `04` main a value.
// Not here: how a text becomes a value (batch), when it is asked for (run).
ghost use Rattle.std.specs.Prelude.{◌≤◌, length};
ghost use Rattle.canon.specs.Figures.{block_size};
ghost use Rattle.batch.specs.Inputs.{SomeTable};
ghost use Rattle.engine.specs.Feeding.{TextFed};

use batch::input::read_input;
use classes::methods::input_type;
use classes::places::SIZE;
use cofj::Refusal;

// How many objects a value may have.
const OBJECTS: u8 = 32;

// Whether the second text gives main of a table's bytes a value, which stands in the block. An empty text counts as none.
pub(crate) fn feed(t: &[u8; SIZE], input: &[u8], block: &mut [u8]) -> Result<bool, Refusal>
    requires { SomeTable t.now × (block_size ≤ length block.old) }
    ensures { TextFed t.now input.now block.new result }
{
    if let Some(w) = input_type(t) {
        read_input(input, t, w.class, OBJECTS, block)?;
        return Ok(true);
    }
    if input.len() != 0 {
        return Err(Refusal::BadParts);
    }
    Ok(false)
}
