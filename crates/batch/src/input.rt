// What the second text of a run gives a main: a value in a block, or refusal 14 or 15.
// Not here: its steps (lines, merge, judge), which main is given one (engine).
ghost use Rattle.std.specs.Prelude.{◌≤◌, length};
ghost use Rattle.canon.specs.Numbers.{graph_in, Placed};
ghost use Rattle.batch.specs.Figures.{wide_size};
ghost use Rattle.batch.specs.Inputs.{SomeTable, SomeParts, Room, Objects, PartsGiven, TextGiven};

use crate::judge::value_fits;
use crate::layout::WIDE;
use crate::lines::read_parts;
use crate::merge::merge;
use canon::colours::colour;
use canon::layout::{OBJECTS, PER_OBJECT};
use canon::number::put;
use classes::places::SIZE;
use cofj::Refusal;

// The value of k objects, from the first on, in block 0. Answers how many objects it has.
fn lay(raw: &[u8], k: u8, block: &mut [u8]) -> u8
    requires { Objects raw.now k block.old }
    ensures { Placed (graph_in raw.now k 0) block.old 0 block.new result }
{
    let mut cs = [0u8; PER_OBJECT];
    colour(raw, k, &mut cs);
    put(raw, k, &cs, 0, block, 0)
}

// What the parts give a main whose parameter has this class, where a value may have so many objects.
fn parts_input(
    parts: &[u8],
    t: &[u8; SIZE],
    class: u8,
    objects: u8,
    block: &mut [u8],
) -> Result<(), Refusal>
    requires { (wide_size ≤ length parts.now) × SomeParts parts.now × Room objects block.old }
    ensures { PartsGiven t.now parts.now class objects block.new result }
{
    let mut raw = [0u8; OBJECTS];
    let Some(k) = merge(parts, &mut raw) else {
        return Err(Refusal::UnfitParts);
    };
    let n = lay(&raw, k, block);
    if objects < n {
        return Err(Refusal::UnfitParts);
    }
    if !value_fits(block, t, class) {
        return Err(Refusal::UnfitParts);
    }
    Ok(())
}

// What the second text gives a main whose parameter has this class and tag 0, where a value may have so many objects: its value stands in the block, or the
// call is refused.
pub fn read_input(
    text: &[u8],
    t: &[u8; SIZE],
    class: u8,
    objects: u8,
    block: &mut [u8],
) -> Result<(), Refusal>
    requires { SomeTable t.now × Room objects block.old }
    ensures { TextGiven t.now text.now class objects block.new result }
{
    let mut parts = [0u8; WIDE];
    read_parts(text, t, &mut parts)?;
    parts_input(&parts, t, class, objects, block)
}
