// The parts that are reached, merged: an object for each colour, as the part that leads it looks, in the bytes that canon reads.
// Not here: the colours (colours), the objects' canonical order (canon).
ghost use Rattle.std.specs.Prelude.{◌≡◌, ◌+◌, ◌*◌, ◌≤◌, length};
ghost use Rattle.canon.specs.Figures.{capacity, objects_size, object_size};
ghost use Rattle.batch.specs.Figures.{wide_size, byte_count};
ghost use Rattle.batch.specs.Colouring.{Room};
ghost use Rattle.batch.specs.Laying.{PartLaid, Laid};
ghost use Rattle.batch.specs.Merging.{Merged};

use crate::colours::{colour, shade};
use crate::layout::{PART, PER_BYTE};
use crate::reach::reach;
use canon::bytes::copy;
use canon::layout::{HEAD, NUMBERS, OBJECT, PER_OBJECT};

// Part p as object c.
pub(crate) fn lay_part(parts: &[u8], cs: &[u8], p: u8, raw: &mut [u8], c: u8)
    requires { (wide_size ≤ length parts.now) × (length cs.now ≡ byte_count) × (object_size * c + object_size ≤ length raw.old) }
    ensures { PartLaid parts.now cs.now p raw.old c object_size raw.new }
{
    copy(parts, PART * (p as usize), raw, OBJECT * (c as usize), PART);
    for j in HEAD..NUMBERS {
        raw[OBJECT * (c as usize) + j] = shade(cs, parts[PART * (p as usize) + j]);
    }
}

// The parts that lead the k colours, as objects.
pub(crate) fn lay_leads(parts: &[u8], cs: &[u8], lead: &[u8], k: u8, raw: &mut [u8])
    requires { Room parts.now cs.now lead.now × (k ≤ capacity) × (objects_size ≤ length raw.old) }
    ensures { Laid parts.now cs.now lead.now k raw.old raw.new }
{
    for c in 0..k {
        lay_part(parts, cs, lead[c as usize], raw, c);
    }
}

// The objects of the parts that are reached, equal ones merged, part 0 as object 0. How many they are; none if a block has no room for them.
pub(crate) fn merge(parts: &[u8], raw: &mut [u8]) -> Option<u8>
    requires { (wide_size ≤ length parts.now) × (objects_size ≤ length raw.old) }
    ensures { Merged parts.now raw.new result }
{
    let mut list = [0u8; PER_BYTE];
    let m = reach(parts, &mut list);
    let mut cs = [0u8; PER_BYTE];
    let mut lead = [0u8; PER_OBJECT];
    let k = colour(parts, &list, m, &mut cs, &mut lead)?;
    lay_leads(parts, &cs, &lead, k, raw);
    Some(k)
}
