// The colours of the parts that are reached: two have one colour exactly when they unfold to the same tree. By rounds: the first part of a colour leads it, and
// the parts that do not look as it does get colours after the last. A round without a new colour ends it, and so does a colour more than a block has room for: no
// value has as many objects. So there are at most as many rounds as objects, and each asks most parts once.
// Not here: the objects of a block, which are parted by lists of who refers to whom (canon).
ghost use Rattle.std.specs.Prelude.{◌≡◌, ◌≤◌, length};
ghost use Rattle.canon.specs.Figures.{capacity};
ghost use Rattle.batch.specs.Figures.{wide_size, byte_count};
ghost use Rattle.batch.specs.Reaching.{Reaches};
ghost use Rattle.batch.specs.Colouring.{look_in, Alikeness, FirstAlike, Room, Own, Coloured, RoundDone, Colours};

use crate::layout::{NUMBER_FIELD, PART, PER_BYTE};
use canon::bytes::same_plain;
use canon::layout::{CAPACITY, HEAD, NUMBER, NUMBERS, UNDETERMINED};

// A field's byte as it looks: the colour of the part that it holds, a number, or undetermined.
pub(crate) fn shade(cs: &[u8], b: u8) -> u8
    requires { length cs.now ≡ byte_count }
    ensures { result ≡ look_in cs.now b }
{
    if b < NUMBER_FIELD {
        return cs[b as usize];
    }
    if b == NUMBER_FIELD {
        return NUMBER;
    }
    UNDETERMINED
}

// Whether parts p and q are alike: of one colour, and look alike.
pub(crate) fn alike(parts: &[u8], cs: &[u8], p: u8, q: u8) -> bool
    requires { (wide_size ≤ length parts.now) × (length cs.now ≡ byte_count) }
    ensures { Alikeness parts.now cs.now p q result }
{
    if cs[p as usize] != cs[q as usize] {
        return false;
    }
    if !same_plain(parts, PART * (p as usize), PART * (q as usize)) {
        return false;
    }
    for j in HEAD..NUMBERS {
        let a = shade(cs, parts[PART * (p as usize) + j]);
        let b = shade(cs, parts[PART * (q as usize) + j]);
        if a != b {
            return false;
        }
    }
    true
}

// The first colour from c on, below top, whose leading part is alike p; top if there is none.
pub(crate) fn find_lead(parts: &[u8], cs: &[u8], lead: &[u8], c: u8, top: u8, p: u8) -> u8
    requires { Room parts.now cs.now lead.now × (c ≤ top) × (top ≤ capacity) }
    ensures { FirstAlike parts.now cs.now lead.now c top p result }
{
    for d in c..top {
        if alike(parts, cs, p, lead[d as usize]) {
            return d;
        }
    }
    top
}

// The colour of part p after a round that began with k colours and has made top: its own if it is alike the part that leads it.
pub(crate) fn next_colour(parts: &[u8], cs: &[u8], lead: &[u8], k: u8, top: u8, p: u8) -> u8
    requires { Room parts.now cs.now lead.now × Own cs.now lead.now k p × (k ≤ top) × (top ≤ capacity) }
    ensures { FirstAlike parts.now cs.now lead.now 0 top p result }
{
    let c = cs[p as usize];
    if alike(parts, cs, p, lead[c as usize]) {
        return c;
    }
    find_lead(parts, cs, lead, k, top, p)
}

// One round over the m listed parts: their next colours, and the parts that lead the new ones. How many colours there are then; none if a block has no room for so many.
pub(crate) fn round(
    parts: &[u8],
    list: &[u8],
    m: u8,
    cs: &[u8],
    k: u8,
    next: &mut [u8],
    lead: &mut [u8],
) -> Option<u8>
    requires { Room parts.now cs.now lead.old × (length next.old ≡ byte_count) × Reaches parts.now list.now m × Coloured parts.now list.now m cs.now lead.old k }
    ensures { RoundDone parts.now list.now m cs.now k next.new lead.new result }
{
    let mut top = k;
    for i in 0..m {
        let p = list[i as usize];
        let c = next_colour(parts, cs, lead, k, top, p);
        next[p as usize] = c;
        if c == top {
            if CAPACITY <= top {
                return None;
            }
            lead[top as usize] = p;
            top += 1;
        }
    }
    Some(top)
}

// The colours of the m listed parts, part 0 among them, and the part that leads each. How many they are; none if a block has no room for so many.
pub(crate) fn colour(parts: &[u8], list: &[u8], m: u8, cs: &mut [u8], lead: &mut [u8]) -> Option<u8>
    requires { Room parts.now cs.old lead.old × Reaches parts.now list.now m }
    ensures { Colours parts.now list.now m cs.new lead.new result }
{
    let mut next = [0u8; PER_BYTE];
    cs.copy_from_slice(&next);
    lead[0] = 0;
    let mut k: u8 = 1;
    loop {
        let top = round(parts, list, m, cs, k, &mut next, lead)?;
        if top == k {
            return Some(k);
        }
        cs.copy_from_slice(&next);
        k = top;
    }
}
