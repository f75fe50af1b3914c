// The order in which the colours are first met, depth first, and a table of their places in it. Not here: the objects renumbered in it.
ghost use Rattle.std.specs.Prelude.{◌≡◌, ◌+◌, ◌*◌, ◌<◌, ◌≤◌, length, take};
ghost use Rattle.canon.specs.Figures.{first_leaf};
ghost use Rattle.canon.specs.Walking.{Walkable, Listed, walk_ref, walk_fields};

use crate::layout::{CODES, FIRST_LEAF, HEAD, OBJECT};

// Meets the object that the code r stands for, if it is new, and then its fields.
#[cycle(fields_visit)]
pub(crate) fn visit(
    nodes: &[u8],
    cs: &[u8],
    k: u8,
    r: u8,
    order: &mut [u8],
    met: &mut [u8],
    m: u8,
) -> u8
    requires { Walkable nodes.now cs.now order.old met.old × Listed (length cs.now) order.old met.old m × (r < first_leaf → r < length cs.now) × (length (walk_ref nodes.now cs.now k r (take m order.old)) ≤ length cs.now) }
    ensures { (take result order.new ≡ walk_ref nodes.now cs.now k r (take m order.old)) × Listed (length cs.now) order.new met.new result }
{
    if k == 0 {
        return m;
    }
    if FIRST_LEAF <= r {
        return m;
    }
    let c = cs[r as usize];
    if met[c as usize] != 0 {
        return m;
    }
    order[m as usize] = c;
    met[c as usize] = m + 1;
    fields(nodes, cs, k - 1, c, 0, order, met, m + 1)
}

// Meets the fields of object c, from field f on.
#[cycle(fields_visit)]
pub(crate) fn fields(
    nodes: &[u8],
    cs: &[u8],
    k: u8,
    c: u8,
    f: u8,
    order: &mut [u8],
    met: &mut [u8],
    m: u8,
) -> u8
    requires { Walkable nodes.now cs.now order.old met.old × Listed (length cs.now) order.old met.old m × (c < length cs.now) × (length (walk_fields nodes.now cs.now k c f (take m order.old)) ≤ length cs.now) }
    ensures { (take result order.new ≡ walk_fields nodes.now cs.now k c f (take m order.old)) × Listed (length cs.now) order.new met.new result }
{
    if CODES <= f {
        return m;
    }
    let at = OBJECT * (c as usize);
    if nodes[at + 1] <= f {
        return m;
    }
    let r = nodes[at + HEAD + f as usize];
    let t = visit(nodes, cs, k, r, order, met, m);
    fields(nodes, cs, k, c, f + 1, order, met, t)
}
