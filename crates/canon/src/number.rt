// The objects of a graph, merged by colour and numbered in the order met, in a block: its value.
// Not here: the colours (colours), the order (walk).
ghost use Rattle.std.specs.Prelude.{◌≡◌, ◌+◌, ◌*◌, ◌<◌, ◌≤◌, length, get_or};
ghost use Rattle.canon.specs.Figures.{object_size};
ghost use Rattle.canon.specs.Tables.{Filled, Below};
ghost use Rattle.canon.specs.Numbers.{number_in, Gatherable, Gathered, Above, Levels, Ready, graph_in, Placed};

use crate::bytes::copy;
use crate::layout::{BLOCK, COUNT, HEAD, LEVEL, NUMBER, OBJECT, PER_OBJECT, REACH};
use crate::lift::lift;
use crate::walk::visit;

// The number of an object of colour c: the colour's place in the order, which the table tells (in fixed memory: 0 for not met); m if it is not met.
pub(crate) fn number_of(met: &[u8], c: u8, m: u8) -> u8
    requires { c < length met.now }
    ensures { result ≡ number_in met.now m c }
{
    let p = met[c as usize];
    if p == 0 {
        return m;
    }
    p - 1
}

// The number of each of n objects.
pub(crate) fn numbers(cs: &[u8], n: u8, met: &[u8], m: u8, to: &mut [u8])
    requires { Below n cs.now × (n ≤ length met.now) × (n ≤ length to.old) }
    ensures { Filled (λ i. number_in met.now m (get_or cs.now i 0)) n to.new }
{
    for i in 0..n {
        to[i as usize] = number_of(met, cs[i as usize], m);
    }
}

// The objects that the order lists, renamed by the table, from a place of `dst` on. Each is made apart: so the machine moves the bytes that stay at once.
pub(crate) fn gather(nodes: &[u8], order: &[u8], m: u8, table: &[u8], dst: &mut [u8], to: usize)
    requires { Gatherable nodes.now order.now m table.now × (to + object_size * m ≤ length dst.old) }
    ensures { Gathered nodes.now order.now m table.now dst.old to dst.new }
{
    let mut object = [0u8; OBJECT];
    for j in 0..m {
        let c = order[j as usize];
        lift(nodes, OBJECT * (c as usize), OBJECT, table, &mut object, 0);
        copy(&object, 0, dst, to + OBJECT * (j as usize), OBJECT);
    }
}

// The greatest of m and the codes of the object at place p.
pub(crate) fn highest(work: &[u8], p: usize, m: u8) -> u8
    requires { p + object_size ≤ length work.now }
    ensures { Above work.now p m result }
{
    let a = work[p + HEAD].max(work[p + HEAD + 1]);
    let b = work[p + HEAD + 2].max(work[p + HEAD + 3]);
    m.max(a.max(b))
}

// A level for the n objects from a place on.
pub fn level_of(work: &[u8], at: usize, n: u8) -> u8
    requires { at + object_size * n ≤ length work.now }
    ensures { Levels work.now at n result }
{
    let mut m = NUMBER;
    for i in 0..n {
        m = highest(work, at + OBJECT * (i as usize), m);
    }
    m - NUMBER
}

// Writes the value of n objects with their colours, from the root on, to block `dst`. Answers with the number of its objects.
pub fn put(nodes: &[u8], n: u8, cs: &[u8], root: u8, work: &mut [u8], dst: u16) -> u8
    requires { Ready nodes.now n cs.now root work.old dst }
    ensures { Placed (graph_in nodes.now n root) work.old dst work.new result }
{
    let at = BLOCK * (dst as usize);
    let count = at + COUNT;
    let level = at + LEVEL;
    let reach = at + REACH;
    let mut order = [0u8; PER_OBJECT];
    let mut met = [0u8; PER_OBJECT];
    let m = visit(
        nodes,
        &cs[..n as usize],
        n + 1,
        root,
        &mut order,
        &mut met,
        0,
    );
    let mut table = [0u8; PER_OBJECT];
    numbers(cs, n, &met, m, &mut table);
    gather(nodes, &order, m, &table, work, at);
    let l = level_of(work, at, m);
    work[count] = m;
    work[level] = l;
    work[reach] = m;
    m
}
