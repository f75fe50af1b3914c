// Values compared: two objects of two blocks, and what they lead to, in step. Not here: equal objects of one block, which there are none of.
ghost use Rattle.std.specs.Prelude.{◌≡◌, ◌+◌, ◌*◌, ◌≤◌, length};
ghost use Rattle.cofj.specs.Values.{eq_graph, canon};
ghost use Rattle.canon.specs.Figures.{object_size, block_size};
ghost use Rattle.canon.specs.Layout.{Alike, alike_at, Inside, Block, graph_at};
ghost use Rattle.values.specs.Layout.{Holds, value_of};
ghost use Rattle.values.specs.Stepping.{after, step_code, CodeFits, Paired, Pair, ObjectStep, InStep};

use crate::ValueRef;
use canon::bytes::two_at;
use canon::layout::{BLOCK, FIRST_LEAF, HEAD, NUMBERS, OBJECT, PER_OBJECT};

// Meets two codes with the numbers beside them: they are equal, or objects that are partners or can become so. `partner` has y + 1 for an object with the partner y, 0 for one
// without (bytes of fixed memory); `queue` lists the objects that have one, `tail` of them. Answers how many there are then; none if they differ.
pub(crate) fn step_code(
    partner: &mut [u8],
    queue: &mut [u8],
    tail: u8,
    first: u8,
    m: u16,
    second: u8,
    n: u16,
) -> Option<u8>
    requires { CodeFits partner.old queue.old tail first second }
    ensures { after result partner.new queue.new ≡ step_code partner.old queue.old tail first m second n }
{
    if FIRST_LEAF <= first {
        if first != second {
            return None;
        }
        if m != n {
            return None;
        }
        return Some(tail);
    }
    if FIRST_LEAF <= second {
        return None;
    }
    let known = partner[first as usize];
    if known == 0 {
        partner[first as usize] = second + 1;
        queue[tail as usize] = first;
        return Some(tail + 1);
    }
    if known == second + 1 {
        return Some(tail);
    }
    None
}

// Whether the objects at places p and q have one class and as many fields.
pub fn alike(a: &[u8], p: usize, q: usize) -> bool
    requires { (p + object_size ≤ length a.now) × (q + object_size ≤ length a.now) }
    ensures { result ≡ alike_at a.now p q }
{
    if a[p] != a[q] {
        return false;
    }
    a[p + 1] == a[q + 1]
}

// Meets the fields of object x of block b and of its partner y of block c. Answers as `step_code`.
pub(crate) fn step_fields(
    work: &[u8],
    b: u16,
    x: u8,
    c: u16,
    y: u8,
    partner: &mut [u8],
    queue: &mut [u8],
    tail: u8,
) -> Option<u8>
    requires { Pair work.now b x c y partner.old queue.old tail × Alike work.now (block_size * b + object_size * x) (block_size * c + object_size * y) }
    ensures { ObjectStep work.now b x c y partner.old queue.old tail partner.new queue.new result }
{
    let p = BLOCK * (b as usize) + OBJECT * (x as usize);
    let q = BLOCK * (c as usize) + OBJECT * (y as usize);
    let count = work[p + 1];
    let mut t = tail;
    for k in 0..count {
        let first = work[p + HEAD + k as usize];
        let m = two_at(work, p + NUMBERS + 2 * (k as usize));
        let second = work[q + HEAD + k as usize];
        let n = two_at(work, q + NUMBERS + 2 * (k as usize));
        t = step_code(partner, queue, t, first, m, second, n)?;
    }
    Some(t)
}

// Meets object x of block b and its partner y of block c. Answers as `step_code`.
pub(crate) fn step_object(
    work: &[u8],
    b: u16,
    x: u8,
    c: u16,
    y: u8,
    partner: &mut [u8],
    queue: &mut [u8],
    tail: u8,
) -> Option<u8>
    requires { Pair work.now b x c y partner.old queue.old tail }
    ensures { ObjectStep work.now b x c y partner.old queue.old tail partner.new queue.new result }
{
    if alike(
        work,
        BLOCK * (b as usize) + OBJECT * (x as usize),
        BLOCK * (c as usize) + OBJECT * (y as usize),
    ) {
        return step_fields(work, b, x, c, y, partner, queue, tail);
    }
    None
}

// Meets the objects of the queue and their partners, those too that are added. Answers whether each unfolds to its partner's tree; then the table has them all.
// The table may have partners to begin with that are known to be so and are not in the queue.
pub fn in_step(work: &[u8], b: u16, c: u16, partner: &mut [u8], queue: &mut [u8]) -> bool
    requires { Block work.now b × Block work.now c × Paired work.now b c partner.old queue.old 1 }
    ensures { InStep work.now b c partner.old partner.new result }
{
    let mut head: u8 = 0;
    let mut tail: u8 = 1;
    // the queue grows while it is gone over: no range
    while head < tail {
        let x = queue[head as usize];
        let y = partner[x as usize];
        let Some(t) = step_object(work, b, x, c, y - 1, partner, queue, tail) else {
            return false;
        };
        tail = t;
        head += 1;
    }
    true
}

// The same as `same_trees`, for objects of two blocks: they are the first partners.
pub(crate) fn roots_in_step(work: &[u8], b: u16, i: u8, c: u16, j: u8) -> bool
    requires { Inside work.now b i × Inside work.now c j }
    ensures { result ≡ eq_graph (canon (graph_at work.now b i)) (canon (graph_at work.now c j)) }
{
    let mut partner = [0u8; PER_OBJECT];
    let mut queue = [0u8; PER_OBJECT];
    partner[i as usize] = j + 1;
    queue[0] = i;
    in_step(work, b, c, &mut partner, &mut queue)
}

// Whether object i of block b and object j of block c unfold to the same tree.
pub(crate) fn same_trees(work: &[u8], b: u16, i: u8, c: u16, j: u8) -> bool
    requires { Inside work.now b i × Inside work.now c j }
    ensures { result ≡ eq_graph (canon (graph_at work.now b i)) (canon (graph_at work.now c j)) }
{
    if b == c {
        return i == j;
    }
    if alike(
        work,
        BLOCK * (b as usize) + OBJECT * (i as usize),
        BLOCK * (c as usize) + OBJECT * (j as usize),
    ) {
        return roots_in_step(work, b, i, c, j);
    }
    false
}

// Whether two references stand for one value.
pub fn equal(work: &[u8], a: ValueRef, b: ValueRef) -> bool
    requires { Holds work.now a × Holds work.now b }
    ensures { result ≡ eq_graph (value_of work.now a) (value_of work.now b) }
{
    match (a, b) {
        (ValueRef::Object(i, x), ValueRef::Object(j, y)) => same_trees(work, x, i, y, j),
        (ValueRef::Mark(k), ValueRef::Mark(l)) => k == l,
        (ValueRef::Number(m), ValueRef::Number(n)) => m == n,
        (ValueRef::Undetermined, ValueRef::Undetermined) => true,
        _ => false,
    }
}
