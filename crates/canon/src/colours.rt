// The objects' colours: by parting, and by rounds from there if objects of one class did not look alike.
// Not here: how objects are parted (parting, leads); a new object over one value, which needs no colours (crate maker, over).
ghost use Rattle.std.specs.Prelude.{◌≡◌, ◌+◌, ◌*◌, ◌<◌, ◌≤◌, length, take};
ghost use Rattle.cofj.specs.Values.{refine, colours};
ghost use Rattle.canon.specs.Figures.{object_size};
ghost use Rattle.canon.specs.Layout.{nodes_in, Raw};
ghost use Rattle.canon.specs.Tables.{Filled, Below};
ghost use Rattle.canon.specs.Rounds.{Looks, place_is};
ghost use Rattle.canon.specs.Classing.{Coarse};

use crate::bytes::{copy, same_object};
use crate::layout::{OBJECT, OBJECTS, PER_OBJECT};
use crate::leads::{part, steady};
use crate::lift::lift;

// The first object that looks as object i does.
pub(crate) fn place(looks: &[u8], i: u8, n: u8) -> u8
    requires { Looks looks.now n × (i < n) }
    ensures { result ≡ place_is looks.now n i }
{
    for j in 0..i {
        if same_object(looks, OBJECT * (i as usize), looks, OBJECT * (j as usize)) {
            return j;
        }
    }
    i
}

// The places of the first n objects.
pub(crate) fn places(looks: &[u8], n: u8, next: &mut [u8])
    requires { Looks looks.now n × (n ≤ length next.old) }
    ensures { Filled (λ i. place_is looks.now n i) n next.new }
{
    for i in 0..n {
        next[i as usize] = place(looks, i, n);
    }
}

// The colours of one round more, to `next`.
pub(crate) fn round(nodes: &[u8], n: u8, cs: &[u8], looks: &mut [u8], next: &mut [u8])
    requires { Raw nodes.now n × Below n cs.now × (object_size * n ≤ length looks.old) × (n ≤ length next.old) }
    ensures { take n next.new ≡ refine (nodes_in nodes.now 0 n) (take n cs.now) }
{
    lift(nodes, 0, OBJECT * (n as usize), cs, looks, 0);
    places(looks, n, next);
}

// Rounds from colours that no two equal objects differ in, until nothing changes: then two objects have one colour exactly when they unfold to the same tree.
pub(crate) fn settle(nodes: &[u8], n: u8, cs: &mut [u8])
    requires { Raw nodes.now n × Coarse nodes.now n cs.old × (n ≤ length cs.old) }
    ensures { take n cs.new ≡ colours (nodes_in nodes.now 0 n) }
{
    let mut looks = [0u8; OBJECTS];
    let mut next = [0u8; PER_OBJECT];
    let rounds = (n as usize) * (n as usize) + 1;
    for _k in 0..rounds {
        round(nodes, n, cs, &mut looks, &mut next);
        if cs[..n as usize] == next[..n as usize] {
            return;
        }
        copy(&next, 0, cs, 0, n as usize);
    }
}

// The colours of the n objects of a block, by parting. That rounds are ever needed after it was never seen; the test spares a proof that they are not.
pub fn colour(raw: &[u8], n: u8, cs: &mut [u8])
    requires { Raw raw.now n × (n ≤ length cs.old) }
    ensures { take n cs.new ≡ colours (nodes_in raw.now 0 n) }
{
    part(raw, n, cs);
    if steady(raw, n, cs) {
        return;
    }
    settle(raw, n, cs);
}
