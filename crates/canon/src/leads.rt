// Objects parted, with the tables for it: the first object of each class that is left, and the test that objects of one class look alike.
// Not here: how they are parted (parting).
ghost use Rattle.std.specs.Prelude.{◌+◌, ◌*◌, ◌<◌, ◌≤◌, length};
ghost use Rattle.canon.specs.Figures.{object_size};
ghost use Rattle.canon.specs.Tables.{copied, Turnable, Below};
ghost use Rattle.canon.specs.Layout.{Raw, Codes};
ghost use Rattle.canon.specs.Links.{AlikeTest};
ghost use Rattle.canon.specs.Parting.{Classes};
ghost use Rattle.canon.specs.Classing.{KnownTest, Leads, SteadyTest, Coarse};

use crate::bytes::same_plain;
use crate::layout::{HEAD, NUMBERS, OBJECT};
use crate::lift::turn;
use crate::links::link;
use crate::parting::{begin, part_fields, part_looks};
use crate::rows::{BLANK, FREE, LISTS, ROWS, Row};

// Whether object l is below i and of class d.
pub(crate) fn known(t: &[Row], i: u8, d: u8, l: u8) -> bool
    requires { i < length t.now }
    ensures { KnownTest t.now i d l result }
{
    l < i && t[(l + 1) as usize].class == d
}

// The first object of the class of each of n objects.
pub(crate) fn lead(t: &mut [Row], m: u8, n: u8, cs: &mut [u8])
    requires { Classes (n + 1) m t.old × (n ≤ length cs.old) }
    ensures { Leads t.old n cs.new }
{
    for i in 0..n {
        let d = t[(i + 1) as usize].class;
        let l = t[d as usize].note;
        if known(t, i, d, l) {
            cs[i as usize] = l;
        } else {
            t[d as usize].note = i;
            cs[i as usize] = i;
        }
    }
}

// Whether objects i and j look alike by their colours.
pub(crate) fn look_same(nodes: &[u8], cs: &[u8], i: u8, j: u8) -> bool
    requires { Turnable nodes.now (object_size * i) object_size cs.now × Turnable nodes.now (object_size * j) object_size cs.now }
    ensures { AlikeTest (copied cs.now) nodes.now i j result }
{
    if !same_plain(nodes, OBJECT * (i as usize), OBJECT * (j as usize)) {
        return false;
    }
    for k in HEAD..NUMBERS {
        let a = turn(cs, nodes[OBJECT * (i as usize) + k]);
        let b = turn(cs, nodes[OBJECT * (j as usize) + k]);
        if a != b {
            return false;
        }
    }
    true
}

// Whether each of n objects looks as the one of its colour does.
pub(crate) fn steady(nodes: &[u8], n: u8, cs: &[u8]) -> bool
    requires { Codes nodes.now n × Below n cs.now }
    ensures { SteadyTest nodes.now n cs.now result }
{
    for i in 0..n {
        let j = cs[i as usize];
        if j != i {
            if !look_same(nodes, cs, i, j) {
                return false;
            }
        }
    }
    true
}

// Colours of n objects that no two equal ones differ in: the first object of each class.
pub(crate) fn part(nodes: &[u8], n: u8, cs: &mut [u8])
    requires { Raw nodes.now n × (n ≤ length cs.old) }
    ensures { Coarse nodes.now n cs.new }
{
    let rows = n + 1;
    let mut t = [BLANK; ROWS];
    let mut looks = [FREE; ROWS];
    let mut fields = [[FREE; ROWS]; LISTS];
    let w = link(nodes, rows, &mut t, &mut looks, &mut fields);
    begin(&mut t, rows);
    let m = part_looks(&mut t, rows, &looks);
    let r = part_fields(&mut t, rows, m, &fields, w);
    lead(&mut t, r, n, cs);
}
