// Objects parted into classes until those of one class look alike: a class is parted by who refers into a class, and the smaller part is a new one (Hopcroft).
// Not here: who refers to whom (links), the test that it is done (steady).
ghost use Rattle.std.specs.Prelude.{◌≡◌, ◌<◌, ◌≤◌, length};
ghost use Rattle.canon.specs.Figures.{code_count};
ghost use Rattle.canon.specs.Rows.{row_at, link_at};
ghost use Rattle.canon.specs.Links.{Lists, AllLists};
ghost use Rattle.canon.specs.Parting.{Stood, Begun, Standing, Classes, Found, Brought, SameNotes, Into, Noted, Relabelled, LaidOut, Split, PartedLooks, PartedFields};

use crate::rows::{Fields, Link, Row};

// Object x stands at place p.
pub(crate) fn stand(t: &mut [Row], x: u8, p: u8)
    requires { (x < length t.old) × (p < length t.old) }
    ensures { Stood t.old x p t.new }
{
    t[p as usize].object_at = x;
    t[x as usize].place = p;
}

// Class c has the places from a to e, none of them in front.
pub(crate) fn lay_out(t: &mut [Row], c: u8, a: u8, e: u8)
    requires { c < length t.old }
    ensures { LaidOut t.old c a e t.new }
{
    t[c as usize].begin = a;
    t[c as usize].middle = a;
    t[c as usize].end = e;
}

// n objects in one class.
pub(crate) fn begin(t: &mut [Row], n: u8)
    requires { (0 < n) × (n ≤ length t.old) }
    ensures { Begun n t.new }
{
    for x in 0..n {
        t[x as usize].class = 0;
        stand(t, x, x);
    }
    lay_out(t, 0, 0, n);
}

// Brings object z, at place l of class c, to the class's middle a.
pub(crate) fn bring(t: &mut [Row], n: u8, m: u8, z: u8, c: u8, a: u8, l: u8)
    requires { Classes n m t.old × Found n m t.old z c a l }
    ensures { Brought n m t.old t.new (λ x. x ≡ z) × SameNotes n t.old t.new }
{
    let e = t[a as usize].object_at;
    stand(t, e, l);
    stand(t, z, a);
    t[c as usize].middle = a + 1;
}

// Brings object z to the front of its class. Notes the class if it is the first there, and answers how many are noted.
pub(crate) fn mark(t: &mut [Row], n: u8, m: u8, z: u8, k: u8) -> u8
    requires { Classes n m t.old × (z < n) × (k ≤ n) }
    ensures { Brought n m t.old t.new (λ x. x ≡ z) × SameNotes n t.old t.new × (result ≤ n) }
{
    let c = t[z as usize].class;
    let a = t[c as usize].middle;
    let l = t[z as usize].place;
    if l < a {
        return k;
    }
    let b = t[c as usize].begin;
    bring(t, n, m, z, c, a, l);
    if a != b {
        return k;
    }
    if n <= k {
        return k;
    }
    t[k as usize].marked = c;
    k + 1
}

// Brings all that refer to object v, by the field of these links, to the fronts of their classes.
pub(crate) fn mark_into(t: &mut [Row], n: u8, m: u8, links: &[Link], v: u8, k: u8) -> u8
    requires { Classes n m t.old × Lists n links.now × (0 < v) × (v < n) × (k ≤ n) }
    ensures { Brought n m t.old t.new (λ x. (link_at links.now x).target ≡ v) × SameNotes n t.old t.new × (result ≤ n) }
{
    let mut j = k;
    let mut z = links[v as usize].last;
    // each row tells the next: no range
    while 0 < z {
        j = mark(t, n, m, z, j);
        z = links[z as usize].before;
    }
    j
}

// Notes the objects of class s.
pub(crate) fn note(t: &mut [Row], n: u8, m: u8, s: u8)
    requires { Classes n m t.old × (s < m) }
    ensures { Noted t.old s (row_at t.old s).end t.new }
{
    let e = t[s as usize].end;
    let b = t[s as usize].begin;
    for p in b..e {
        let v = t[p as usize].object_at;
        t[p as usize].note = v;
    }
}

// Brings all that refer to an object of class s, by the field of these links, to the fronts of their classes.
pub(crate) fn mark_class(t: &mut [Row], n: u8, m: u8, links: &[Link], s: u8) -> u8
    requires { Classes n m t.old × Lists n links.now × (s < m) }
    ensures { Brought n m t.old t.new (Into links.now t.old s) × (result ≤ n) }
{
    note(t, n, m, s);
    let e = t[s as usize].end;
    let b = t[s as usize].begin;
    let mut k: u8 = 0;
    for p in b..e {
        let v = t[p as usize].note;
        if 0 < v {
            k = mark_into(t, n, m, links, v, k);
        }
    }
    k
}

// The objects at places a to e are of class m.
pub(crate) fn relabel(t: &mut [Row], n: u8, a: u8, e: u8, m: u8)
    requires { Standing n t.old × (a ≤ e) × (e ≤ n) }
    ensures { Relabelled n t.old a e m t.new }
{
    for p in a..e {
        let x = t[p as usize].object_at;
        t[x as usize].class = m;
    }
}

// Parts class d at its middle, if there are objects on both sides; the smaller side is a new class. Answers how many classes there are.
pub(crate) fn split(t: &mut [Row], n: u8, m: u8, d: u8) -> u8
    requires { Classes n m t.old × (d < m) }
    ensures { Split n t.old t.new m result }
{
    let a = t[d as usize].begin;
    let g = t[d as usize].middle;
    let e = t[d as usize].end;
    if g <= a {
        return m;
    }
    if e <= g {
        lay_out(t, d, a, e);
        return m;
    }
    if n <= m {
        lay_out(t, d, a, e);
        return m;
    }
    if g - a <= e - g {
        lay_out(t, d, g, e);
        lay_out(t, m, a, g);
        relabel(t, n, a, g, m);
        return m + 1;
    }
    lay_out(t, d, a, g);
    lay_out(t, m, g, e);
    relabel(t, n, g, e, m);
    m + 1
}

// The same for the k classes noted.
pub(crate) fn split_all(t: &mut [Row], n: u8, m: u8, k: u8) -> u8
    requires { Classes n m t.old × (k ≤ n) }
    ensures { Split n t.old t.new m result }
{
    let mut r = m;
    for i in 0..k {
        let d = t[i as usize].marked;
        if d < r {
            r = split(t, n, r, d);
        }
    }
    r
}

// Parts the classes by the first object that looks alike, to which these links lead.
pub(crate) fn part_looks(t: &mut [Row], n: u8, links: &[Link]) -> u8
    requires { Classes n 1 t.old × Lists n links.now }
    ensures { PartedLooks n links.now t.old t.new result }
{
    let mut m: u8 = 1;
    for v in 1..n {
        if 0 < links[v as usize].last {
            let k = mark_into(t, n, m, links, v, 0);
            m = split_all(t, n, m, k);
        }
    }
    m
}

// Parts the classes by who refers into class s, by each field below w.
pub(crate) fn part_by(t: &mut [Row], n: u8, m: u8, fields: &Fields, w: u8, s: u8) -> u8
    requires { Classes n m t.old × AllLists n fields.now × (w ≤ code_count) × (s < m) }
    ensures { PartedFields n fields.now t.old t.new m result }
{
    let mut r = m;
    for f in 0..w {
        let k = mark_class(t, n, r, &fields[f as usize], s);
        r = split_all(t, n, r, k);
    }
    r
}

// Parts the classes by who refers into them, the new ones too. The first class need not be looked at.
pub(crate) fn part_fields(t: &mut [Row], n: u8, m: u8, fields: &Fields, w: u8) -> u8
    requires { Classes n m t.old × AllLists n fields.now × (w ≤ code_count) }
    ensures { PartedFields n fields.now t.old t.new m result }
{
    let mut r = m;
    let mut s: u8 = 1;
    // r grows: no range
    while s < r {
        r = part_by(t, n, r, fields, w, s);
        s += 1;
    }
    r
}
