// Who refers to whom by which field, in lists: numbers are rows, an object's number and one, and 0 is none; n counts rows, so there are n - 1 objects.
// A list more leads to the first object that looks alike.
// Not here: what is done with them (parting).
ghost use Rattle.std.specs.Prelude.{◌≡◌, ◌+◌, ◌-◌, ◌*◌, ◌<◌, ◌≤◌, length, get_or};
ghost use Rattle.canon.specs.Figures.{object_size, head_size, code_count, first_leaf, capacity, hash_count};
ghost use Rattle.canon.specs.Tables.{Zeros};
ghost use Rattle.canon.specs.Layout.{Codes};
ghost use Rattle.canon.specs.Links.{Hung, looked, shown, AlikeTest, hash_plain, hash_of, target_of, HungOn, Sought, LikeBefore, GroupedAll, ReferredTo, Referred, Free, AllFree, Unhung, Linked};

use crate::bytes::{eight_at, same_plain};
use crate::layout::{CODES, FIRST_LEAF, HEAD, NUMBERS, OBJECT};
use crate::rows::{Fields, Link, Row};

// how many hashes there are
const HASHES: u8 = 32;

// the same as the length of a table with a byte for each
const LASTS: usize = HASHES as usize;

// what an object's numbers are divided by for its hash
const HASHED: u64 = 31;

// A code as it looks at first: all objects alike.
pub(crate) fn show(b: u8) -> u8
    ensures { result ≡ looked b }
{
    if b < FIRST_LEAF {
        return 0;
    }
    b
}

// Whether objects i and j look alike at first.
pub(crate) fn look_alike(raw: &[u8], i: u8, j: u8) -> bool
    requires { (object_size * i + object_size ≤ length raw.now) × (object_size * j + object_size ≤ length raw.now) }
    ensures { AlikeTest shown raw.now i j result }
{
    if !same_plain(raw, OBJECT * (i as usize), OBJECT * (j as usize)) {
        return false;
    }
    for k in HEAD..NUMBERS {
        let a = show(raw[OBJECT * (i as usize) + k]);
        let b = show(raw[OBJECT * (j as usize) + k]);
        if a != b {
            return false;
        }
    }
    true
}

// A number for its class and its fields' numbers.
pub(crate) fn hash_plain(raw: &[u8], i: u8) -> u8
    requires { object_size * i + object_size ≤ length raw.now }
    ensures { result ≡ hash_plain raw.now (object_size * i) }
{
    let x = eight_at(raw, OBJECT * (i as usize) + NUMBERS);
    raw[OBJECT * (i as usize)] % HASHES + (x % HASHED) as u8
}

// A number that tells most looks apart.
pub(crate) fn hash(raw: &[u8], i: u8) -> u16
    requires { object_size * i + object_size ≤ length raw.now }
    ensures { result ≡ hash_of raw.now i }
{
    let a = show(raw[OBJECT * (i as usize) + 2]);
    let b = show(raw[OBJECT * (i as usize) + 3]);
    let c = show(raw[OBJECT * (i as usize) + 4]);
    let d = show(raw[OBJECT * (i as usize) + 5]);
    let e = hash_plain(raw, i);
    (7 * (a as u16) + 13 * (b as u16) + 29 * (c as u16) + 5 * (d as u16) + (e as u16))
        % (HASHES as u16)
}

// Row x refers to row v.
pub(crate) fn hang(links: &mut [Link], n: u8, x: u8, v: u8)
    requires { Hung n x links.old × (0 < x) × (x < n) × (v < n) }
    ensures { HungOn n x v links.old links.new }
{
    links[x as usize].target = v;
    if v == 0 {
        return;
    }
    links[x as usize].before = links[v as usize].last;
    links[v as usize].last = x;
}

// The first row of those that look as row x does, if one below x does, which are listed from `from` on; else x.
pub(crate) fn like_before(
    raw: &[u8],
    t: &[Row],
    links: &[Link],
    n: u8,
    x: u8,
    h: u16,
    from: u8,
) -> u8
    requires { Sought raw.now t.now links.now n x h from }
    ensures { LikeBefore raw.now n x links.now result }
{
    let mut z = from;
    // each row tells the next: no range
    while 0 < z {
        if look_alike(raw, x - 1, z - 1) {
            return links[z as usize].target;
        }
        z = t[z as usize].note;
    }
    x
}

// Hangs the rows up by their looks.
pub(crate) fn group(raw: &[u8], n: u8, t: &mut [Row], links: &mut [Link], last: &mut [u8])
    requires { Codes raw.now (n - 1) × Hung n 1 links.old × (0 < n) × (n ≤ length t.old) × Zeros hash_count last.old × (hash_count ≤ length last.old) }
    ensures { GroupedAll raw.now n links.old links.new }
{
    for x in 1..n {
        let h = hash(raw, x - 1);
        let l = last[h as usize];
        let r = like_before(raw, t, links, n, x, h, l);
        hang(links, n, x, r);
        t[x as usize].note = l;
        last[h as usize] = x;
    }
}

// The row that field f of object i leads to; 0 if it leads to none, as it stands in the tables of fixed memory.
pub(crate) fn target_row(raw: &[u8], i: u8, f: u8) -> u8
    requires { (object_size * i + object_size ≤ length raw.now) × (f < code_count) × (get_or raw.now (object_size * i + head_size + f) 0 < first_leaf → get_or raw.now (object_size * i + head_size + f) 0 < capacity) }
    ensures { result ≡ target_of (get_or raw.now (object_size * i + head_size + f) 0) }
{
    let b = raw[OBJECT * (i as usize) + HEAD + f as usize];
    if b < FIRST_LEAF {
        return b + 1;
    }
    0
}

// Hangs the rows up by field f. Answers whether one leads to an object.
pub(crate) fn refer_field(raw: &[u8], n: u8, f: u8, links: &mut [Link]) -> bool
    requires { Codes raw.now (n - 1) × (0 < n) × (f < code_count) × Hung n 1 links.old }
    ensures { ReferredTo raw.now n f n links.old links.new }
{
    let mut some = false;
    for x in 1..n {
        let v = target_row(raw, x - 1, f);
        hang(links, n, x, v);
        if 0 < v {
            some = true;
        }
    }
    some
}

// The same for all four fields. Answers how many of them are to be looked at.
pub(crate) fn refer(raw: &[u8], n: u8, fields: &mut Fields) -> u8
    requires { Codes raw.now (n - 1) × (0 < n) × Unhung n fields.old }
    ensures { Referred raw.now n 4 fields.old fields.new × (result ≤ code_count) }
{
    let mut w: u8 = 0;
    for f in 0..CODES {
        if refer_field(raw, n, f, &mut fields[f as usize]) {
            w = f + 1;
        }
    }
    w
}

// All of it, in tables that are empty at first.
pub(crate) fn link(raw: &[u8], n: u8, t: &mut [Row], looks: &mut [Link], fields: &mut Fields) -> u8
    requires { Codes raw.now (n - 1) × (0 < n) × (n ≤ length t.old) × Free n looks.old × AllFree n fields.old }
    ensures { Linked raw.now n looks.new fields.new × (result ≤ code_count) }
{
    let mut last = [0u8; LASTS];
    group(raw, n, t, looks, &mut last);
    refer(raw, n, fields)
}
