// The objects of a part sorted out: which are objects of the host, and which are new to it. An object is told by its fields where they are told, and looked
// for in the host where it leads back to itself. Nothing is written to the host.
// What is sorted goes from function to function as it lies, work, blocks, list and tables: of a struct with slices each clause would say `.entry.list.now` for `list.now`.
// Not here: the new ones added (join). The order in which objects are looked at decides the time, not the answer.
ghost use Rattle.std.specs.Prelude.{◌≡◌, ℕ, ◌+◌, ◌*◌, ◌<◌, length, get_or};
ghost use Rattle.canon.specs.Figures.{first_leaf, capacity};
ghost use Rattle.canon.specs.Layout.{Block, Inside};
ghost use Rattle.maker.specs.Sorting.{Sorting, Onward, Settling, ByFields, SortedFrom, Listed, turn_in, OpenIs, NewIs, LeadsIs, TurnedIs};

use crate::NOT_TOLD;
use crate::object::NewObject;
use crate::over::find;
use crate::seek::seek;
use canon::bytes::eight_at;
use canon::layout::{BLOCK, BYTE, CODES, COUNT, FIRST_LEAF, HEAD, NUMBERS, OBJECT, THREE_BYTES};

// Whether nothing is known of object x.
pub(crate) fn is_open(x: u8, told: &[u8], fresh: &[bool]) -> bool
    requires { (x < length told.now) × (x < length fresh.now) }
    ensures { OpenIs told.now fresh.now x result }
{
    if told[x as usize] != 0 {
        return false;
    }
    !fresh[x as usize]
}

// Whether a code is that of an object marked as new.
pub(crate) fn is_new(c: u8, fresh: &[bool]) -> bool
    requires { c < first_leaf → c < length fresh.now }
    ensures { NewIs fresh.now c result }
{
    if FIRST_LEAF <= c {
        return false;
    }
    fresh[c as usize]
}

// Whether a field of object x of block src is.
pub(crate) fn leads_new(work: &[u8], src: u16, x: u8, fresh: &[bool]) -> bool
    requires { Inside work.now src x × (length fresh.now ≡ capacity) }
    ensures { LeadsIs work.now src x fresh.now result }
{
    let p = BLOCK * (src as usize) + OBJECT * (x as usize) + HEAD;
    for k in 0..CODES {
        if is_new(work[p + k as usize], fresh) {
            return true;
        }
    }
    false
}

// A code of the part in the host; NOT_TOLD for an object that is not told.
pub(crate) fn turn(told: &[u8], c: u8) -> u8
    requires { c < first_leaf → c < length told.now }
    ensures { result ≡ turn_in told.now c }
{
    if FIRST_LEAF <= c {
        return c;
    }
    let k = told[c as usize];
    if k == 0 {
        return NOT_TOLD;
    }
    k - 1
}

// The codes of object x of block src in the host, as one number, if all are told.
pub(crate) fn turn_fields(work: &[u8], src: u16, x: u8, told: &[u8]) -> Option<u32>
    requires { Inside work.now src x × (length told.now ≡ capacity) }
    ensures { TurnedIs work.now src x told.now result }
{
    let p = BLOCK * (src as usize) + OBJECT * (x as usize) + HEAD;
    let mut w: u32 = 0;
    for k in (0..CODES).rev() {
        let r = turn(told, work[p + k as usize]);
        if r == NOT_TOLD {
            return None;
        }
        w = (r as u32) + BYTE * (w % THREE_BYTES);
    }
    Some(w)
}

// Whether a field of object x of block src is another object that is not told.
pub(crate) fn leads_on(work: &[u8], src: u16, x: u8, told: &[u8]) -> bool
    requires { Inside work.now src x × (length told.now ≡ capacity) }
{
    let p = BLOCK * (src as usize) + OBJECT * (x as usize) + HEAD;
    for k in 0..CODES {
        let c = work[p + k as usize];
        if c != x {
            if turn(told, c) == NOT_TOLD {
                return true;
            }
        }
    }
    false
}

// What its fields tell of object x: it is new if one of them is; if all are told, it is the host's object with these fields, or new if there is none. Answers
// whether they tell.
pub(crate) fn by_fields(
    work: &[u8],
    src: u16,
    x: u8,
    host: u16,
    list: &[u8],
    m: u8,
    told: &mut [u8],
    fresh: &mut [bool],
) -> bool
    requires { Sorting work.now src host list.now m told.old fresh.old × Listed list.now m x }
    ensures { ByFields work.now src host list.now m x told.old fresh.old told.new fresh.new result }
{
    if leads_new(work, src, x, fresh) {
        fresh[x as usize] = true;
        return true;
    }
    let Some(w) = turn_fields(work, src, x, told) else {
        return false;
    };
    let p = BLOCK * (src as usize) + OBJECT * (x as usize);
    let t = work[BLOCK * (host as usize) + COUNT];
    let o = NewObject {
        class: work[p],
        count: work[p + 1],
        codes: w,
        numbers: eight_at(work, p + NUMBERS),
    };
    if let Some(k) = find(work, host, t, o) {
        told[x as usize] = k + 1;
        return true;
    }
    fresh[x as usize] = true;
    true
}

// Object x looked for in the host, if nothing is known of it.
pub(crate) fn seek_open(
    work: &[u8],
    src: u16,
    x: u8,
    host: u16,
    list: &[u8],
    m: u8,
    told: &mut [u8],
    fresh: &mut [bool],
)
    requires { Sorting work.now src host list.now m told.old fresh.old × Listed list.now m x }
    ensures { Settling work.now src host list.now m x told.old fresh.old told.new fresh.new }
{
    if is_open(x, told, fresh) {
        seek(work, src, x, host, told, fresh);
    }
}

// How many objects of block host are of each class, modulo 64.
pub(crate) fn count_classes(work: &[u8], host: u16, count: &mut [u8])
    requires { Block work.now host × (length count.old ≡ 64) × ((k : ℕ) → get_or count.old k 0 ≡ 0) }
    ensures { length count.new ≡ 64 }
{
    let t = work[BLOCK * (host as usize) + COUNT];
    for y in 0..t {
        let k = (work[BLOCK * (host as usize) + OBJECT * (y as usize)] % 64) as usize;
        count[k] = count[k] + 1;
    }
}

// Whether nothing is known of a listed object whose class is not that of x.
pub(crate) fn varied(
    work: &[u8],
    src: u16,
    x: u8,
    host: u16,
    list: &[u8],
    m: u8,
    told: &[u8],
    fresh: &[bool],
) -> bool
    requires { Sorting work.now src host list.now m told.now fresh.now × Listed list.now m x }
{
    let c = work[BLOCK * (src as usize) + OBJECT * (x as usize)];
    for q in (0..m).rev() {
        let y = list[q as usize];
        if work[BLOCK * (src as usize) + OBJECT * (y as usize)] != c {
            if is_open(y, told, fresh) {
                return true;
            }
        }
    }
    false
}

// Of the listed objects of which nothing is known, x one of them, one whose class is rare in the host.
pub(crate) fn choose(
    work: &[u8],
    src: u16,
    x: u8,
    host: u16,
    list: &[u8],
    m: u8,
    told: &[u8],
    fresh: &[bool],
) -> u8
    requires { Sorting work.now src host list.now m told.now fresh.now × Listed list.now m x }
    ensures { Listed list.now m result }
{
    let mut count = [0u8; 64];
    count_classes(work, host, &mut count);
    let mut best = x;
    let mut few: u8 = 255;
    for q in (0..m).rev() {
        let y = list[q as usize];
        let n = count[(work[BLOCK * (src as usize) + OBJECT * (y as usize)] % 64) as usize];
        if n < few {
            if is_open(y, told, fresh) {
                few = n;
                best = y;
            }
        }
    }
    best
}

// The same; x itself where all of them are of its class.
pub(crate) fn pick(
    work: &[u8],
    src: u16,
    x: u8,
    host: u16,
    list: &[u8],
    m: u8,
    told: &[u8],
    fresh: &[bool],
) -> u8
    requires { Sorting work.now src host list.now m told.now fresh.now × Listed list.now m x }
    ensures { Listed list.now m result }
{
    if varied(work, src, x, host, list, m, told, fresh) {
        return choose(work, src, x, host, list, m, told, fresh);
    }
    x
}

// Marks as new the listed objects that lead to a new one at once, from the last to the first. Answers whether there were any.
pub(crate) fn spread_once(
    work: &[u8],
    src: u16,
    host: u16,
    list: &[u8],
    m: u8,
    told: &[u8],
    fresh: &mut [bool],
) -> bool
    requires { Sorting work.now src host list.now m told.now fresh.old }
    ensures { Onward work.now src host list.now m told.now fresh.old told.now fresh.new }
{
    let mut more = false;
    for q in (0..m).rev() {
        let x = list[q as usize];
        if is_open(x, told, fresh) {
            if leads_new(work, src, x, fresh) {
                fresh[x as usize] = true;
                more = true;
            }
        }
    }
    more
}

// The same until there are none.
pub(crate) fn spread(
    work: &[u8],
    src: u16,
    host: u16,
    list: &[u8],
    m: u8,
    told: &[u8],
    fresh: &mut [bool],
)
    requires { Sorting work.now src host list.now m told.now fresh.old }
    ensures { Onward work.now src host list.now m told.now fresh.old told.now fresh.new }
{
    for _ in 0..m {
        if !spread_once(work, src, host, list, m, told, fresh) {
            return;
        }
    }
}

// Object x looked for, and what follows from its being new.
pub(crate) fn seek_whole(
    work: &[u8],
    src: u16,
    x: u8,
    host: u16,
    list: &[u8],
    m: u8,
    told: &mut [u8],
    fresh: &mut [bool],
)
    requires { Sorting work.now src host list.now m told.old fresh.old × Listed list.now m x }
    ensures { Onward work.now src host list.now m told.old fresh.old told.new fresh.new }
{
    seek_open(work, src, x, host, list, m, told, fresh);
    if !fresh[x as usize] {
        return;
    }
    spread(work, src, host, list, m, told, fresh);
}

// One of a rare class looked for in this way. Nothing if x leads to no other that is not told: none but x decides x then.
pub(crate) fn seek_rare(
    work: &[u8],
    src: u16,
    x: u8,
    host: u16,
    list: &[u8],
    m: u8,
    told: &mut [u8],
    fresh: &mut [bool],
)
    requires { Sorting work.now src host list.now m told.old fresh.old × Listed list.now m x }
    ensures { Onward work.now src host list.now m told.old fresh.old told.new fresh.new }
{
    if !leads_on(work, src, x, told) {
        return;
    }
    let y = pick(work, src, x, host, list, m, told, fresh);
    seek_whole(work, src, y, host, list, m, told, fresh);
}

// Object x decided. Where its fields do not tell, it leads back to itself or to what does: looking for one of a rare class most often decides them all.
pub(crate) fn settle(
    work: &[u8],
    src: u16,
    x: u8,
    host: u16,
    list: &[u8],
    m: u8,
    told: &mut [u8],
    fresh: &mut [bool],
)
    requires { Sorting work.now src host list.now m told.old fresh.old × Listed list.now m x }
    ensures { Settling work.now src host list.now m x told.old fresh.old told.new fresh.new }
{
    if by_fields(work, src, x, host, list, m, told, fresh) {
        return;
    }
    seek_rare(work, src, x, host, list, m, told, fresh);
    seek_open(work, src, x, host, list, m, told, fresh);
}

// The listed objects sorted out, from the last to the first.
pub(crate) fn sort(
    work: &[u8],
    src: u16,
    host: u16,
    list: &[u8],
    m: u8,
    told: &mut [u8],
    fresh: &mut [bool],
)
    requires { Sorting work.now src host list.now m told.old fresh.old }
    ensures { SortedFrom work.now src host list.now m 0 told.new fresh.new }
{
    for q in (0..m).rev() {
        let x = list[q as usize];
        if is_open(x, told, fresh) {
            settle(work, src, x, host, list, m, told, fresh);
        }
    }
}
