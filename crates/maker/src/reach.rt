// What an object of a block leads to, listed. Not here: which of these objects are new to another block (seek).
ghost use Rattle.std.specs.Prelude.{◌≡◌, ◌<◌, length};
ghost use Rattle.canon.specs.Figures.{first_leaf, capacity};
ghost use Rattle.canon.specs.Layout.{Inside};
ghost use Rattle.maker.specs.Sorting.{Reached};
ghost use Rattle.maker.specs.Reaching.{Noted, Met, FieldsMet};

use canon::layout::{BLOCK, FIRST_LEAF, OBJECT, PER_OBJECT};

// A code met: an object that is not listed yet is. `seen` has true for a listed one. Answers how many are listed.
pub(crate) fn note(seen: &mut [bool], list: &mut [u8], tail: u8, c: u8) -> u8
    requires { Noted seen.old list.old tail × (c < first_leaf → c < capacity) }
    ensures { Met list.old tail c seen.new list.new result }
{
    if FIRST_LEAF <= c {
        return tail;
    }
    if seen[c as usize] {
        return tail;
    }
    seen[c as usize] = true;
    list[tail as usize] = c;
    tail + 1
}

// The codes of object x of block src met.
pub(crate) fn note_fields(
    work: &[u8],
    src: u16,
    x: u8,
    seen: &mut [bool],
    list: &mut [u8],
    tail: u8,
) -> u8
    requires { Inside work.now src x × Noted seen.old list.old tail }
    ensures { FieldsMet work.now src x 4 list.old tail seen.new list.new result }
{
    let p = BLOCK * (src as usize) + OBJECT * (x as usize);
    let a = note(seen, list, tail, work[p + 2]);
    let b = note(seen, list, a, work[p + 3]);
    let c = note(seen, list, b, work[p + 4]);
    note(seen, list, c, work[p + 5])
}

// Lists object i of block src and what it leads to, nearest first. Answers how many they are.
pub(crate) fn reach(work: &[u8], src: u16, i: u8, list: &mut [u8]) -> u8
    requires { Inside work.now src i × (length list.old ≡ capacity) }
    ensures { Reached work.now src i list.new result }
{
    let mut seen = [false; PER_OBJECT];
    seen[i as usize] = true;
    list[0] = i;
    let mut head: u8 = 0;
    let mut tail: u8 = 1;
    // the list grows while it is walked: no range
    while head < tail {
        let x = list[head as usize];
        tail = note_fields(work, src, x, &mut seen, list, tail);
        head += 1;
    }
    tail
}
