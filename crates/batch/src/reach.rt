// The parts that part 0 leads to, listed. Not here: which of them unfold to the same tree (colours).
ghost use Rattle.std.specs.Prelude.{◌≡◌, ◌≤◌, length};
ghost use Rattle.batch.specs.Figures.{wide_size, byte_count};
ghost use Rattle.batch.specs.Reaching.{Noted, Met, FieldsMet, Reaches};

use crate::layout::{NUMBER_FIELD, PART, PER_BYTE};
use canon::layout::HEAD;

// A field met: a part that is not listed yet is. `seen` has true for a listed one. Answers how many are listed.
pub(crate) fn note(seen: &mut [bool], list: &mut [u8], tail: u8, b: u8) -> u8
    requires { Noted seen.old list.old tail }
    ensures { Met list.old tail b seen.new list.new result }
{
    if NUMBER_FIELD <= b {
        return tail;
    }
    if seen[b as usize] {
        return tail;
    }
    seen[b as usize] = true;
    list[tail as usize] = b;
    tail + 1
}

// The fields of part p met.
pub(crate) fn note_fields(parts: &[u8], p: u8, seen: &mut [bool], list: &mut [u8], tail: u8) -> u8
    requires { (wide_size ≤ length parts.now) × Noted seen.old list.old tail }
    ensures { FieldsMet parts.now p 4 list.old tail seen.new list.new result }
{
    let at = PART * (p as usize) + HEAD;
    let a = note(seen, list, tail, parts[at]);
    let b = note(seen, list, a, parts[at + 1]);
    let c = note(seen, list, b, parts[at + 2]);
    note(seen, list, c, parts[at + 3])
}

// Lists part 0 and what it leads to, nearest first. Answers how many they are.
pub(crate) fn reach(parts: &[u8], list: &mut [u8]) -> u8
    requires { (wide_size ≤ length parts.now) × (length list.old ≡ byte_count) }
    ensures { Reaches parts.now list.new result }
{
    let mut seen = [false; PER_BYTE];
    seen[0] = true;
    list[0] = 0;
    let mut head: u8 = 0;
    let mut tail: u8 = 1;
    // the list grows while it is gone over: no range
    while head < tail {
        let p = list[head as usize];
        tail = note_fields(parts, p, &mut seen, list, tail);
        head += 1;
    }
    tail
}
