// An object of another block, with what it leads to, brought into the host. Only what it leads to is looked at.
// Not here: how its objects are sorted out (sort) and added (join).
ghost use Rattle.std.specs.Prelude.{◌≡◌, ◌+◌, ◌*◌, get_or};
ghost use Rattle.canon.specs.Layout.{Block, Inside};
ghost use Rattle.maker.specs.Merging.{Mapped, Imported};
ghost use Rattle.maker.specs.Seeking.{SameNumber};

use crate::join::join;
use crate::reach::reach;
use crate::seek::{like, tell};
use crate::sort::sort;
use canon::layout::{BLOCK, COUNT, PER_OBJECT};

// Whether object i of block src is object i of block host, as one that was built twice most often is.
pub(crate) fn same_number(work: &[u8], src: u16, i: u8, host: u16, told: &mut [u8]) -> bool
    requires { Inside work.now src i × Block work.now host × Mapped work.now src host told.old × (get_or told.old i 0 ≡ 0) }
    ensures { SameNumber work.now src i host told.old told.new result }
{
    if work[BLOCK * (host as usize) + COUNT] <= i {
        return false;
    }
    if !like(work, src, i, host, i) {
        return false;
    }
    tell(work, src, i, host, i, told)
}

// Object i of block src, with what it leads to, in block host: its number there, if there is room. The table tells what is known of them.
pub(crate) fn bring_new(work: &mut [u8], src: u16, i: u8, host: u16, told: &mut [u8]) -> Option<u8>
    requires { Inside work.old src i × Block work.old host × ((src ≡ host) → ⊥) × Mapped work.old src host told.old }
    ensures { Imported work.old src i host work.new result }
{
    let mut list = [0u8; PER_OBJECT];
    let m = reach(work, src, i, &mut list);
    let mut fresh = [false; PER_OBJECT];
    sort(work, src, host, &list, m, told, &mut fresh);
    if !join(work, src, host, told, &fresh) {
        return None;
    }
    Some(told[i as usize] - 1)
}

// The same, and nothing is known of them.
pub(crate) fn import(work: &mut [u8], src: u16, i: u8, host: u16) -> Option<u8>
    requires { Inside work.old src i × Block work.old host × ((src ≡ host) → ⊥) }
    ensures { Imported work.old src i host work.new result }
{
    let mut told = [0u8; PER_OBJECT];
    if same_number(work, src, i, host, &mut told) {
        return Some(i);
    }
    bring_new(work, src, i, host, &mut told)
}
