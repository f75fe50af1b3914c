// An object of a part looked for among the objects of the host, in step with each that is like it. Not here: which objects a part has (reach).
ghost use Rattle.std.specs.Prelude.{◌≡◌, ◌+◌, ◌*◌, get_or};
ghost use Rattle.canon.specs.Figures.{object_size, block_size};
ghost use Rattle.canon.specs.Layout.{alike_at, Block, Inside};
ghost use Rattle.maker.specs.Merging.{Mapped};
ghost use Rattle.maker.specs.Sorting.{Sorted};
ghost use Rattle.maker.specs.Seeking.{Telling, Sought};

use canon::bytes::copy;
use canon::layout::{BLOCK, COUNT, OBJECT, PER_OBJECT};
use values::lockstep::{alike, in_step};

// Whether object x of block src and object y of block host have one class and as many fields.
pub(crate) fn like(work: &[u8], src: u16, x: u8, host: u16, y: u8) -> bool
    requires { Inside work.now src x × Inside work.now host y }
    ensures { result ≡ alike_at work.now (block_size * src + object_size * x) (block_size * host + object_size * y) }
{
    alike(
        work,
        BLOCK * (src as usize) + OBJECT * (x as usize),
        BLOCK * (host as usize) + OBJECT * (y as usize),
    )
}

// Whether they unfold to the same tree; if so, the table tells it of them and of all that was met.
pub(crate) fn tell(work: &[u8], src: u16, x: u8, host: u16, y: u8, told: &mut [u8]) -> bool
    requires { Inside work.now src x × Inside work.now host y × Mapped work.now src host told.old × (get_or told.old x 0 ≡ 0) }
    ensures { Telling work.now src x host y told.old told.new result }
{
    let mut partner = [0u8; PER_OBJECT];
    copy(told, 0, &mut partner, 0, PER_OBJECT);
    let mut queue = [0u8; PER_OBJECT];
    partner[x as usize] = y + 1;
    queue[0] = x;
    if !in_step(work, src, host, &mut partner, &mut queue) {
        return false;
    }
    copy(&partner, 0, told, 0, PER_OBJECT);
    true
}

// Looks for object x, of which nothing is known yet, among the objects of the host: it is told then, or marked as new.
pub(crate) fn seek(work: &[u8], src: u16, x: u8, host: u16, told: &mut [u8], fresh: &mut [bool])
    requires { Inside work.now src x × Block work.now host × Sorted work.now src host told.old fresh.old × (get_or told.old x 0 ≡ 0) }
    ensures { Sought work.now src x host told.old fresh.old told.new fresh.new }
{
    let t = work[BLOCK * (host as usize) + COUNT];
    for y in 0..t {
        if like(work, src, x, host, y) {
            if tell(work, src, x, host, y, told) {
                return;
            }
        }
    }
    fresh[x as usize] = true;
}
