// Where an evaluation stands. Not here: what it is evaluated with (frame, trace).
ghost use Rattle.std.specs.Prelude.{◌≡◌, ◌+◌, ◌<◌, ◌≤◌};
ghost use Rattle.evaluator.specs.Figures.{place_limit};
ghost use Rattle.evaluator.specs.Spots.{inner_spot, moved_spot, down_spot, body_spot};

// The place of the expression, the block that its value goes to, the nesting left, how many calls may still be opened, how many left-side calls are
// open, and how many objects a value may have. Eight bytes go in a register.
#[derive(Clone, Copy)]
pub struct Spot {
    pub at: u16,
    pub block: u16,
    pub nesting: u8,
    pub calls: u8,
    pub opened: u8,
    pub objects: u8,
}

// how deep a body may be nested
pub const NESTING: u8 = 6;

// how many calls may be open
pub const DEPTH: u8 = 16;

// how many objects a value may have
pub const OBJECTS: u8 = 32;

// the block of main's input, after the objects without fields
pub const INPUT_BLOCK: u16 = 1;

// the block that main begins at
pub const MAIN_BLOCK: u16 = 2;

// how many blocks a call's receiver and arguments take
pub const CALL_BLOCKS: u16 = 4;

// One level in, at another place.
pub(crate) fn inner(p: Spot, at: usize) -> Spot
    requires { (0 < p.nesting) × (at < place_limit) }
    ensures { result ≡ inner_spot p at }
{
    Spot {
        at: at as u16,
        nesting: p.nesting - 1,
        ..p
    }
}

// The same level, at another place and block.
pub(crate) fn moved(p: Spot, at: u16, block: u16) -> Spot
    ensures { result ≡ moved_spot p at block }
{
    Spot { at, block, ..p }
}

// d fields of fields in.
pub(crate) fn down(p: Spot, d: u8) -> Spot
    requires { (d ≤ p.nesting) × (p.at + 512 < 65536) }
    ensures { result ≡ down_spot p d }
{
    Spot {
        at: p.at + 2 * (d as u16),
        nesting: p.nesting - d,
        ..p
    }
}

// A body at a place: nested as a whole, one call fewer may be opened, and `opened` of them are open.
pub(crate) fn body(p: Spot, at: usize, opened: u8) -> Spot
    requires { (0 < p.calls) × (at < 65536) × (p.block + 4 < 65536) }
    ensures { result ≡ body_spot p at opened }
{
    Spot {
        at: at as u16,
        block: p.block + CALL_BLOCKS,
        nesting: NESTING,
        calls: p.calls - 1,
        opened,
        ..p
    }
}
