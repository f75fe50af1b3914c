// The table of signs: how many bytes each takes with what belongs to it, and how many expressions follow. Every walk over expressions steps by it.
// Not here: what an expression means.
ghost use Rattle.std.specs.Prelude.{◌≡◌, ◌+◌, ◌<◌};
ghost use Rattle.lineform.specs.Signs.{InTable, sign_size, is_variable};

pub const THIS: u8 = 0x40;

pub const RES: u8 = 0x41;

pub const PARAMETER: u8 = 0x42;

pub const FIELD: u8 = 0x43;

pub const CALL: u8 = 0x44;

pub const NEW: u8 = 0x45;

pub const NUMBER: u8 = 0x46;

pub const SUM: u8 = 0x47;

pub const DIFFERENCE: u8 = 0x48;

pub const CHOOSE: u8 = 0x49;

// A row of the table. A byte that is no sign takes no bytes.
#[derive(Clone, Copy)]
pub struct SignRow {
    pub size: usize,
    pub parts: usize,
}

// The row of b, where n is the second byte after it, the count that a call and a new object have. A call has its receiver besides.
pub fn sign_row(b: u8, n: u8) -> SignRow
    ensures { InTable b n result }
{
    let n = usize::from(n);
    let (size, parts) = match b {
        THIS => (1, 0),
        RES => (1, 0),
        PARAMETER => (2, 0),
        FIELD => (2, 1),
        CALL => (3, 1 + n),
        NEW => (3, n),
        NUMBER => (3, 0),
        SUM => (1, 2),
        DIFFERENCE => (1, 2),
        CHOOSE => (1, 3),
        _ => (0, 0),
    };
    SignRow { size, parts }
}

// The place after the sign b at `at` and what belongs to it.
pub fn past_sign(b: u8, at: usize) -> usize
    requires { at < 65536 }
    ensures { result ≡ at + sign_size b }
{
    let g = sign_row(b, 0);
    at + g.size
}

// Whether b is the sign of a variable: this, res or a parameter.
pub fn is_variable(b: u8) -> bool
    ensures { result ≡ is_variable b }
{
    b < FIELD
}
