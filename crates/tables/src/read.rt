// Reading: the table of a text, or its lowest refusal, each over the whole text.
// Not here: what one line is (lineform), the rules of a class table (classes).
ghost use Rattle.std.specs.Prelude.{◌≡◌};
ghost use Rattle.cofj.specs.Refusals.{refusal_number};
ghost use Rattle.cofj.specs.Frames.{frames};
ghost use Rattle.lineform.specs.Packed.{unpack};
ghost use Rattle.lineform.specs.Answers.{Roomy};
ghost use Rattle.classes.specs.Made.{Zeros};
ghost use Rattle.tables.specs.Readings.{no_table, after_frames, reading_of, Into, ByteLines};

use classes::ClassTable;
use classes::build::place_table;
use classes::overrides::overrides;
use classes::places::SIZE;
use cofj::Refusal;
use lineform::lines::{RIGHTS, decode, frames_good, order};

// What reading answers: 0 and the table, or the refusal's number and a table of zeros.
#[repr(C)]
#[derive(Clone, Copy)]
pub struct Reading {
    pub refusal: u8,
    pub table: ClassTable,
}

// The longest texts that the smaller rooms are enough for. No text of a table is longer than the second.
const SHORT: usize = 1500;

const USUAL: usize = 34015;

// A refusal.
fn refused(r: Refusal) -> Reading
    ensures { result ≡ no_table (refusal_number r) }
{
    let bytes = [0u8; SIZE];
    Reading {
        refusal: r.number(),
        table: ClassTable { bytes },
    }
}

// The table of packed lines, in `bytes`, or a refusal of 2 to 5.
fn lines_into(d: &[u8], bytes: &mut [u8; SIZE]) -> Result<(), Refusal>
    requires { ByteLines d.now × Zeros bytes.old }
    ensures { Into (after_frames (frames (unpack d.now))) result bytes.new }
{
    let mut rights = [0u8; RIGHTS];
    frames_good(d, &mut rights)?;
    let counts = order(d)?;
    place_table(d, &rights, counts.classes, counts.methods, bytes)?;
    overrides(bytes)
}

// The table of a text, in `bytes`, with room for its packed lines, or its lowest refusal of 1 to 5.
fn text_into(text: &[u8], room: &mut [u8], bytes: &mut [u8; SIZE]) -> Result<(), Refusal>
    requires { Roomy text.now room.old × Zeros bytes.old }
    ensures { Into (reading_of text.now) result bytes.new }
{
    let w = decode(text, room)?;
    lines_into(&room[..w], bytes)
}

// The same with room of its own: less for a short text. The bytes are zero before; after a refusal they are open.
pub fn read_into(text: &[u8], bytes: &mut [u8; SIZE]) -> Result<(), Refusal>
    requires { Zeros bytes.old }
    ensures { Into (reading_of text.now) result bytes.new }
{
    if text.len() <= SHORT {
        let mut room = [0u8; 1024];
        return text_into(text, &mut room, bytes);
    }
    if text.len() <= USUAL {
        let mut room = [0u8; 22688];
        return text_into(text, &mut room, bytes);
    }
    let mut room = [0u8; 33048];
    text_into(text, &mut room, bytes)
}

// The table of a text, or its lowest refusal of 1 to 5.
pub fn read(text: &[u8]) -> Reading
    ensures { result ≡ reading_of text.now }
{
    let mut bytes = [0u8; SIZE];
    if let Err(r) = read_into(text, &mut bytes) {
        return refused(r);
    }
    Reading {
        refusal: 0,
        table: ClassTable { bytes },
    }
}
