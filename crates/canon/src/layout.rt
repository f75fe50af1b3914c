// The figures of blocks, objects and codes, each named once (docs/VALUES.md); specs/Figures has the same for the specifications.
// Not here: what stands in the bytes (specs/Layout), the tables of parting (rows).

// the bytes of an object
pub const OBJECT: usize = 16;

// of them its head: its class, and how many fields it has
pub const HEAD: usize = 2;

// its codes, a byte each
pub const CODES: u8 = 4;

// where its numbers begin: for each code two bytes, the low one first; two blank bytes follow them
pub const NUMBERS: usize = HEAD + CODES as usize;

// how many objects a block has room for
pub const CAPACITY: u8 = 32;

// the same as the length of a table with a byte for each of them
pub const PER_OBJECT: usize = CAPACITY as usize;

// their bytes
pub const OBJECTS: usize = OBJECT * PER_OBJECT;

// where a block has the number of its objects
pub const COUNT: usize = OBJECTS;

// where it has its level
pub const LEVEL: usize = COUNT + 1;

// where it has its reach
pub const REACH: usize = COUNT + 2;

// the bytes of a block
pub const BLOCK: usize = 544;

// the first code that is no object's
pub const FIRST_LEAF: u8 = 192;

// the code of undetermined
pub const UNDETERMINED: u8 = 192;

// the code of a number, which stands among the object's numbers
pub const NUMBER: u8 = UNDETERMINED + 1;

// the code of the first mark
pub const FIRST_MARK: u8 = NUMBER + 1;

// how many blocks the work buffer has room for
const BLOCKS: u16 = 301;

// the last of them, above all that evaluation uses: where parts are brought together
pub const SPARE: u16 = BLOCKS - 1;

// what the second byte of a number is worth
pub const BYTE: u32 = 256;

// the third
pub const TWO_BYTES: u32 = 65536;

// the fourth
pub const THREE_BYTES: u32 = 16777216;

// the fifth
pub const FOUR_BYTES: u64 = 4294967296;
