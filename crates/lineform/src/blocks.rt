// Digits in blocks of 32: tested, then written as bytes. The loops are such that the compiler takes many characters at once.
// Not here: the digits of a line that are left (lines).
ghost use Rattle.std.specs.Prelude.{◌≡◌, true, ◌≤◌, ◌<◌, ◌+◌, ◌*◌, ◌-◌, ◌/◌, ◌%◌, length};
ghost use Rattle.lineform.specs.Answers.{Ahead, Puts, pair_value};
ghost use Rattle.lineform.specs.Blocks.{is_digit, all_digits, Blocks, words_put, DigitWords, bytes_put};

// The characters in a block, and the blocks that a line may have.
const BLOCK: usize = 32;

const BLOCKS: usize = 15;

fn is_digit(c: u8) -> bool
    ensures { result ≡ is_digit c }
{
    ((48 <= c) & (c <= 57)) | ((65 <= c) & (c <= 70))
}

// Whether the characters of the block at `at` are digits.
fn all_digits(text: &[u8], at: usize) -> bool
    requires { at + 32 ≤ length text.now }
    ensures { result ≡ all_digits text.now at 32 }
{
    let mut good = true;
    for k in 0..BLOCK {
        good = good & is_digit(text[at + k]);
    }
    good
}

// The place after the blocks of digits from `from` on.
fn past_blocks(text: &[u8], from: usize) -> usize
    requires { from < length text.now }
    ensures { Blocks text.now from result }
{
    let n = text.len();
    let mut i: usize = from;
    for _ in 0..BLOCKS {
        if n <= i + BLOCK {
            return i;
        }
        if !all_digits(text, i) {
            return i;
        }
        i += BLOCK;
    }
    i
}

// The first m pairs of characters from `from` on, each as one number.
fn put_words(text: &[u8], from: usize, w: &mut [u16; 256], m: usize)
    requires { (m ≤ 256) × (from + 2 * m ≤ length text.now) }
    ensures { w.new ≡ words_put text.now from w.old m }
{
    for k in 0..m {
        w[k] = u16::from_le_bytes([text[from + 2 * k], text[from + 2 * k + 1]]);
    }
}

// The byte of two digits. A letter is 7 more than its value and 48, and from 64 on.
fn word_byte(w: u16) -> u8
    requires { (is_digit (w % 256) ≡ true) × (is_digit (w / 256) ≡ true) }
    ensures { result ≡ pair_value (w % 256) (w / 256) }
{
    let letters = 16 * (w % 256 / 64) + w / 16384;
    (16 * (w % 256) + w / 256 - 816 - 7 * letters) as u8
}

// Writes the bytes of m pairs of digits to `to` and further.
fn put_word_bytes(w: &[u16; 256], m: usize, out: &mut [u8], to: usize)
    requires { DigitWords w.now m × (to + m ≤ length out.old) }
    ensures { out.new ≡ bytes_put w.now out.old to m }
{
    for k in 0..m {
        out[to + k] = word_byte(w[k]);
    }
}

// Writes the bytes of the blocks of digits from `from` on to `to` and further. The place after the blocks.
pub(crate) fn put_blocks(text: &[u8], from: usize, out: &mut [u8], to: usize) -> usize
    requires { Ahead text.now out.old from to }
    ensures { Puts text.now out.old out.new from to result (to + (result - from) / 2) }
{
    let e = past_blocks(text, from);
    if e == from {
        return e;
    }
    let m = (e - from) / 2;
    let mut w = [0u16; 256];
    put_words(text, from, &mut w, m);
    put_word_bytes(&w, m, out, to);
    e
}
