// The line form: a text's characters, its lines as bytes, and their frames (refusals 1, 2 and 3); and a line written again.
// Offered: of `lines` `decode`, `frames_good` and `order`, with `Counts`; `frames::Kind`; of `write` `put_line` and `put_byte`; the table of `sign`s.
// Not here: the rules of a class table, which compare frames with each other (refusals 4 and 5).
#![tactic(auto)]

pub(crate) mod digits; // the value of each character as a digit
pub(crate) mod hex; // a byte of two digits
pub mod sign; // the table of signs
pub(crate) mod exprs; // types and expressions in a line, passed over
pub(crate) mod reader; // a line with a place in it
pub mod frames; // one line's frame
pub(crate) mod blocks; // digits, many at a time
pub mod lines; // a text's lines: decoded, all framed, in order
pub mod write; // a line's characters, written
