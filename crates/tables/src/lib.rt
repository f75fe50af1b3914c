// A text's class table: reading, with refusals 1 to 5, and writing, with refusals 8 and 9. Not here: what one line is (lineform), the rules of a class table (classes).
// Offered: of `read` `read` and `read_into`, with `Reading`; `write::write`.
#![tactic(auto)]

pub mod read; // a text into a table
pub mod write; // a table into its text
