// The type checker: types of expressions, methods and main, over a class table's bytes (classes, docs/TABLE.md).
// Offered: `program::check`.
// Refusals 6 and 7. Not here: reading a text, class fit and lookup (classes), runs.
#![tactic(auto)]

pub(crate) mod fits; // type fit, tags, and what a call or a list asks of a type
pub(crate) mod scope; // the variables of a body
pub(crate) mod expr; // an expression and its list walk
pub(crate) mod numbers; // literals, sums, differences and choices
pub mod program; // methods and main: the check
