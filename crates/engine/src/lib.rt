// The engine's public calls. Each has one contract, by the language's definition of the call, and asks nothing of its caller.
// Offered: the nine calls of `exports`; for C and Rust they are exported by engine_c.
// Not here: what they are made of (tables, checker, batch, evaluator), the program `linerun` (host/), how C and Rust call them (engine_c).
#![tactic(auto)]

pub(crate) mod session; // opening and closing
pub(crate) mod check; // the check of a text
mod work; // the work buffer cleared
mod feed; // what a second text gives main
pub(crate) mod run; // the checked run and the trial run
mod cut; // where the input of `linerun` is cut
pub(crate) mod show; // what `linerun` writes for its input
pub(crate) mod find; // where a method is found in a table
pub mod exports; // the calls
