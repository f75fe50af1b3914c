// The second text of a run: its parts read (refusal 14), those that unfold to the same tree merged, laid in a block as a value, and judged by the places that
// hold them (15).
// Offered: `input::read_input`.
// Not here: which main is given a value (engine), what a line is (lineform), classes and their fields (classes), a block's canonical order (canon).
#![tactic(auto)]

pub(crate) mod layout; // how parts lie in bytes
pub(crate) mod lines; // a text's lines, read into parts
pub(crate) mod reach; // the parts that part 0 leads to
pub(crate) mod colours; // which parts unfold to the same tree
pub(crate) mod merge; // the parts that are reached, merged
pub(crate) mod judge; // whether the objects of a block fit the places that hold them
pub mod input; // what a text gives a main
