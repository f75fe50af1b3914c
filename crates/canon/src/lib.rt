// Objects in bytes: which of them are equal, and their canonical order.
// Offered: the figures of `layout`; of `bytes` `copy`, `count_up`, `two_at`, `four_at`, `eight_at` and `same_plain`; `colours::colour`, the colours of objects; of `number` `put`, a value in a block, and
// `level_of`.
// Not here: values (values), a new object (maker).
#![tactic(auto)]

pub mod layout; // the figures of blocks, objects and codes
pub mod bytes; // runs of bytes compared; tables filled
pub(crate) mod lift; // objects copied, with their codes turned
pub(crate) mod rows; // the tables of parting
pub(crate) mod links; // who refers to whom, in lists
pub(crate) mod parting; // objects parted into classes
pub(crate) mod leads; // the first object of each class
pub mod colours; // the objects' colours
pub(crate) mod walk; // the order in which they are met
pub mod number; // the objects, numbered in that order, in a block
