// Books whose rows lie in key order: a key is found by halving, and a new row moves those behind it.
#![tactic(auto)]

mod in_order;
mod key_order;

pub use in_order::{AccountsInOrder, BookInOrder, DevicesInOrder};
