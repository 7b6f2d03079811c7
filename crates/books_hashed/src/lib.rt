// Books that are hash tables with linear probing. A table may be filled to the last slot.
#![tactic(auto)]

mod hashed;
mod probing;

pub use hashed::{AccountsHashed, BookHashed, DevicesHashed};
