// One range map for every kind of payload, over slots that the caller lends.
// Its meaning is a rising list of entries, no two sharing a position.
#![tactic(auto)]

mod asks;
mod entry;
mod fault;
mod find;
mod judge;
mod lent;
mod map;
mod operations;
mod rising;

pub use asks::{Remake, Test};
pub use entry::{Entry, Payload, Span};
pub use fault::{MapFault, Returned};
pub use map::RangeMap;
