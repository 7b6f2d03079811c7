// The books of the register: what a book means, what every way of keeping one promises, its keys,
// and postings over any book.
#![tactic(auto)]

mod book;
mod changes;
mod faults;
mod key_kinds;
mod keys;
mod postings;
mod rows;

pub use book::Book;
pub use changes::Change;
pub use faults::BookFault;
pub use keys::Key;
pub use postings::{Posting, post, post_both};
pub use rows::Row;
