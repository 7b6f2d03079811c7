// Goes through an order file: which orders can be read, and which of them have lawful operands.
#![tactic(auto)]

mod files;
mod findings;
mod orders;
mod refusals;
mod step;

pub use files::inspect_file;
pub use findings::Finding;
pub use refusals::Refusal;
pub use step::inspect_order;
