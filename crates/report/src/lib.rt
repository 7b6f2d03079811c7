// The lines that the program prints, as bytes of fixed width.
#![tactic(auto)]

mod digits;
mod lines;

pub use digits::write_digits;
pub use lines::{lawful_line, refused_line, too_long_line};
