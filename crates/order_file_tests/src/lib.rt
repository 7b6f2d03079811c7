// Runs of the order reader and the operand check over whole files.
#![tactic(auto)]

mod samples;
#[cfg(test)]
mod tests;
mod walk;
