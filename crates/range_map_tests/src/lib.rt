// Runs of the range map on small slots, each named for what it shows.
#![tactic(auto)]

#[cfg(test)]
mod tests;
