// Tests of the books: one script over any book, run over all four.
#![tactic(auto)]

#[cfg(test)]
mod books_of_four;
#[cfg(test)]
mod script;
