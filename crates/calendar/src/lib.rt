// The calendar: dates of day numbers, and how long a certificate is valid. Day 0 is 1 January 2000.
#![tactic(auto)]

mod dates;
mod month_starts;
mod months;

pub use dates::{Date, date_of, last_valid_day};
