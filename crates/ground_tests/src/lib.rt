// Runs of the ground layers: device numbers and the calendar.
#![tactic(auto)]

#[cfg(test)]
mod calendar_walk;
#[cfg(test)]
mod gs1;
