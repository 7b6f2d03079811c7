// The register of guarantees of origin: its tables, its day, and the nine calls on them.
#![tactic(auto)]

mod accounts_and_devices;
mod answers;
mod calls;
mod cancellations;
mod checks;
mod counts;
mod day;
mod day_opening;
mod declarations;
mod faults;
mod holdings;
mod issues;
mod numbers;
mod offers;
mod places;
mod registers;
mod remakes;
mod rows;
mod tables;
mod terms;

pub use calls::Call;
pub use day::{ClosedDay, DayFigures, OpenDay};
pub use faults::Fault;
pub use registers::Register;
pub use rows::{Cancellation, Offer, OfferState, Origin, Period, Standing};
pub use tables::Tables;
