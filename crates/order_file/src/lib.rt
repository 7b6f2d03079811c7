// The order file: the kinds of order, the reader, and the check of an order's operands.
#![tactic(auto)]

mod beneficiary;
mod checked;
mod checks;
mod day_range;
mod faults;
mod kinds;
mod layouts;
mod number_range;
mod operands;
mod orders;
mod reader;
mod year;

pub use beneficiary::Beneficiary;
pub use checked::{CancellationTerms, Declaration, OfferAnswer, OfferTerms};
pub use day_range::DayRange;
pub use faults::{OperandFault, ReadFault};
pub use number_range::NumberRange;
pub use orders::{
    AcceptOffer, AccountOperand, Cancel, Declare, MakeOffer, NewDay, OpenAccount, Order,
    RecallOffer, RegisterDevice,
};
pub use reader::read_order;
pub use year::Year;
