// Orders whose operands are all lawful. Code past the check takes these, never the plain operands.
use crate::beneficiary::Beneficiary;
use crate::day_range::DayRange;
use crate::number_range::NumberRange;
use crate::year::Year;
use figures::{Account, Device, WattHours};

#[derive(Clone, Copy, PartialEq, Eq, Debug)]
pub struct Declaration {
    pub device: Device,
    pub account: Account,
    pub days: DayRange,
    pub energy: WattHours,
}

#[derive(Clone, Copy, PartialEq, Eq, Debug)]
pub struct OfferTerms {
    pub from: Account,
    pub to: Account,
    pub numbers: NumberRange,
}

// An acceptance or a recall.
#[derive(Clone, Copy, PartialEq, Eq, Debug)]
pub struct OfferAnswer {
    pub account: Account,
    pub offer: u32,
}

#[derive(Clone, Copy, PartialEq, Eq, Debug)]
pub struct CancellationTerms {
    pub account: Account,
    pub numbers: NumberRange,
    pub year: Year,
    pub beneficiary: Beneficiary,
}
