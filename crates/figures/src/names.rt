// The names that a refusal uses for where it arose.

#[derive(Clone, Copy, PartialEq, Eq, Debug)]
pub enum BookName {
    Accounts,
    Devices,
}

#[derive(Clone, Copy, PartialEq, Eq, Debug)]
pub enum Table {
    Periods,
    Origins,
    Offers,
    Cancellations,
    Standings,
}
