// The eight kinds of order as they stand in a file: plain operands, nothing checked yet.

// Two letters and a number that may still be anything.
#[derive(Clone, Copy, PartialEq, Eq, Debug)]
pub struct AccountOperand {
    pub first: u8,
    pub second: u8,
    pub number: u32,
}

#[derive(Clone, Copy, PartialEq, Eq, Debug)]
pub struct OpenAccount {
    pub account: AccountOperand,
}

#[derive(Clone, Copy, PartialEq, Eq, Debug)]
pub struct RegisterDevice {
    pub device: u64,
}

#[derive(Clone, Copy, PartialEq, Eq, Debug)]
pub struct NewDay {
    pub date: u32,
}

#[derive(Clone, Copy, PartialEq, Eq, Debug)]
pub struct Declare {
    pub device: u64,
    pub account: AccountOperand,
    pub first_day: u32,
    pub last_day: u32,
    pub energy: u64,
}

#[derive(Clone, Copy, PartialEq, Eq, Debug)]
pub struct MakeOffer {
    pub from: AccountOperand,
    pub to: AccountOperand,
    pub first: u64,
    pub last: u64,
}

#[derive(Clone, Copy, PartialEq, Eq, Debug)]
pub struct AcceptOffer {
    pub account: AccountOperand,
    pub offer: u32,
}

// The operands of an acceptance, in a type of its own, so that no call takes one for the other.
#[derive(Clone, Copy, PartialEq, Eq, Debug)]
pub struct RecallOffer {
    pub account: AccountOperand,
    pub offer: u32,
}

#[derive(Clone, Copy, PartialEq, Eq, Debug)]
pub struct Cancel {
    pub account: AccountOperand,
    pub first: u64,
    pub last: u64,
    pub year: u16,
    pub beneficiary: [u8; 24],
}

#[derive(Clone, Copy, PartialEq, Eq, Debug)]
pub enum Order {
    Account(OpenAccount),
    Device(RegisterDevice),
    Day(NewDay),
    Declare(Declare),
    Offer(MakeOffer),
    Accept(AcceptOffer),
    Recall(RecallOffer),
    Cancel(Cancel),
}
