// The check of an order's operands, in their order in the file. It yields checked values, so that
// nothing unchecked gets past it. A number after an operand is its distance from the command byte,
// of a pair that of its last.
ghost use Rattle.std.specs.Prelude.{◌≡◌, ◌≤◌, IfOk};
ghost use Rattle.figures.specs.Limits.{most_energy};
ghost use Rattle.order_file.specs.Checked.{plain_opening, plain_device, plain_declaration, plain_offer, plain_accept, plain_recall, plain_cancellation};
ghost use Rattle.order_file.specs.Checks.{refused_at, bad_opening, bad_device, bad_declare, bad_offer, bad_accept, bad_recall, bad_cancel, bad_order};

use crate::checked::{CancellationTerms, Declaration, OfferAnswer, OfferTerms};
use crate::faults::OperandFault;
use crate::operands::check;
use crate::orders::{
    AcceptOffer, Cancel, Declare, MakeOffer, OpenAccount, Order, RecallOffer, RegisterDevice,
};
use figures::{Account, Device};

impl OpenAccount {
    pub fn check(&self) -> Result<Account, OperandFault>
        ensures refused_at { refused_at result ≡ bad_opening self.now }
        ensures checked { IfOk result (λ a. plain_opening a ≡ self.now) }
    {
        check(self.account, 1)
    }
}

impl RegisterDevice {
    pub fn check(&self) -> Result<Device, OperandFault>
        ensures refused_at { refused_at result ≡ bad_device self.now }
        ensures checked { IfOk result (λ d. plain_device d ≡ self.now) }
    {
        check(self.device, 1)
    }
}

impl Declare {
    pub fn check(&self) -> Result<Declaration, OperandFault>
        ensures refused_at { refused_at result ≡ bad_declare self.now }
        ensures checked { IfOk result (λ d. plain_declaration d ≡ self.now) }
        ensures energy_within { IfOk result (λ d. (1 ≤ d.energy.0) × (d.energy.0 ≤ most_energy)) }
    {
        Ok(Declaration {
            device: check(self.device, 1)?,
            account: check(self.account, 9)?,
            days: check((self.first_day, self.last_day), 19)?,
            energy: check(self.energy, 23)?,
        })
    }
}

impl MakeOffer {
    pub fn check(&self) -> Result<OfferTerms, OperandFault>
        ensures refused_at { refused_at result ≡ bad_offer self.now }
        ensures checked { IfOk result (λ o. plain_offer o ≡ self.now) }
    {
        Ok(OfferTerms {
            from: check(self.from, 1)?,
            to: check(self.to, 7)?,
            numbers: check((self.first, self.last), 21)?,
        })
    }
}

impl AcceptOffer {
    // Any offer number is lawful here: whether there is such an offer is for the register to say.
    pub fn check(&self) -> Result<OfferAnswer, OperandFault>
        ensures refused_at { refused_at result ≡ bad_accept self.now }
        ensures checked { IfOk result (λ a. plain_accept a ≡ self.now) }
    {
        let receiver = check(self.account, 1)?;
        Ok(OfferAnswer {
            account: receiver,
            offer: self.offer,
        })
    }
}

impl RecallOffer {
    // As of an acceptance, whose operands it has: the two types are kept apart (orders.rt). Any offer
    // number is lawful here too.
    pub fn check(&self) -> Result<OfferAnswer, OperandFault>
        ensures refused_at { refused_at result ≡ bad_recall self.now }
        ensures checked { IfOk result (λ a. plain_recall a ≡ self.now) }
    {
        let sender = check(self.account, 1)?;
        Ok(OfferAnswer {
            account: sender,
            offer: self.offer,
        })
    }
}

impl Cancel {
    pub fn check(&self) -> Result<CancellationTerms, OperandFault>
        ensures refused_at { refused_at result ≡ bad_cancel self.now }
        ensures checked { IfOk result (λ t. plain_cancellation t ≡ self.now) }
    {
        Ok(CancellationTerms {
            account: check(self.account, 1)?,
            numbers: check((self.first, self.last), 15)?,
            year: check(self.year, 23)?,
            beneficiary: check(self.beneficiary, 25)?,
        })
    }
}

impl Order {
    // For code that only inspects a file: the same check, without the checked values.
    pub fn check(&self) -> Result<(), OperandFault>
        ensures refused_at { refused_at result ≡ bad_order self.now }
    {
        match self {
            Order::Account(order) => order.check().map(drop),
            Order::Device(order) => order.check().map(drop),
            // A date is judged against the day before it, which is not known here.
            Order::Day(_) => Ok(()),
            Order::Declare(order) => order.check().map(drop),
            Order::Offer(order) => order.check().map(drop),
            Order::Accept(order) => order.check().map(drop),
            Order::Recall(order) => order.check().map(drop),
            Order::Cancel(order) => order.check().map(drop),
        }
    }
}
