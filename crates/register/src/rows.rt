// What the tables hold.
ghost use Rattle.std.specs.Prelude.{◌≡◌};
ghost use Rattle.figures.specs.declared.names.Table.TheVariants.{Periods, Origins, Standings};
ghost use Rattle.register.specs.Holdings.{held_by, is_held, offered_under};

use figures::{Account, CertificateNumber, Table, WattHours};
use range_map::Payload;

// A declared period of a device: the energy that was reported for it.
#[derive(Clone, Copy, PartialEq, Eq, Debug)]
pub struct Period {
    pub energy: WattHours,
}

impl Payload for Period {
    const TABLE: Table = Table::Periods;

    ghost TABLE = { Periods };
}

// Where a certificate comes from: its device's bare digits and its production days.
#[derive(Clone, Copy, PartialEq, Eq, Debug)]
pub struct Origin {
    pub device: u64,
    pub first_day: u32,
    pub last_day: u32,
}

impl Payload for Origin {
    const TABLE: Table = Table::Origins;

    ghost TABLE = { Origins };
}

// How a certificate stands.
#[derive(Clone, Copy, PartialEq, Eq, Debug)]
pub enum Standing {
    Held(Account),
    // under an offer's number
    Offered(u32),
    // under a cancellation's serial
    Cancelled(u32),
    Expired,
}

impl Standing {
    pub(crate) fn is_held(self) -> bool
        ensures held { result ≡ is_held self }
    {
        matches!(self, Standing::Held(_))
    }

    #[tactic(auto, using(figures::proofs::Derived::account_eq))]
    pub(crate) fn is_held_by(self, account: Account) -> bool
        ensures held { result ≡ held_by account self }
    {
        matches!(self, Standing::Held(holder) if account == holder)
    }

    pub(crate) fn is_offered_under(self, offer: u32) -> bool
        ensures under { result ≡ offered_under offer self }
    {
        matches!(self, Standing::Offered(number) if number == offer)
    }
}

impl Payload for Standing {
    const TABLE: Table = Table::Standings;

    ghost TABLE = { Standings };
}

#[derive(Clone, Copy, PartialEq, Eq, Debug)]
pub enum OfferState {
    Open,
    Accepted,
    Recalled,
}

// First and last stand apart in a row, which is plain: a checked range carries its limits in its type.
#[derive(Clone, Copy, PartialEq, Eq, Debug)]
pub struct Offer {
    pub from: Account,
    pub to: Account,
    pub first: CertificateNumber,
    pub last: CertificateNumber,
    pub state: OfferState,
}

#[derive(Clone, Copy, PartialEq, Eq, Debug)]
pub struct Cancellation {
    pub account: Account,
    pub first: CertificateNumber,
    pub last: CertificateNumber,
    pub year: u16,
    pub date: u32,
    pub beneficiary: [u8; 24],
}
