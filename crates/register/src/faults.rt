// Why a call is refused. The faults of what lies below are contained entire.
ghost use Rattle.std.specs.Prelude.{◌≡◌};
ghost use Rattle.register.specs.Faults.{number_of};
ghost use Rattle.register.specs.declared.faults.Fault.TheVariants as fault;

use crate::rows::OfferState;
use books::BookFault;
use figures::{Account, Table};
use order_file::OperandFault;
use range_map::MapFault;

#[derive(Clone, Copy, PartialEq, Eq, Debug)]
pub enum Fault {
    Operand(OperandFault),
    Book(BookFault),
    Map(MapFault),
    DateNotLater { date: u32 },
    NotYetProduced { day: u32 },
    PastTerm { last_valid: u32, number: u64 },
    NumbersExhausted { wanted: u64 },
    Full { table: Table },
    NotHeld { number: u64 },
    OfferedToItself { account: Account },
    NoSuchOffer { offer: u32 },
    OfferClosed { state: OfferState },
    WrongParty { account: Account },
}

impl Fault {
    // A method and no `From`: the name says which figure of the fault is meant.
    pub fn number(&self) -> u8
        ensures number { result ≡ number_of self.now }
    {
        match *self {
            Fault::Operand(fault) => fault.number(),
            Fault::Book(fault) => fault.number(),
            Fault::Map(fault) => fault.number(),
            Fault::DateNotLater { .. } => 7,
            Fault::NotYetProduced { .. } => 8,
            Fault::PastTerm { .. } => 9,
            Fault::NumbersExhausted { .. } => 11,
            Fault::Full { .. } => 12,
            Fault::NotHeld { .. } => 13,
            Fault::OfferedToItself { .. } => 14,
            Fault::NoSuchOffer { .. } => 15,
            Fault::OfferClosed { .. } => 16,
            Fault::WrongParty { .. } => 17,
        }
    }
}

impl From<OperandFault> for Fault {
    ghost from_gives = { λ e r. r ≡ fault.Operand e };

    fn from(fault: OperandFault) -> Fault {
        Fault::Operand(fault)
    }
}

impl From<BookFault> for Fault {
    ghost from_gives = { λ e r. r ≡ fault.Book e };

    fn from(fault: BookFault) -> Fault {
        Fault::Book(fault)
    }
}

impl From<MapFault> for Fault {
    ghost from_gives = { λ e r. r ≡ fault.Map e };

    fn from(fault: MapFault) -> Fault {
        Fault::Map(fault)
    }
}
