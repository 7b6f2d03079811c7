// Why an order of a file comes back.
ghost use Rattle.std.specs.Prelude.{◌≡◌};
ghost use Rattle.inspection.specs.Findings.{refusal_number};

use order_file::{OperandFault, ReadFault};

#[derive(Clone, Copy, PartialEq, Eq, Debug)]
pub enum Refusal {
    Unreadable(ReadFault),
    Unlawful(OperandFault),
}

impl From<ReadFault> for Refusal {
    ghost use Rattle.inspection.specs.declared.refusals.Refusal.TheVariants.{Unreadable};

    ghost from_gives = { λ fault refusal. refusal ≡ Unreadable fault };

    fn from(fault: ReadFault) -> Refusal {
        Refusal::Unreadable(fault)
    }
}

impl From<OperandFault> for Refusal {
    ghost use Rattle.inspection.specs.declared.refusals.Refusal.TheVariants.{Unlawful};

    ghost from_gives = { λ fault refusal. refusal ≡ Unlawful fault };

    fn from(fault: OperandFault) -> Refusal {
        Refusal::Unlawful(fault)
    }
}

// As of the faults, the number is a method and no `From`.
impl Refusal {
    pub fn number(&self) -> u8
        ensures number { result ≡ refusal_number self.now }
    {
        match self {
            Refusal::Unreadable(fault) => fault.number(),
            Refusal::Unlawful(fault) => fault.number(),
        }
    }
}
