// A range of certificate numbers that keeps to the limits: the type carries them.
ghost use Rattle.std.specs.Prelude.{◌≡◌, ◌+◌, ◌-◌, ◌≤◌};
ghost use Rattle.figures.specs.Limits.{last_certificate_number};

use crate::operands::Checked;
use figures::{CertificateNumber, MAX_CERTIFICATE_NUMBER};

#[derive(Clone, Copy, PartialEq, Eq, Debug)]
pub struct NumberRange {
    pub first: CertificateNumber,
    pub last: CertificateNumber,
    ghost above_zero: { 1 ≤ first.0 },
    ghost rising: { first.0 ≤ last.0 },
    ghost within: { last.0 ≤ last_certificate_number },
}

impl NumberRange {
    // How many certificates the range has; its own limits keep this from overflowing.
    pub fn count(&self) -> u64
        ensures count { result ≡ self.now.last.0 - self.now.first.0 + 1 }
    {
        self.last.0 - self.first.0 + 1
    }
}

impl Checked for NumberRange {
    ghost use Rattle.order_file.specs.Checked.{number_ends};
    ghost use Rattle.order_file.specs.Operands.{numbers_lawful};

    type Plain = (u64, u64);

    ghost lawful = { λ ends. numbers_lawful ends.0 ends.1 };

    ghost plain = { number_ends };

    fn checked((first, last): (u64, u64)) -> Option<NumberRange> {
        if (1..=last).contains(&first) && last <= MAX_CERTIFICATE_NUMBER {
            Some(NumberRange {
                first: CertificateNumber(first),
                last: CertificateNumber(last),
            })
        } else {
            None
        }
    }
}
