// Energy, certificate counts and certificate numbers: a type each, so that no call takes one for another.
ghost use Rattle.std.specs.Prelude.{◌≡◌, ◌+◌, ◌*◌, ◌<◌};
ghost use Rattle.figures.specs.Limits.{certificate_size};

use crate::limits::CERTIFICATE_WATT_HOURS;

#[derive(Clone, Copy, PartialEq, Eq, PartialOrd, Ord, Debug)]
pub struct WattHours(pub u64);

#[derive(Clone, Copy, PartialEq, Eq, PartialOrd, Ord, Debug)]
pub struct CertificateCount(pub u64);

#[derive(Clone, Copy, PartialEq, Eq, PartialOrd, Ord, Debug)]
pub struct CertificateNumber(pub u64);

impl WattHours {
    // The issuing division: whole certificates, and the watt-hours left.
    pub fn certificates(self) -> (CertificateCount, WattHours)
        ensures whole { certificate_size * result.0.0 + result.1.0 ≡ self.0 }
        ensures rest_below_one { result.1.0 < certificate_size }
    {
        let count = CertificateCount(self.0 / CERTIFICATE_WATT_HOURS);
        let rest = WattHours(self.0 % CERTIFICATE_WATT_HOURS);
        (count, rest)
    }
}
