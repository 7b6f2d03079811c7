// What a declaration comes to: its certificates with their numbers, and where its period lies.
ghost use Rattle.std.specs.Prelude.{◌≡◌, ◌+◌, ◌^◌, ◌<◌, ◌≤◌, if◌then◌else◌};
ghost use Rattle.figures.specs.Limits.{most_energy};
ghost use Rattle.order_file.specs.Checked.{plain_declaration};
ghost use Rattle.register.specs.Issues.{issue_of, issuing, on_devices};

use books::Book;
use figures::{
    CertificateCount, CertificateNumber, Device, MAX_CERTIFICATE_NUMBER, MAX_MEMBERS, MAX_TOTAL,
    WattHours,
};
use order_file::Declaration;
use range_map::Span;

// Each device has a stretch of so many positions in the table of periods, one for each day.
const DAYS_OF_DEVICE: u64 = 32_768;

#[derive(Clone, Copy, PartialEq, Eq, Debug)]
pub struct Issue {
    pub count: CertificateCount,
    pub left: WattHours,
    // the device's certificates, these included
    pub issued: u64,
    pub first: CertificateNumber,
    pub last: CertificateNumber,
    pub period: Span,
}

impl Issue {
    // The device's remainder and the energy are divided together; the numbers follow the last one issued.
    // Totals and numbers past their limits read as these.
    pub(crate) fn of<DeviceBook: Book<Device>>(
        devices: &DeviceBook,
        issued: CertificateNumber,
        declaration: Declaration,
    ) -> Issue
        requires energy { declaration.energy.0 ≤ most_energy }
        ensures issue { result ≡ issue_of (plain_declaration declaration) (on_devices issued.0 (DeviceBook.Book.meaning devices.now)) }
        ensures period_rises { result.period.first ≤ result.period.last }
        ensures period_within { result.period.last < 2 ^ 62 }
        ensures as_many_numbers { result.first.0 + result.count.0 ≡ result.last.0 + 1 }
    {
        let (remainder, certificates) = devices.totals(declaration.device).unwrap_or((0, 0));
        let gathered = WattHours(remainder.min(MAX_TOTAL) + declaration.energy.0);
        let (count, left) = gathered.certificates();
        let before = issued.0.min(MAX_CERTIFICATE_NUMBER);
        let place = devices.running_number(declaration.device).unwrap_or(0);
        let stretch = place.min(MAX_MEMBERS as u64) * DAYS_OF_DEVICE;
        Issue {
            count,
            left,
            issued: certificates.saturating_add(count.0).min(MAX_TOTAL),
            first: CertificateNumber(before + 1),
            last: CertificateNumber(before + count.0),
            period: Span {
                first: stretch + u64::from(declaration.days.first),
                last: stretch + u64::from(declaration.days.last),
            },
        }
    }

    // The positions of the numbers.
    pub(crate) fn numbers(self) -> Span
        ensures first { result.first ≡ self.first.0 }
        ensures last { result.last ≡ self.last.0 }
    {
        Span {
            first: self.first.0,
            last: self.last.0,
        }
    }

    // Whether certificates result.
    pub(crate) fn is_issuing(self) -> bool
        ensures issuing { result ≡ issuing self }
    {
        self.count.0 > 0
    }

    // The last number of the register afterwards: where nothing is issued it stays.
    pub(crate) fn last_after(self, before: CertificateNumber) -> CertificateNumber
        ensures last { result.0 ≡ (if issuing self then self.last.0 else before.0) }
    {
        if self.is_issuing() { self.last } else { before }
    }
}
