// The day, as two types: orders are methods of an open day alone, statements are made of a closed one.
// Neither may be let go, so a day cannot be lost.
ghost use Rattle.std.specs.Prelude.{◌≡◌};

use figures::CertificateNumber;

#[derive(Clone, Copy, PartialEq, Eq, Debug)]
pub struct DayFigures {
    pub date: u32,
    pub last_number: CertificateNumber,
    pub offers: u32,
    pub cancellations: u32,
}

pub struct OpenDay {
    pub(crate) figures: DayFigures,
}

pub struct ClosedDay {
    pub(crate) figures: DayFigures,
}

impl ClosedDay {
    // The day of a new register: day 0, nothing issued, offered or cancelled.
    pub fn new() -> ClosedDay
        ensures date { result.figures.date ≡ 0 }
        ensures none_issued { result.figures.last_number.0 ≡ 0 }
        ensures none_offered { result.figures.offers ≡ 0 }
        ensures none_cancelled { result.figures.cancellations ≡ 0 }
    {
        ClosedDay {
            figures: DayFigures {
                date: 0,
                last_number: CertificateNumber(0),
                offers: 0,
                cancellations: 0,
            },
        }
    }
}

impl OpenDay {
    // The day's figures stay; statements can be made of it, and orders no more.
    pub(crate) fn close(self) -> ClosedDay
        ensures same_figures { result.figures ≡ self.figures }
    {
        let OpenDay { figures } = self;
        ClosedDay { figures }
    }
}
