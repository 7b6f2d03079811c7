// Dates, and the last valid day.
ghost use Rattle.std.specs.Prelude.{◌≡◌, ◌+◌, ◌-◌, ◌<◌, min};
ghost use Rattle.calendar.specs.Dates.{date_of, last_valid_day, twelve_months_on, working};

use crate::months::{in_month, month_length, month_start};
use figures::{FIRST_YEAR, LAST_DAY};

const MONTHS_VALID: usize = 12;

#[derive(Clone, Copy, PartialEq, Eq, Debug)]
pub struct Date {
    pub year: u16,
    pub month: u8,
    pub day: u8,
}

// The date of a day; a day past the last working day reads as that one.
pub fn date_of(day: u32) -> Date
    ensures date { result ≡ date_of (working day) }
{
    let (month, days) = in_month(day.min(LAST_DAY));
    Date {
        year: FIRST_YEAR + (month / 12) as u16,
        month: (month % 12) as u8 + 1,
        day: days as u8 + 1,
    }
}

// The month twelve months on.
fn month_later(month: usize) -> usize
    requires working { month < 600 }
    ensures later { result ≡ month + 12 }
{
    month + MONTHS_VALID
}

// Days into a month, or to its last day if it is too short.
fn clamped(days: u32, length: u32) -> u32
    requires some { 0 < length }
    ensures inside { result ≡ min days (length - 1) }
{
    days.min(length - 1)
}

// The last valid day of a certificate by its last production day: the same day of the month twelve
// months later, or that month's last day if it is too short.
pub fn last_valid_day(day: u32) -> u32
    ensures value { result ≡ last_valid_day (working day) }
    ensures date { date_of result ≡ twelve_months_on (date_of (working day)) }
{
    let (month, days) = in_month(day.min(LAST_DAY));
    let later = month_later(month);
    month_start(later) + clamped(days, month_length(later))
}
