// The month starts, and the month that a day lies in.
ghost use Rattle.std.specs.Prelude.{◌≡◌, ℕ, ◌+◌, ◌/◌, ◌%◌, ◌<◌, ◌≤◌, true, length, nat_le, slice_index};
ghost use Rattle.calendar.specs.Dates.{follows, month_length, month_start};

use crate::month_starts::MONTH_STARTS;
use figures::LAST_DAY;

// An entry of a table that keeps the rule.
fn entry(starts: &[u32], month: usize) -> u32
    requires from_day_0 { slice_index starts.now 0 ≡ 0 }
    requires month_by_month { follows 0 starts.now ≡ true }
    requires in_table { month < length starts.now }
    ensures start { result ≡ month_start month }
{
    starts[month]
}

// The first day of a month, counted from January 2000.
pub(crate) fn month_start(month: usize) -> u32
    requires in_table { month < 625 }
    ensures start { result ≡ month_start month }
{
    entry(&MONTH_STARTS, month)
}

fn has_begun(start: u32, day: u32) -> bool
    ensures begun { result ≡ nat_le start day }
{
    start <= day
}

// How many months have begun by a day, by a table that keeps the rule.
fn months_begun(starts: &[u32], day: u32) -> usize
    requires from_day_0 { slice_index starts.now 0 ≡ 0 }
    requires month_by_month { follows 0 starts.now ≡ true }
    ensures begun { (month : ℕ) → month < result → month_start month ≤ day }
    ensures to_come { (month : ℕ) → result ≤ month → month < length starts.now → day < month_start month }
{
    starts.partition_point(|start| has_begun(*start, day))
}

// The month of a working day, counted from January 2000.
fn month_of(day: u32) -> usize
    requires working { day ≤ LAST_DAY }
    ensures begun { month_start result ≤ day }
    ensures not_over { day < month_start (result + 1) }
    ensures working { result < 600 }
{
    months_begun(&MONTH_STARTS, day) - 1
}

// How many days a month has, counted from January 2000.
pub(crate) fn month_length(month: usize) -> u32
    requires in_table { month < 624 }
    ensures length { result ≡ month_length (2000 + month / 12) (month % 12 + 1) }
    ensures some { 0 < result }
{
    month_start(month + 1) - month_start(month)
}

// A working day as its month, counted from January 2000, and the days before it in that month.
pub(crate) fn in_month(day: u32) -> (usize, u32)
    requires working { day ≤ LAST_DAY }
    ensures day { month_start result.0 + result.1 ≡ day }
    ensures inside { result.1 < month_length (2000 + result.0 / 12) (result.0 % 12 + 1) }
    ensures few { result.1 < 31 }
    ensures working { result.0 < 600 }
{
    let month = month_of(day);
    (month, day - month_start(month))
}
