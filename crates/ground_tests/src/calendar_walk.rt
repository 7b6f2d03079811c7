// A walk over every working day against a calendar that is kept day by day.
use calendar::{Date, date_of, last_valid_day};
use figures::LAST_DAY;

fn month_length(year: u16, month: u8) -> u8 {
    match month {
        2 if year % 400 == 0 => 29,
        2 if year % 100 == 0 => 28,
        2 if year % 4 == 0 => 29,
        2 => 28,
        4 | 6 | 9 | 11 => 30,
        _ => 31,
    }
}

fn day_after(date: Date) -> Date {
    let Date { year, month, day } = date;
    if day < month_length(year, month) {
        return Date {
            year,
            month,
            day: day.saturating_add(1),
        };
    }
    if month < 12 {
        return Date {
            year,
            month: month.saturating_add(1),
            day: 1,
        };
    }
    Date {
        year: year.saturating_add(1),
        month: 1,
        day: 1,
    }
}

#[test]
fn every_working_day_has_its_date(rt: HostRuntime) {
    let mut date = Date {
        year: 2000,
        month: 1,
        day: 1,
    };
    for day in 0..=LAST_DAY {
        assert_eq!(rt; date_of(day), date);
        date = day_after(date);
    }
    assert_eq!(rt; date_of(LAST_DAY).year, 2049);
}

// A certificate is valid for 365 or 366 days after its last production day.
#[test]
fn every_working_day_has_its_last_valid_day(rt: HostRuntime) {
    for day in 0..=LAST_DAY {
        let last = last_valid_day(day);
        assert!(rt; last >= day + 365);
        assert!(rt; last <= day + 366);
        let date = date_of(day);
        if last <= LAST_DAY {
            let later = date_of(last);
            assert_eq!(rt; later.year, date.year.saturating_add(1));
            assert_eq!(rt; later.month, date.month);
            let leap_day = date.month == 2 && date.day == 29;
            assert_eq!(rt; later.day, if leap_day { 28 } else { date.day });
        }
    }
    assert_eq!(rt; last_valid_day(LAST_DAY), 18_627);
}

#[test]
fn a_day_past_the_last_reads_as_the_last(rt: HostRuntime) {
    assert_eq!(rt; date_of(u32::MAX), date_of(LAST_DAY));
    assert_eq!(rt; last_valid_day(18_263), last_valid_day(LAST_DAY));
}
