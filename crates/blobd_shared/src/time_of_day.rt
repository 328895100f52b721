//! The time of day as it is told.
ghost use Rattle.std.specs.Prelude.{◌<◌};

use std::fmt;

const DAY: u64 = 86_400;

/// The first year behind those that have four digits.
const END_OF_YEARS: u64 = 10_000;

/// How many days the months of a common year have.
static MONTHS: [u64; 12] = [31, 28, 31, 30, 31, 30, 31, 31, 30, 31, 30, 31];

/// A day of the Gregorian calendar; months and days count from 1.
struct Date {
    year: u64,
    month: usize,
    day: u64,
}

fn is_leap(year: u64) -> bool {
    year % 4 == 0 && (year % 100 != 0 || year % 400 == 0)
}

fn days_of_year(year: u64) -> u64 {
    if is_leap(year) { 366 } else { 365 }
}

/// How many days a month has that counts from 0.
fn days_of_month(year: u64, month: usize) -> u64
    requires { month < 12 }
{
    if month == 1 && is_leap(year) {
        29
    } else {
        MONTHS[month]
    }
}

/// The day that comes so many days behind the first of that year, if it is in it.
fn date_within(year: u64, days: u64) -> Option<Date> {
    let mut left = days;
    for month in 0..12usize {
        let length = days_of_month(year, month);
        if left < length {
            return Some(Date {
                year,
                month: month + 1,
                day: left + 1,
            });
        }
        left -= length;
    }
    None
}

/// The day that comes so many days behind 1970-01-01, up to the year 9999.
fn date_behind(days: u64) -> Option<Date> {
    let mut left = days;
    for year in 1970..END_OF_YEARS {
        let length = days_of_year(year);
        if left < length {
            return date_within(year, left);
        }
        left -= length;
    }
    None
}

/// So many seconds after the start of 1970, as RFC 3339 writes it in UTC: `2026-11-26T18:29:27Z`. After the year 9999
/// it is `-`.
#[derive(Clone, Copy)]
pub struct TimeOfDay(pub u64);

impl fmt::Display for TimeOfDay {
    fn fmt<W: fmt::Write>(&self, f: &mut fmt::Formatter<W>) -> fmt::Result {
        let seconds = self.0;
        let Some(Date { year, month, day }) = date_behind(seconds / DAY) else {
            return f.write_str("-");
        };
        let (hour, minute, second) = (seconds % DAY / 3_600, seconds % 3_600 / 60, seconds % 60);
        write!(
            f,
            "{year}-{month:02}-{day:02}T{hour:02}:{minute:02}:{second:02}Z"
        )
    }
}
