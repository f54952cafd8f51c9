//! Dates by their day numbers, day numbers of days of a month, and days of the week.

ghost use Rattle.std.specs.Prelude.{◌≡◌, ◌<◌, ◌↔◌, pos, ◌+ℤ◌, unsigned_abs, IsSome, IfSome};
ghost use Rattle.std.specs.Int.{IsInRange};
ghost use Rattle.jiff.specs.Words.{IsEpochDay};
ghost use Rattle.es_date.specs.DayNumbers.{IsYear, IsDayNumber, day_number, first_of_month, weekday_of};
ghost use Rattle.es_date.specs.Dates.{IsDateOf, date_with};

use jiff::ToSpan;
use jiff::civil::{Date, date};

/// A date of the Gregorian calendar. Months and days count from 1.
#[derive(Clone, Copy, Debug, PartialEq, Eq)]
pub struct Civil {
    pub year: i32,
    pub month: u32,
    pub day: u32,
}

// The day number of 1900-01-01.
pub(crate) const FIRST_DAY: i64 = -25_567;

// The day number of 2399-12-31.
pub(crate) const LAST_DAY: i64 = 157_053;

/// The one date with a day number, where 1970-01-01 is day 0, and None exactly where the day isn't of the years 1900 to
/// 2399.
pub fn civil_of(day: i32) -> Option<Civil>
    ensures in_range { IsSome result ↔ IsDayNumber day }
    ensures date { IfSome result (IsDateOf day) }
    ensures found { result ≡ date_with day }
{
    let day = day as i64;
    if day < FIRST_DAY || day > LAST_DAY {
        return None;
    }
    match date(1970, 1, 1).checked_add(day.days()) {
        Ok(found) => Some(Civil {
            year: found.year() as i32,
            month: found.month() as u32,
            day: found.day() as u32,
        }),
        Err(_) => None,
    }
}

/// The number of a day that is counted from the first of a month, which is day 1. It may lie outside that month, as day
/// 30 of February does; None exactly where the year, or the day that this comes to, isn't of 1900 to 2399.
pub fn day_of(year: i32, month: u32, day: i64) -> Option<i32>
    requires month { IsInRange 1 12 month }
    ensures in_range { IsSome result
        ↔ (IsYear year × IsDayNumber (day_number (unsigned_abs year) month day)) }
    ensures number { IfSome result (λ n. n ≡ day_number (unsigned_abs year) month day) }
{
    if year < 1900 || year > 2399 {
        return None;
    }
    let first = first_day(year, month);
    if day < FIRST_DAY - first + 1 || day > LAST_DAY - first + 1 {
        return None;
    }
    Some((first + day - 1) as i32)
}

/// The day of the week of a day number, from Sunday, which is 0, to Saturday, which is 6; also of days before 1970-01-01,
/// which was a Thursday.
pub fn weekday(day: i32) -> u32
    ensures weekday { result ≡ weekday_of day }
    ensures range { result < 7 }
{
    (i64::from(day) + 4).rem_euclid(7) as u32
}

// The day number of the first of a month.
pub(crate) fn first_day(year: i32, month: u32) -> i64
    requires year { IsYear year }
    requires month { IsInRange 1 12 month }
    ensures number { result ≡ first_of_month (unsigned_abs year) month }
    ensures bound { IsEpochDay result }
{
    match date(1970, 1, 1).until(date(year as i16, month as i8, 1)) {
        Ok(span) => span.get_days() as i64,
        Err(_) => 0,
    }
}
