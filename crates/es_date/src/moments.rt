//! Moments: seconds of days.

ghost use Rattle.std.specs.Prelude.{◌≡◌, ◌≤ℤ◌, ◌^◌, suc, neg_ℤ, pos, ◌+ℤ◌, ◌-ℤ◌, ◌*ℤ◌, unsigned_abs, option_map, IfSome};
ghost use Rattle.std.specs.Int.{IsInRange, int_div_euclid, int_rem_euclid};
ghost use Rattle.jiff.specs.Words.{IsEpochDay};
ghost use Rattle.es_date.specs.Dates.{date_with};
ghost use Rattle.es_date.specs.Moments.{IsMoment, fields_of, hour_of, is_day_number, is_year as spec_is_year, minute_of, moment_after, moment_at, moment_later, moment_of as spec_moment_of, moment_of_fields, second_in_minute, seconds_of, units_between};

use crate::dates::{FIRST_DAY, LAST_DAY, civil_of, first_day};
use crate::units::DateUnit;

/// A second of a day: the day's number, counted from 1970-01-01, and the second, counted from 0. What the calls of
/// this type give is of the years 1900 to 2399, and its second is 0 to 86,399; they take any.
#[derive(Clone, Copy, Debug, PartialEq, Eq)]
pub struct Moment {
    pub day: i32,
    pub second: u32,
}

/// The fields of a date as scripts have them: months count from 0 and days from 1. Each may be any number, and what is
/// too great or too small for its field carries.
#[derive(Clone, Copy, Debug)]
pub struct DateFields {
    pub year: i32,
    pub month: i32,
    pub day: i32,
    pub hour: i32,
    pub minute: i32,
    pub second: i32,
}

impl Moment {
    /// The moment of a day and a second, and None exactly where the day isn't of 1900 to 2399 (-25,567 to 157,053), or
    /// the second isn't 0 to 86,399.
    pub fn of(day: i32, second: i32) -> Option<Moment>
        ensures moment { result ≡ spec_moment_of day second }
        ensures range { IfSome result IsMoment }
    {
        if is_day(i64::from(day)) && second >= 0 && second < 86_400 {
            Some(Moment {
                day,
                second: second.unsigned_abs(),
            })
        } else {
            None
        }
    }

    /// The moment of fields: the months carry into the year, by division towards minus infinity, and the year has to be
    /// 1900 to 2399 then; days, hours, minutes and seconds are added to the first of the month. None exactly where the
    /// year isn't, or the day that this comes to isn't of these years.
    pub fn of_fields(fields: DateFields) -> Option<Moment>
        ensures moment { result ≡ moment_of_fields fields }
        ensures range { IfSome result IsMoment }
    {
        let year = year_of_month(fields.year, fields.month);
        if !is_year(year) {
            return None;
        }
        let first = first_day(year as i32, month_of_year(fields.month));
        let time = time_of(fields.hour, fields.minute, fields.second);
        Moment::at(seconds_from(first, fields.day, time))
    }

    /// The moment so many units later, or earlier where they are negative; None exactly where its day isn't of 1900 to
    /// 2399.
    pub fn later(self, count: i32, unit: DateUnit) -> Option<Moment>
        ensures moment { result ≡ moment_later self count unit }
        ensures range { IfSome result IsMoment }
    {
        Moment::at(self.seconds() + i64::from(count) * unit.seconds())
    }

    /// The moment after so many milliseconds, of which only whole seconds count; None exactly where its day isn't of
    /// 1900 to 2399.
    pub fn after(self, milliseconds: u64) -> Option<Moment>
        ensures moment { result ≡ moment_after self milliseconds }
        ensures range { IfSome result IsMoment }
    {
        Moment::at(self.seconds() + (milliseconds / 1000) as i64)
    }

    /// The units from an earlier moment to this one, cut towards zero, and negative where the other is later; None
    /// exactly where their number doesn't fit 32 bits with a sign.
    pub fn units_since(self, earlier: Moment, unit: DateUnit) -> Option<i32>
        ensures { result ≡ units_between earlier self unit }
    {
        let units = (self.seconds() - earlier.seconds()) / unit.seconds();
        i32::try_from(units).ok()
    }

    /// The fields of its date and of its second; None exactly where its day isn't of 1900 to 2399.
    pub fn fields(self) -> Option<DateFields>
        ensures { result ≡ option_map (λ date. fields_of date self.second) (date_with self.day) }
    {
        let date = civil_of(self.day)?;
        Some(DateFields {
            year: date.year,
            month: date.month as i32 - 1,
            day: date.day as i32,
            hour: self.hour() as i32,
            minute: self.minute() as i32,
            second: self.second_in_minute() as i32,
        })
    }

    /// Its hour.
    pub fn hour(self) -> u32
        ensures { result ≡ hour_of self.second }
    {
        self.second / 3600
    }

    /// Its minute of the hour.
    pub fn minute(self) -> u32
        ensures { result ≡ minute_of self.second }
    {
        self.second / 60 % 60
    }

    /// Its second of the minute.
    pub fn second_in_minute(self) -> u32
        ensures { result ≡ second_in_minute self.second }
    {
        self.second % 60
    }

    // The seconds from the beginning of 1970-01-01 up to it.
    fn seconds(self) -> i64
        ensures value { result ≡ seconds_of self }
        ensures low { neg_ℤ (pos (2 ^ 48)) ≤ℤ result }
        ensures high { result ≤ℤ pos (2 ^ 48) }
    {
        i64::from(self.day) * 86_400 + i64::from(self.second)
    }

    // The moment so many seconds after the beginning of 1970-01-01.
    fn at(seconds: i64) -> Option<Moment>
        ensures moment { result ≡ moment_at seconds }
        ensures range { IfSome result IsMoment }
    {
        let day = seconds.div_euclid(86_400);
        let second = seconds.rem_euclid(86_400);
        if is_day(day) {
            Some(Moment {
                day: day as i32,
                second: second as u32,
            })
        } else {
            None
        }
    }
}

// The year of a month that is counted from a year's first one, which is 0.
fn year_of_month(year: i32, month: i32) -> i64
    ensures { result ≡ year +ℤ int_div_euclid month (pos 12) }
{
    i64::from(year) + i64::from(month.div_euclid(12))
}

// Which month of its year it is, 1 to 12.
fn month_of_year(month: i32) -> u32
    ensures value { result ≡ suc (unsigned_abs (int_rem_euclid month (pos 12))) }
    ensures range { IsInRange 1 12 result }
{
    month.rem_euclid(12).unsigned_abs() + 1
}

// The seconds of a time of a day that is counted from the first of a month, which is day 1.
fn seconds_from(first: i64, day: i32, time: i64) -> i64
    requires first { IsEpochDay first }
    requires low { neg_ℤ (pos (2 ^ 48)) ≤ℤ time }
    requires high { time ≤ℤ pos (2 ^ 48) }
    ensures { result ≡ (first +ℤ (day -ℤ pos 1)) *ℤ pos 86400 +ℤ time }
{
    let day = first + (i64::from(day) - 1);
    day * 86_400 + time
}

// The seconds of hours, minutes and seconds.
fn time_of(hour: i32, minute: i32, second: i32) -> i64
    ensures value { result ≡ hour *ℤ pos 3600 +ℤ minute *ℤ pos 60 +ℤ second }
    ensures low { neg_ℤ (pos (2 ^ 48)) ≤ℤ result }
    ensures high { result ≤ℤ pos (2 ^ 48) }
{
    i64::from(hour) * 3600 + i64::from(minute) * 60 + i64::from(second)
}

// Whether a year is 1900 to 2399.
fn is_year(year: i64) -> bool
    ensures { result ≡ spec_is_year year }
{
    1900 <= year && year <= 2399
}

// Whether a day is of these years.
fn is_day(day: i64) -> bool
    ensures { result ≡ is_day_number day }
{
    FIRST_DAY <= day && day <= LAST_DAY
}
