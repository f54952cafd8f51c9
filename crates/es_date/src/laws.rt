//! Laws on day numbers and moments. A law's contract is what it is for, and it does nothing when it runs.

ghost use Rattle.std.specs.Prelude.{◌≡◌, ◌↔◌, ◌+ℤ◌, ◌*ℤ◌, ℤ, pos, neg_ℤ, Some, None};
ghost use Rattle.std.specs.Int.{IsInRange};
ghost use Rattle.es_date.specs.declared.dates.Civil.{Civil};
ghost use Rattle.es_date.specs.declared.moments.DateFields.{DateFields};
ghost use Rattle.es_date.specs.declared.moments.Moment.{Moment};
ghost use Rattle.es_date.specs.declared.units.DateUnit.TheVariants.{Minute, Week};
ghost use Rattle.es_date.specs.Dates.{IsDate, IsDateOf, date_with, number_of};
ghost use Rattle.es_date.specs.DayNumbers.{IsDayNumber, day_number, weekday_of};
ghost use Rattle.es_date.specs.Moments.{IsMoment, carried_month, carried_year, fields_of, fields_with, moment_after, moment_at, moment_later, moment_of_fields, moment_with, seconds_of, units_between};

use crate::dates::civil_of;

/// Each day number of the years 1900 to 2399 has exactly one date, and no other number has one; and that date is the one
/// that is worked out.
pub fn law_of_dates(day: i32)
    ensures one { IsDayNumber day ↔ ((date : Civil) × IsDateOf day date) }
    ensures worked_out { (date : Civil) →
        (date_with day ≡ Some date) ↔ (IsDate date × (number_of date ≡ day)) }
{
    let _found = civil_of(day);
}

/// Days of which the number and the day of the week are known from elsewhere: the ends of the years 1900 to 2399, the days
/// round 1970-01-01, which was a Thursday, and 1 March of 2000, a leap year, and of 2100, which is none.
pub fn law_of_known_days()
    ensures first { day_number 1900 1 (pos 1) ≡ neg_ℤ (pos 25567) }
    ensures last { day_number 2399 12 (pos 31) ≡ pos 157053 }
    ensures before { day_number 1969 12 (pos 31) ≡ neg_ℤ (pos 1) }
    ensures zero { day_number 1970 1 (pos 1) ≡ pos 0 }
    ensures leap { day_number 2000 3 (pos 1) ≡ pos 11017 }
    ensures no_leap { day_number 2100 3 (pos 1) ≡ pos 47541 }
    ensures thursday { weekday_of (pos 0) ≡ 4 }
    ensures wednesday { weekday_of (neg_ℤ (pos 1)) ≡ 3 }
    ensures monday { weekday_of (neg_ℤ (pos 25567)) ≡ 1 }
{}

/// So many seconds from the beginning of 1970-01-01 on are those of at most one moment, which is the one that is worked
/// out. The months that are carried are as many as before. What the fields of a moment make is this moment.
pub fn law_of_moments()
    ensures one { (seconds : ℤ) (moment : Moment) → (moment_at seconds ≡ Some moment)
        ↔ (IsMoment moment × (seconds_of moment ≡ seconds)) }
    ensures months { (fields : DateFields) →
        (carried_year fields *ℤ pos 12 +ℤ pos (carried_month fields)
        ≡ fields.year *ℤ pos 12 +ℤ fields.month +ℤ pos 1)
        × IsInRange 1 12 (carried_month fields) }
    ensures fields { (date : Civil) (moment : Moment) → IsDate date → IsMoment moment →
        number_of date ≡ moment.day →
        moment_of_fields (fields_of date moment.second) ≡ Some moment }
{}

/// Moments that are known from elsewhere: day 29 and hour 25 of a February, a month and a second before the first, the
/// ends of the years 1900 to 2399, a quotient below 0 that is cut, midnight that passes, and a week back.
pub fn law_of_known_moments()
    ensures carried { moment_of_fields (fields_with (pos 2001) (pos 1) (pos 29) (pos 25) (pos 0))
        ≡ Some (moment_with (pos 11383) 3600) }
    ensures month_before { moment_of_fields
        (fields_with (pos 2000) (neg_ℤ (pos 1)) (pos 1) (pos 0) (pos 0))
        ≡ Some (moment_with (pos 10926) 0) }
    ensures second_before { moment_of_fields
        (fields_with (pos 1970) (pos 0) (pos 1) (pos 0) (neg_ℤ (pos 1)))
        ≡ Some (moment_with (neg_ℤ (pos 1)) 86399) }
    ensures year_first { moment_of_fields
        (fields_with (pos 2400) (pos 0) (neg_ℤ (pos 5)) (pos 0) (pos 0)) ≡ None }
    ensures day_last { moment_of_fields (fields_with (pos 1900) (pos 0) (pos 0) (pos 24) (pos 0))
        ≡ Some (moment_with (neg_ℤ (pos 25567)) 0) }
    ensures past_the_end { moment_of_fields
        (fields_with (pos 2399) (pos 11) (pos 31) (pos 23) (pos 3600)) ≡ None }
    ensures cut { units_between (moment_with (pos 0) 0) (moment_with (neg_ℤ (pos 1)) 86399) Minute
        ≡ Some (pos 0) }
    ensures midnight { moment_after (moment_with (pos 11016) 86398) 3000
        ≡ Some (moment_with (pos 11017) 1) }
    ensures week { moment_later (moment_with (pos 0) 0) (neg_ℤ (pos 1)) Week
        ≡ Some (moment_with (neg_ℤ (pos 7)) 0) }
{}
