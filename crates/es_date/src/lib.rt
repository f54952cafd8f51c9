//! Dates of the years 1900 to 2399 and their day numbers, counted from 1970-01-01, by `jiff`; and moments, which are
//! seconds of days, as the Date objects of scripts keep them.
//!
//! [`civil_of`] gives the date of a day number, [`day_of`] the number of a day that is counted from the first of a
//! month, and [`weekday`] its day of the week. A [`Moment`] is made of fields that carry, of numbers that a script
//! kept, or of another moment. No call takes memory, and none has a condition but that a month is 1 to 12.
#![tactic(auto)]

mod dates;
mod laws;
mod moments;
mod units;

pub use crate::dates::{Civil, civil_of, day_of, weekday};
pub use crate::laws::{law_of_dates, law_of_known_days, law_of_known_moments, law_of_moments};
pub use crate::moments::{DateFields, Moment};
pub use crate::units::DateUnit;
