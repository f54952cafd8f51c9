//! Date objects, as scripts hold them (this project's own profile of ECMA-262 second edition, 15.9).
//!
//! A Date is an object with the properties `$day` and `$second`, which scripts see, write and delete as any others. It is
//! good where they tell a moment of the years 1900 to 2399 ([`Moment`](es_date::Moment)). [`add_date`] makes one,
//! [`is_date`] says whether an object has both properties, and [`moment_of`] reads the moment that a value tells. The laws say that a Date keeps its moment.
#![tactic(auto)]

mod dates;
mod laws;

pub use crate::dates::{add_date, is_date, moment_of};
pub use crate::laws::{law_of_dates, law_of_new_dates};
