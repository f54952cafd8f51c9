//! Binary tables: rows of fields in bytes.
//!
//! [`BinaryTable::read`] gives the table of bytes in which rows are spelled one after another, each
//! as the fields of a persistent array are. It says None exactly where the bytes aren't whole rows,
//! or are more than 4,096. [`BinaryTable::cell`] and [`BinaryTable::search`] read its values. A
//! structure is read once, when a table is opened; after that a value is found by its column's
//! place, whatever stands before it in its row. What the definitions say together stands in the
//! `law_of_..` functions.
#![tactic(auto)]

mod columns;
mod laws;
mod layouts;
mod tables;

pub use crate::laws::{law_of_search, law_of_tables};
pub use crate::tables::BinaryTable;
