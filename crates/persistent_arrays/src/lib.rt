//! Persistent arrays: which fields an array has, and what the arrays are called.
//!
//! A [`Structure`] is the list of fields that a text spells, and [`slot_of`] gives the number of
//! the array that a text names. [`pack`] writes values into an array of the area, and [`unpack`]
//! reads them. Each says None exactly where there is nothing of the kind, or the values don't fit.
//! [`value_at`] and [`bit_at`] read one field wherever it stands, for what spells fields as arrays do.
//! What the definitions say together stands in the `law_of_..` functions.
#![tactic(auto)]

mod arrays;
mod fields;
mod kinds;
mod laws;
mod names;
mod packing;
mod reading;
mod spelling;
mod structures;

pub use crate::fields::Field;
pub use crate::kinds::FieldKind;
pub use crate::laws::{
    law_of_array_names, law_of_arrays, law_of_kept_fields, law_of_kept_values, law_of_runs,
    law_of_shared_bits, law_of_spelled_fields, law_of_structures,
};
pub use crate::names::slot_of;
pub use crate::packing::pack;
pub use crate::reading::{bit_at, unpack, value_at};
pub use crate::structures::Structure;
