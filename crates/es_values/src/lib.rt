//! Values of scripts, the heap of their objects, what conversions and operators give and are
//! charged, and what scripts ask of their host (ECMA-262 second edition, in this profile).
//!
//! Contracts see a [`Heap`] as the list of its objects, each with its length, where it is an array,
//! and its properties in order of insertion (`specs/Heaps.antt`). Each call gives exactly what the
//! definitions say: the operators on numbers `specs/Numbers.antt`, the number that a text means
//! `specs/Numerals.antt`, a put, `+`, `==` and `<` `specs/Operators.antt`, texts and numbers of
//! values `specs/Conversions.antt`, elements of arrays `specs/Arrays.antt`. What is charged for it
//! (`specs/Charges.antt`) a [`Budget`] takes before anything is converted. For a text of an array that
//! takes time linear in its length or in its properties, whichever are fewer, and for a length time
//! for the elements that go. Each object that the heap holds is live. A [`Host`] is a state and
//! three relations on it. The `law_of_..` functions say what the definitions say together.
#![tactic(auto)]

mod arrays;
mod budgets;
mod charges;
mod conversions;
mod heaps;
mod hosts;
mod indices;
mod laws;
mod numbers;
mod numerals;
mod objects;
mod properties;
mod property_map;
mod row_host;
mod texts;
mod values;

pub use crate::budgets::Budget;
pub use crate::heaps::Heap;
pub use crate::hosts::{Host, HostAnswer};
pub use crate::laws::{
    law_of_array_functions, law_of_arrays, law_of_elements, law_of_functions, law_of_indices,
    law_of_insertion, law_of_lengths, law_of_live_values, law_of_properties, law_of_reversal,
    law_of_wrapping,
};
pub use crate::numbers::Num;
pub use crate::numerals::{digit_value, number_of_digits, number_of_text, signed_number, trimmed};
pub use crate::row_host::RowHost;
pub use crate::texts::{index_name, index_of_name};
pub use crate::values::{HostRef, Value};
