//! The built-in functions and methods of scripts (ECMA-262 second edition, 15, in this profile).
//!
//! The definitions are a table, one row for each: `specs/Functions.antt` has the functions, and
//! `specs/Methods.antt` the methods by the kind of value that they are called of. A row says what
//! is charged, which value is given and which heap is left (`specs/Rows.antt`). [`call_function`],
//! [`construct`] and [`call_method`] do exactly what the row says: the steps are taken before
//! anything is done, and where fewer are left nothing is done. [`law_of_rows`] says what all rows
//! keep, and [`law_of_sorting`] what the order of `sort` is; the other `law_of_..` functions say what arrays
//! that are sorted, the parts of `split` and the digits of `toString` are.
#![tactic(auto)]

mod arguments;
mod arrays;
mod built;
mod calls;
mod dates;
mod function_rows;
mod functions;
mod laws;
mod method_rows;
mod methods;
mod numerals;
mod parts;
mod separators;
mod sorting;
mod text_rows;
mod texts;
mod tills;

pub use crate::built::Built;
pub use crate::calls::{call_function, call_method, construct};
pub use crate::functions::{function_member, value_named};
pub use crate::laws::{
    law_of_digits, law_of_rows, law_of_sorted_arrays, law_of_sorting, law_of_splitting,
};
