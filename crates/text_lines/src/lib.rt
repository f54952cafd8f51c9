//! The rows that the texts of a display list are broken into.
//!
//! [`row_places`] tells where the rows of a text begin and end in a box of some width: `specs/Breaking.antt`
//! has what rows are. [`add_rows`] takes the printed lines of a display list, reads their texts back, and
//! appends the lines with a `row` line for each row behind the text's own: `specs/RowLines.antt`.
//! [`law_of_rows`] says that a text has exactly one list of rows, [`law_of_pieces`] what its pieces are, and
//! [`law_of_shown_texts`] that the text of each printed line is read back.
#![tactic(auto)]

mod cuts;
mod laws;
mod read_back;
mod row_lines;
mod rows;

pub use crate::laws::{law_of_pieces, law_of_rows, law_of_shown_texts};
pub use crate::row_lines::{Align, add_rows};
pub use crate::rows::{Row, row_places};
