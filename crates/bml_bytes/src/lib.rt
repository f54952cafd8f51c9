//! Texts, numbers in bytes and printed numbers: what every other crate of the receiver stands on.
//!
//! A [`Text`] is a list of codes that copies share; it is made of any bytes and gives them back. A
//! [`Cursor`] reads the numbers of a table from the front of its bytes, or takes nothing. The `push_..`
//! functions append the fields of an output line: words, numbers in base ten and sixteen, and texts with
//! bytes that are escaped; a field of decimal digits is read back. What the definitions say together stands
//! in the `law_of_..` functions.
#![tactic(auto)]

mod area;
mod cursors;
mod hashes;
mod laws;
mod line_fields;
mod numerals;
mod refusals;
mod sequence;
mod texts;
mod words;

pub use crate::area::{AREA_LENGTH, AreaBytes};
pub use crate::cursors::Cursor;
pub use crate::laws::{
    law_of_big_numbers, law_of_codes, law_of_decimals, law_of_digits, law_of_fields, law_of_fronts,
    law_of_own_codes, law_of_same_texts, law_of_tests, law_of_written_numbers,
};
pub use crate::line_fields::{Escapes, push_count, push_line_end, push_word};
pub use crate::numerals::{push_decimal, push_hex, read_decimal};
pub use crate::refusals::{NoMemory, TableFault, TableRefusal};
pub use crate::sequence::Sequence;
pub use crate::texts::Text;
pub use crate::words::{is_word, is_word_in_any_case};
