//! The reader of style texts: sheets and inline texts in, rules out (after CSS level 1 and the
//! styles of BML, ARIB STD-B24 volume 2; in this project's own profile).
//!
//! `specs/Properties.antt` is the table of the properties, and `specs/Values.antt` says which texts
//! are values of them. How a style's text is spelled is a grammar: `specs/Comments.antt`,
//! `specs/Sheets.antt`, `specs/Selectors.antt`, `specs/Declarations.antt`; which rules it gives is
//! `specs/Rules.antt`. [`read_sheet`] appends exactly these rules and [`read_inline`] gives exactly
//! them, [`value_of`] and [`push_value`] read and print values. Every text gives one list of rules,
//! and what is printed of a value is read back: the `law_of_..` functions say so. A text is read
//! once from the front, in place, and its rules are kept as it groups them, so that time and memory
//! grow with the text.
#![tactic(auto)]

mod characters;
mod comments;
mod declarations;
mod keys;
mod laws;
mod numbers;
mod pieces;
mod properties;
mod rules;
mod selectors;
mod sheets;
mod values;

pub use crate::declarations::Declaration;
pub use crate::keys::next_word;
pub use crate::laws::{
    law_of_comments, law_of_declarations, law_of_orders, law_of_properties, law_of_rules,
    law_of_selectors, law_of_sheets, law_of_values,
};
pub use crate::properties::{Property, StyleValue};
pub use crate::rules::{Rule, Rules, read_inline, read_sheet};
pub use crate::selectors::{Mark, PseudoClass, Selector};
pub use crate::values::{fits, push_value, value_of};
