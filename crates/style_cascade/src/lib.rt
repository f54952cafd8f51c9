//! The cascade of styles: from rules, inline declarations and what scripts write to the value that
//! an element has for a property (after CSS level 1 and the styles of BML, ARIB STD-B24 volume 2;
//! in this project's own profile).
//!
//! `specs/Matching.antt` says which elements a selector matches, `specs/Candidates.antt` which of
//! the declarations counts, and `specs/Cascade.antt` which value an element has. [`Styles::new`]
//! works out what rules and inline texts say, [`Styles::get`] gives just the value of an element,
//! [`Styles::set`] changes what scripts have written, and [`Styles::touch`] says that the state of
//! an element changed. The `law_of_..` functions say what the definitions mean.
#![tactic(auto)]

mod chains;
mod given;
mod index;
mod keys;
mod laws;
mod lookup;
mod numbers;
mod rows;
mod said;
mod search;
mod sheets;
mod states;
mod styles;
mod subjects;
mod tables;
mod values;

pub use crate::laws::{
    law_of_attribute_writes, law_of_inheritance, law_of_inline_values, law_of_kept_values,
    law_of_states, law_of_strongest, law_of_text_writes, law_of_writes,
};
pub use crate::states::{Focus, State};
pub use crate::styles::Styles;
