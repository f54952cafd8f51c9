//! The expressions of scripts (ECMA-262 second edition, section 11, in this profile).
//!
//! [`lexemes_of`] gives the tokens of a text, each with what its codes spell
//! (`specs/Sources.antt`). An expression as it is written is a phrase with all of its tokens
//! (`specs/Phrases.antt`); which phrases are expressions says `specs/Grammar.antt`, and which tree
//! each means `specs/Meaning.antt`. [`read_expression`] reads from a place among tokens as long as
//! some expression goes on, and gives the tree's number among [`Nodes`] and its height, where what
//! was read is a whole expression (`specs/Beginnings.antt`).
//!
//! `law_of_sources` says that a text has at most one list of tokens with their symbols,
//! `law_of_expressions` that tokens have at most one expression, `law_of_ends` which tokens never
//! go on with a whole one, and with which one begins, and `law_of_beginnings` that it can be told
//! whether one begins with tokens, and whether they are one.
//!
//! Reading an expression looks at no token twice, and no function calls itself, so that neither
//! time nor depth is lost to nesting.
#![tactic(auto)]

mod closing;
mod expressions;
mod forms;
mod frames;
mod joining;
mod laws;
mod lexemes;
mod nodes;
mod operands;
mod places;
mod reader;
mod roles;
mod sources;

pub use crate::expressions::{Extent, Found, Reading, read_expression};
pub use crate::laws::{law_of_beginnings, law_of_ends, law_of_expressions, law_of_sources};
pub use crate::lexemes::{Lexeme, Symbol};
pub use crate::nodes::{Form, Node, Nodes};
pub use crate::roles::{Front, Joint};
pub use crate::sources::lexemes_of;
