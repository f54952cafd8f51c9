//! What stands at the nodes of programs of scripts, as it is evaluated (ECMA-262 second edition, 11
//! to 13, in this profile).
//!
//! `specs/Syntax.antt` has programs as they are evaluated, and `specs/Sources.antt` which program a
//! text is; [`law_of_sources`] says that this is what its phrases mean one by one
//! (`specs/Meanings.antt`). A program that was read is told by the numbers of its nodes (`specs/Codes.antt`), which
//! [`law_of_told_programs`] ties to the program of its text. [`expression`], [`statement`] and
//! [`declarator`] give what stands at a node, with the numbers of its parts; [`Programs`] finds the
//! functions of programs by their numbers (`specs/Functions.antt`). [`operated`] gives what an
//! operator makes of two values, and [`charge_operation`] takes the steps that it is charged
//! (`specs/Operators.antt`).
#![tactic(auto)]

mod codes;
mod expression_shapes;
mod functions;
mod leaves;
mod operations;
mod operators;
mod places;
mod shapes;
mod statement_shapes;
mod told_laws;

pub use crate::codes::{Code, Listing, listed_statement, part, part_count};
pub use crate::functions::{
    Declared, FIRST_FUNCTION, Programs, are_few_functions, declaration, function_count,
};
pub use crate::leaves::{Leaf, leaf_at, name_at};
pub use crate::operations::{charge_all, charge_operation, operated, operated_wholes};
pub use crate::operators::{Operator, Sign};
pub use crate::places::known_place;
pub use crate::shapes::{
    DeclaratorShape, FirstShape, Shape, StatementShape, VisitorShape, declarator, expression,
    statement,
};
pub use crate::told_laws::{law_of_sources, law_of_told_programs};
