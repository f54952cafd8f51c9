//! The reader of programs (ECMA-262 second edition, sections 7.8 and 11 to 14, in this profile).
//!
//! A program as it is written is a list of items with all of their tokens
//! (`specs/Statements.antt`); which items are a program says `specs/Grammar.antt`, which trees they
//! mean `specs/Meaning.antt`, and how many levels they have `specs/Levels.antt`. [`read_program`]
//! gives the [`Program`] that a text is, or tells that it has more than 64 levels, or the place
//! from which no program goes on (`specs/Sources.antt`); [`read_tokens`] does so for tokens
//! (`specs/Programs.antt`). It looks at no token twice, but for the one behind a statement, and no
//! function calls itself.
//!
//! `law_of_programs` and `law_of_texts` say that tokens and texts are at most one program or bad at
//! one place and not both, `law_of_reading` that tokens are always one of these, and
//! `law_of_levels` that levels are those of the trees. `law_of_readers` and `law_of_the_reader` say
//! that there is one function which tells of each text the program that it is, or none
//! (`specs/Readers.antt`). `law_of_walks` says that each node which a statement leads to stands
//! among the program's nodes, behind its children (`specs/Walks.antt`). In which function a node
//! stands, and which of its locals a name is, says `specs/Locals.antt`.
#![tactic(auto)]

mod declarations;
mod faults;
mod function_fronts;
mod heads;
mod heights;
mod laws;
mod level_laws;
mod locals;
mod marks;
mod names;
mod openings;
mod owners;
mod programs;
mod reader;
mod simples;
mod sources;
mod text_laws;
mod walk_laws;
mod wholes;

pub use crate::laws::{law_of_programs, law_of_reading};
pub use crate::level_laws::law_of_levels;
pub use crate::programs::{FunctionDecl, Program};
pub use crate::reader::{Reading, read_tokens};
pub use crate::sources::{SyntaxFault, read_program};
pub use crate::text_laws::{law_of_readers, law_of_texts, law_of_the_reader};
pub use crate::walk_laws::law_of_walks;
