//! What programs of scripts do, over any host (ECMA-262 second edition, in this profile).
//!
//! [`run`] runs a program among programs, and [`run_global`] calls a global: each ends exactly as the
//! definitions say, over every host, with as many steps as are given.
//! Which program a text is `es_shapes` says. `specs/Rows.antt` is the table, a row for each form:
//! what is entered, in which order, what is charged, and what stops; operators, members and calls
//! have theirs in `specs/Operations.antt`, `specs/Members.antt` and `specs/Calls.antt`.
//! `specs/Evaluation.antt` gives each statement and each node of an expression its step, and runs
//! programs. A run is a tree of what it asks its host (`specs/Worlds.antt`), and
//! `specs/Endings.antt` says how it may end with one. [`law_of_bounds`] says that the bound which
//! makes the recursion end is never met, and [`law_of_steps`] that no run makes steps, and
//! [`law_of_more_steps`] that a run which isn't stopped for want of steps ends the same with more.
//! [`law_of_unfolding`] says what each form, each program and each global does without a bound
//! (`specs/Unbounded.antt`).
//!
//! The evaluator works on the nodes of programs by their numbers. Its state is a control stack of
//! items (`specs/devices/Works.antt` says what each does) beside the globals, the objects and the
//! steps that are left. What comes next and the items that wait are the rest of a run
//! (`specs/devices/Machines.antt`), and each arm says of which row its run is.
//!
//! Statements and expressions are brought to their end at once by recursion, down to eight levels of
//! each. A call of a program's function, the host, what stands deeper, and some rarer forms can't be:
//! they wait. Then what comes next is told, and the parts around it hold items, the innermost first
//! (`specs/devices/Held.antt`), which are put on the control stack at the end.
#![tactic(auto)]

mod applications;
mod assignments;
mod calls;
mod evaluator;
mod expressions;
mod found;
mod globals;
mod held;
mod laws;
mod loops;
mod machine;
mod member_values;
mod members;
mod nexts;
mod open_calls;
mod operands;
mod outcomes;
mod scripts;
mod statement_items;
mod statements;
mod targets;
mod values;
mod works;

pub use crate::globals::Globals;
pub use crate::laws::{law_of_bounds, law_of_more_steps, law_of_steps, law_of_unfolding};
pub use crate::outcomes::{Outcome, StopCause};
pub use crate::scripts::{run, run_global};
pub use es_shapes::{Operator, Sign, are_few_functions, law_of_told_programs};
