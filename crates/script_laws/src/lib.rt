//! What runs of scripts do, whatever the program: laws above the evaluator.
//!
//! What a run hands to its host, and what it leaves, are values that pass a test, whatever the
//! test, as long as what came in passes and what the host answers does. `specs/Passing.antt` says
//! what passes, and `specs/Staying.antt` when a run stays within a test. The runs of programs and
//! globals do ([`law_of_passing_values`]), and so do the built-in functions and methods that they
//! call ([`law_of_passing_rows`]). With a host that keeps to the test (`specs/Keeping.antt`) what is
//! left at each end of a run passes ([`law_of_passing_ends`]). One test that every host keeps to is
//! that functions have numbers below a limit: so values go on to name what is there
//! ([`law_of_values`], `specs/Soundness.antt`).
#![tactic(auto)]

mod laws;

pub use crate::laws::{
    law_of_passing_ends, law_of_passing_rows, law_of_passing_values, law_of_values,
};
