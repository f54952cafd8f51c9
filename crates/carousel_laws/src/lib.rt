//! What holds of data carousels, in whatever order their sections come: laws above the carousel
//! and the store.
//!
//! A carousel repeats its sections, and a receiver begins in the midst of them. Let the same DII
//! stay in force, and let two lists of sections bring the same blocks, in whatever order and
//! however often; `specs/Freedom.antt` says when they do. Then the same modules are held after
//! both, with the same bytes ([`law_of_carousel_freedom`]), and a store finds the same
//! ([`law_of_same_stores`]). The locks on modules are the same too, and what each of them keeps, but
//! for the numbers of the deliveries that brought it ([`law_of_same_services`]). Until then each
//! section brings a module or nothing, and what is found or missing stays so
//! ([`law_of_settled_paths`]). A module is held as soon as a block completes it
//! ([`law_of_completing_blocks`]).
#![tactic(auto)]

mod laws;

pub use crate::laws::{
    law_of_carousel_freedom, law_of_completing_blocks, law_of_same_services, law_of_same_stores,
    law_of_settled_paths,
};
