//! The control stack of the evaluator: the calls of a script that are open, each with its `this`, the values
//! of its locals, and the items of work that it still has.
//!
//! Contracts see a [`Frames`] as the list of its frames, the last one in front (`specs/Frames.antt`). Each
//! call speaks of the last frame, says exactly what it gives, and leaves all frames below as they were. The
//! values of all frames stand in one vector and their items in another, so a frame more takes no memory of
//! its own, and all calls take the same short time however deep the stack is. A frame has no names: which
//! local a value is of is known by its place.
#![tactic(auto)]

mod control_stack;

pub use crate::control_stack::{Frames, MOST_CALLS};
