//! The display list of a document: its boxes with their texts and pictures, and the focus, line by
//! line.
//!
//! `specs/Shown.antt` says what is shown of a document: its nodes, and the values that
//! `style_cascade` gives the properties of its elements, each in its present state.
//! `specs/Bodies.antt` says which node is the body, which [`body_of`] finds, also for the keys that it
//! lets pass. `specs/Places.antt` says which elements are drawn, in which order, where they stand and
//! whose texts are whose, and `specs/Show.antt` how that is printed. [`Shower::show`] appends exactly
//! those lines; [`law_of_order`] says what the order is. Each property of an element is asked for
//! once, a node's texts are looked for among those that stand in it, and the boxes are sorted, so
//! that the time grows with the document and its depth.
#![tactic(auto)]

mod bodies;
mod laws;
mod lines;
mod node_styles;
mod places;
mod scenes;
mod show;
mod tags;

pub use crate::bodies::body_of;
pub use crate::laws::law_of_order;
pub use crate::lines::push_clock_line;
pub use crate::show::Shower;
