//! Event messages: what a broadcaster fires at a moment of its own choice, and which of them an item of a document
//! has answered already.
//!
//! [`read_messages`] gives the messages of a section, exactly those of its event message descriptors. [`Firings`] are
//! those of one item, as a map from groups and ids to versions. [`Fired`] stands for the list of all firings of all
//! items that were noted or forgotten. By both an item fires for a message exactly where the last firing that counts
//! had another version, or where none counts.
#![tactic(auto)]

mod firings;
mod item_firings;
mod laws;
mod messages;

pub use crate::firings::Fired;
pub use crate::item_firings::Firings;
pub use crate::laws::{law_of_firings, law_of_item_firings, law_of_kept_firings, law_of_messages};
pub use crate::messages::{Message, read_messages};
