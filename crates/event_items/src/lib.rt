//! The event items of a document: its elements `beitem`, and what they fire for (after beitem of BML, ARIB
//! STD-B24 volume 2, in this project's own profile).
//!
//! [`event_items`] reads what the attributes of a document's items say, once. [`EventItem`] says which
//! messages and which modules match it. [`Items`] also keeps which items are subscribed and what they
//! fired for last, and so says which of them fire (`specs/Subscriptions.antt`).
#![tactic(auto)]

mod asked;
mod items;
mod laws;
mod names;
mod numerals;
mod subscriptions;

pub use crate::items::{EventItem, event_items, is_event_item};
pub use crate::laws::{
    law_of_any_id, law_of_bad_numbers, law_of_data_event_items, law_of_event_items,
    law_of_item_events, law_of_kinds, law_of_message_items, law_of_module_items,
    law_of_subscriptions,
};
pub use crate::subscriptions::Items;
