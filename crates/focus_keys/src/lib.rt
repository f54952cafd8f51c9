//! The keys of a remote control: their groups, which elements can have the focus, and what a key
//! does by default (after the navigation of BML, ARIB STD-B24 volume 2, in this project's own
//! profile).
//!
//! `specs/KeyTables.antt` has the keys, their numbers and the lists that let them pass, `specs/Targets.antt` the
//! elements that can have the focus and those that a nav-index or an accesskey names, and
//! `specs/Defaults.antt` the default actions. No call takes memory. Those with a tree ask its
//! styles for values of the normal state; the styles stay those of the document.
#![tactic(auto)]

mod defaults;
mod groups;
mod keys;
mod tags;
mod targets;

pub use crate::defaults::{KeyDefault, default_of};
pub use crate::groups::{KeyGroups, group_of, passes};
pub use crate::keys::Key;
pub use crate::targets::{access_target, is_focusable, nav_target};
