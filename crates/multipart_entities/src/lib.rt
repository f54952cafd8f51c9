//! Entities of several parts, and the paths of resources (ARIB STD-B24, volume 2, after MIME, RFC
//! 2045 and 2046; in this project's own profile).
//!
//! [`entity_parts`] tells the parts of an entity by name: a part is a place in the entity's bytes
//! and is never copied. What the parts are is said of the whole lists of lines and of delimiter
//! lines (`specs/Entities`). A [`Path`] names a resource: a component, a module, and the name of a
//! part. What a text names, and how a path is printed, is `specs/Paths`. What the definitions say
//! together stands in the `law_of_..` functions.
#![tactic(auto)]

mod body_parts;
mod boundaries;
mod bytes;
mod entities;
mod faults;
mod heads;
mod laws;
mod lines;
mod parts;
mod path_laws;
mod paths;

pub use crate::boundaries::is_multipart;
pub use crate::bytes::behind_first;
pub use crate::entities::entity_parts;
pub use crate::faults::EntityFault;
pub use crate::laws::{law_of_delimiters, law_of_ended_lines, law_of_lines};
pub use crate::parts::{Part, Parts};
pub use crate::path_laws::{law_of_component_references, law_of_paths, law_of_printed_paths};
pub use crate::paths::{Path, component_ref};
