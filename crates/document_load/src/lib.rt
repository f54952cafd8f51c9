//! A document together with what it needs.
//!
//! `specs/Needs.antt` says which resources a document needs: what its elements `link` and `script`
//! name, in document order. [`read_draft`] reads a document and tells these paths; a [`Draft`]
//! takes their bytes, in any order and any number of times, and [`Draft::finish`] makes the
//! [`Document`], which has the tree; the rules of its style texts: the texts of its `style`
//! elements and what was given for its links (`specs/StyleTexts.antt`); and its scripts, those of
//! its `script` elements and handler attributes: the programs of the good ones and the numbers of
//! the bad ones (`specs/Scripts.antt`). [`Document::copy`] makes an equal document of its own, as
//! `specs/ToldDocuments.antt` says what is told of a document. What the definition of needs says of
//! a part of a document stands in `law_of_needs`, and what gifts in order lead to in
//! `law_of_gifts`.
#![tactic(auto)]

mod drafts;
mod handler_kinds;
mod laws;
mod needs;
mod node_texts;
mod scripts;
mod style_texts;

pub use crate::drafts::{Document, Draft, read_draft};
pub use crate::handler_kinds::HandlerKind;
pub use crate::laws::{law_of_gifts, law_of_needs};
pub use crate::scripts::Handler;
