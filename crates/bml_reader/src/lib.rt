//! The reader of documents: bytes in, the tree of elements, attributes and texts out.
//!
//! `specs/Grammar.antt` has the grammar beside its syntax, `specs/Markup.antt` how tags, texts and
//! remarks are spelled, and `specs/Faults.antt` what else may be wrong. [`read_document`] gives
//! exactly the tree that the bytes stand for, or the first fault that they have, and
//! `law_of_documents` says that they stand for at most one tree. What bytes read as is also a
//! function of them, in `specs/Readings.antt`, and `law_of_readings` says that it agrees with the
//! grammar. The reader keeps the open elements in a list of its own and reads each byte a bounded
//! number of times; a tree that has reached the limit on nodes is let go while the rest is read.
#![tactic(auto)]

mod builders;
mod bytes;
mod documents;
mod faults;
mod markup;
mod phases;
mod readers;
mod references;
mod tags;

pub use crate::documents::{law_of_documents, law_of_readings, read_document};
pub use crate::faults::DocFault;
