//! Download messages of DSM-CC: the DII, which says which modules a data carousel has, the DDB, which
//! brings one block of a module, and the descriptors in a module's info.
//!
//! For each there is a relation between bytes and fields, in the direction in which they are written, and
//! the readers answer the fields that stand in it with the bytes handed in. They refuse a section exactly
//! where it is of another kind, or of the kind and without fields, or where memory runs out. Bytes have at
//! most one list of fields.
#![tactic(auto)]

mod ddb;
mod descriptor;
mod dii;
mod entry;
mod laws;
mod message;

pub use crate::ddb::{Ddb, read_ddb};
pub use crate::descriptor::{COMPRESSION_TYPE, MEDIA_TYPE, find_descriptor};
pub use crate::dii::{Dii, read_dii};
pub use crate::entry::Entry;
pub use crate::laws::{law_of_ddb, law_of_dii};
