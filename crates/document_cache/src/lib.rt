//! Documents that were loaded, kept for another load of the same bytes.
//!
//! A [`Cache`] keeps at most 8 documents, each with the resources that it needed, under the path of
//! its module and the number by which a store tells which bytes it saw there. Contracts see the
//! list of them, the one that was used last in front (`specs/Caching.antt`). [`Cache::peek`] leaves
//! that order, and [`Cache::find`] brings what it finds to the front; [`Cache::keep`] puts a
//! document in front, and drops the last where there is one too many. Whether what is found may be
//! used again is for the caller to say. Each call costs a look-up by hash. [`law_of_caching`] says
//! of that list, in words of its own, what is found, what a use leaves and what is dropped.
#![tactic(auto)]

mod caches;
mod keys;
mod laws;

pub use crate::caches::{Cache, Cached, MOST_DOCUMENTS};
pub use crate::keys::CacheKey;
pub use crate::laws::law_of_caching;
