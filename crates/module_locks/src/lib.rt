//! The modules of a service with the locks on them: what a script has locked stays as it was held,
//! until it is unlocked or a data event comes.
//!
//! [`Modules`] are the store of a service (`module_store`) with its locks (`specs/Locks.antt`). A lock
//! on a module that isn't held yet is wanted, and keeps the module from when it is delivered; a
//! look-up of a module that is kept sees what is kept of it, whatever came for the module since. At
//! most 64 locks stand. A module that is locked is copied before the next section or map, so that
//! locking takes no more memory than a place for the lock.
#![tactic(auto)]

mod answers;
mod laws;
mod locks;
mod modules;

pub use crate::answers::LockAnswer;
pub use crate::laws::{
    law_of_few_locks, law_of_found_paths, law_of_kept_modules, law_of_seen_numbers,
    law_of_standing_locks, law_of_start_documents,
};
pub use crate::modules::{Modules, SectionChanges};
pub use module_store::{Change, ChangeLine, Look, push_change_line};
