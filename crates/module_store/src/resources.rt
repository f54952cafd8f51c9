//! Resources: what a look-up finds, and which modules hold entities.

ghost use Rattle.std.specs.Prelude.{◌≡◌};
ghost use Rattle.module_store.specs.Resources.{holds_entity};

use dsmcc_messages::{MEDIA_TYPE, find_descriptor};
use multipart_entities::is_multipart;

/// What there is under a path.
#[derive(Clone, Copy, Debug, PartialEq, Eq)]
pub enum Look<'a> {
    /// The resource's bytes.
    Found(&'a [u8]),
    /// Its module is announced, or may be, and isn't there yet.
    Waiting,
    /// There is none.
    Missing,
}

/// Whether a module is there.
#[derive(Clone, Copy, Debug, PartialEq, Eq)]
pub enum ModulePresence<'a> {
    /// It has no entry in force, or its entry is skipped, or its component isn't in the map.
    Absent,
    /// It has an entry, and isn't held yet.
    Announced,
    /// It is held.
    Held {
        /// Whether it holds an entity.
        is_entity: bool,
        /// Its bytes.
        bytes: &'a [u8],
    },
}

impl<'a> Look<'a> {
    ghost use Rattle.std.specs.Prelude.{option_copied};
    ghost use Rattle.module_store.specs.Resources.{found_or_missing, resource_of};

    // Missing where there are no bytes.
    pub(crate) fn found_or_missing(found: Option<&'a [u8]>) -> Look<'a>
        ensures { resource_of result ≡ found_or_missing (option_copied found.entry) }
    {
        match found {
            None => Look::Missing,
            Some(bytes) => Look::Found(bytes),
        }
    }
}

/// Whether a module with this info holds an entity: it has no Type descriptor, or one that tells several parts. Every
/// other module is one resource.
pub fn holds_entity(info: &[u8]) -> bool
    ensures { result ≡ holds_entity info.now }
{
    match find_descriptor(info, MEDIA_TYPE) {
        Ok(Some(media)) => is_multipart(media),
        Ok(None) | Err(_) => true,
    }
}
