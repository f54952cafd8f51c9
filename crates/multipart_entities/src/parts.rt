//! The parts of an entity.

ghost use Rattle.std.specs.Prelude.{◌≡◌, [], OnOk};
ghost use Rattle.multipart_entities.specs.Parts.{place_of};
ghost use Rattle.multipart_entities.specs.PartViews.{with_part};

use bml_bytes::{NoMemory, Text};
use indexmap::IndexMap;
use std::alloc::Global;
use std::marker::Model;

/// A part of an entity: its name, and where its bytes stand among those of the entity, from `start`
/// up to `end`.
#[derive(Drop)]
pub struct Part {
    pub name: Text,
    pub start: usize,
    pub end: usize,
}

/// The parts of an entity, in the order in which they stand; of parts with one name the first
/// alone. Contracts see the list of them.
#[derive(Drop)]
pub struct Parts {
    places: IndexMap<Text, (usize, usize)>,
}

impl Model for Parts {
    ghost use Rattle.std.specs.Prelude.{List, map};
    ghost use Rattle.multipart_entities.specs.declared.parts.Part.{Part};
    ghost use Rattle.multipart_entities.specs.Places.{part_of_entry};

    ghost Value = { List Part };

    ghost view = { λ parts. map part_of_entry parts.places.entries };
}

impl Parts {
    /// No parts.
    pub(crate) fn new(alloc: Global) -> Parts
        ensures { result ≡ [] }
    {
        Parts {
            places: IndexMap::new(alloc),
        }
    }

    /// Adds a part, unless one of that name is there.
    pub(crate) fn add(&mut self, part: Part) -> Result<(), NoMemory>
        ensures { OnOk result (self.new ≡ with_part self.old part) }
    {
        if !self.places.contains_key(&part.name) {
            self.places.insert(part.name, (part.start, part.end))?;
        }
        Ok(())
    }

    /// Where the bytes of the part with that name stand: from which place up to which. The cost is
    /// that of one look-up by the name's hash. This takes no memory.
    pub fn find(&self, name: &Text) -> Option<(usize, usize)>
        ensures { result ≡ place_of name.now self.now }
    {
        self.places.get(name).copied()
    }
}
