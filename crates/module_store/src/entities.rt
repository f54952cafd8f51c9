//! The entities that modules hold.

ghost use Rattle.std.specs.Prelude.{◌≡◌, ◌≤◌, ℕ, List, [], true, All, length, option_copied, option_map, OnOk, OnErr, IfOk, IfSome};
ghost use Rattle.std.specs.List.{slice_range};
ghost use Rattle.multipart_entities.specs.declared.parts.Part.{Part};
ghost use Rattle.multipart_entities.specs.Parts.{place_of};
ghost use Rattle.module_store.specs.Resources as resources;
ghost use Rattle.module_store.specs.Entities.{ArePartsOf, IsInside, parts_at, with_parts, without_reset};

use bml_bytes::{NoMemory, Text};
use carousel_blocks::Change;
use multipart_entities::{EntityFault, Parts, entity_parts};
use std::alloc::Global;
use std::collections::HashMap;
use std::marker::Model;

/// The parts of the entities that modules hold, by the modules' numbers. Contracts see the list of them.
#[derive(Drop)]
pub struct Entities {
    parts: HashMap<u16, Parts>,
}

impl Model for Entities {
    ghost Value = { List (ℕ × List Part) };

    ghost view = { λ entities. entities.parts.entries };
}

impl Entities {
    /// No parts. This takes no memory.
    pub fn new(alloc: Global) -> Entities
        ensures { result ≡ [] }
    {
        Entities {
            parts: HashMap::new(alloc),
        }
    }

    /// The parts that are kept for a module.
    pub fn of(&self, module: u16) -> Option<&Parts>
        ensures { option_copied result ≡ parts_at self.now «module» }
    {
        self.parts.get(&module)
    }

    /// Keeps these parts for a module, or none. After `NoMemory` everything is as before.
    pub fn put(&mut self, module: u16, parts: Option<Parts>) -> Result<(), NoMemory>
        ensures ok { OnOk result ((number : ℕ)
            → parts_at self.new number ≡ with_parts «module» parts (parts_at self.old) number) }
        ensures err { OnErr result (self.new ≡ self.old) }
    {
        match parts {
            None => drop(self.parts.remove(&module)),
            Some(parts) => drop(self.parts.insert(module, parts)?),
        }
        Ok(())
    }

    /// Drops the parts of the modules whose entries went, changed or came.
    pub fn drop_reset(&mut self, changes: &[Change])
        ensures { (number : ℕ)
            → parts_at self.new number ≡ without_reset changes.now (parts_at self.old) number }
    {
        'changes: for change in changes {
            if change.status.is_some() {
                drop(self.parts.remove(&change.module));
            }
        }
    }
}

/// The parts of an entity, and none where it is malformed or has too many.
pub fn parts_of(alloc: Global, bytes: &[u8]) -> Result<Option<Parts>, NoMemory>
    ensures { IfOk result (λ parts. ArePartsOf bytes.now parts) }
{
    match entity_parts(alloc, bytes) {
        Ok(parts) => Ok(Some(parts)),
        Err(EntityFault::NoMemory) => Err(NoMemory),
        Err(EntityFault::Malformed | EntityFault::TooManyParts) => Ok(None),
    }
}

/// The bytes that these bytes have under a name, as an entity or as one resource. The parts are wanted where they are an
/// entity.
pub fn named<'a>(
    parts: Option<&Parts>,
    is_entity: bool,
    bytes: &'a [u8],
    name: &Text,
) -> Option<&'a [u8]>
    ensures named { (is_entity ≡ true → ArePartsOf bytes.now (option_copied parts.entry))
        → option_copied result ≡ resources.named_as is_entity bytes.now name.now }
    ensures within { IfSome result (λ found. length found.now ≤ length bytes.now) }
{
    if is_entity {
        part_named(parts?, bytes, name)
    } else {
        whole_named(bytes, name)
    }
}

// The bytes of a part of an entity.
fn part_named<'a>(parts: &Parts, bytes: &'a [u8], name: &Text) -> Option<&'a [u8]>
    ensures named { All (IsInside (length bytes.now)) parts.now
        → option_copied result
        ≡ option_map (λ place. slice_range bytes.now place.0 place.1)
        (place_of name.now parts.now) }
    ensures within { IfSome result (λ found. length found.now ≤ length bytes.now) }
{
    let (start, end) = parts.find(name)?;
    bytes.get(start..end)
}

// The bytes of a module that is one resource.
fn whole_named<'a>(bytes: &'a [u8], name: &Text) -> Option<&'a [u8]>
    ensures named { option_copied result ≡ resources.whole_named bytes.now name.now }
    ensures within { IfSome result (λ found. length found.now ≤ length bytes.now) }
{
    if name.len() > 0 {
        return None;
    }
    Some(bytes)
}
