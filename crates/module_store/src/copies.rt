//! A copy of a module that was held.

ghost use Rattle.std.specs.Prelude.{◌≡◌, ◌≤◌, IfOk, length};
ghost use Rattle.carousel_blocks.specs.InForce.{size_limit};
ghost use Rattle.module_store.specs.Resources.{HasAtMost, found_or_missing, named_as, resource_of};

use crate::entities::{named, parts_of};
use crate::resources::Look;
use bml_bytes::{NoMemory, Text};
use multipart_entities::Parts;
use std::alloc::Global;
use std::marker::Model;

/// The bytes of a module that was held, whether they are an entity by the Type that it had then, and the number of the
/// delivery that brought it. Contracts see all three.
#[derive(Drop)]
pub struct ModuleCopy {
    number: Option<u64>,
    is_entity: bool,
    bytes: Vec<u8>,
    /// The parts of an entity.
    parts: Option<Parts>,
}

impl Model for ModuleCopy {
    ghost use Rattle.std.specs.Prelude.{◌≡◌, true};
    ghost use Rattle.module_store.specs.Copies.{IsCopy, KeptModule};

    ghost Value = { KeptModule };

    ghost view = { λ c. record {
      number = c.number;
      is_entity = c.is_entity;
      bytes = c.bytes.items;
    } };

    ghost invariant = { λ c. IsCopy c.is_entity c.bytes.items c.parts };
}

impl ModuleCopy {
    /// Copies the bytes of a module, at most 1,048,576, and finds the parts of an entity.
    pub fn new(
        alloc: Global,
        number: Option<u64>,
        is_entity: bool,
        bytes: &[u8],
    ) -> Result<ModuleCopy, NoMemory>
        requires { length bytes.now ≤ size_limit }
        ensures { IfOk result (λ made. made
            ≡ record { number = number; is_entity = is_entity; bytes = bytes.now }) }
    {
        let parts = if is_entity {
            parts_of(alloc, bytes)?
        } else {
            None
        };
        let mut copied = Vec::new(alloc);
        copied.extend_from_slice(bytes)?;
        Ok(ModuleCopy {
            number,
            is_entity,
            bytes: copied,
            parts,
        })
    }

    /// The number of the delivery that brought the module.
    pub fn number(&self) -> Option<u64>
        ensures { result ≡ self.now.number }
    {
        self.number
    }

    /// Whether the module held an entity.
    pub fn is_entity(&self) -> bool
        ensures { result ≡ self.now.is_entity }
    {
        self.is_entity
    }

    /// What is there under a name of it. This takes no memory.
    pub fn resource(&self, name: &Text) -> Look<'_>
        ensures look { resource_of result
            ≡ found_or_missing (named_as self.now.is_entity self.now.bytes name.now) }
        ensures bound { HasAtMost size_limit (resource_of result) }
    {
        let bytes = self.bytes.as_slice();
        Look::found_or_missing(named(self.parts.as_ref(), self.is_entity, bytes, name))
    }
}
