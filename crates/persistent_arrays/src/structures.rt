//! Which fields a persistent array has.

ghost use Rattle.std.specs.Prelude.{◌≡◌, ◌<◌, ◌^◌, ◌++◌, ◌∷◌, [], List, All, length, slice_get, IfOk, MatchOption};
ghost use Rattle.persistent_arrays.specs.declared.kinds.FieldKind.{FieldKind};
ghost use Rattle.persistent_arrays.specs.Structures.{IsKind, IsStructure, Spells, structure_spelled};

use crate::kinds::{FieldKind, read_kind};
use crate::spelling::next_code;
use bml_bytes::{NoMemory, Text};
use std::alloc::Global;
use std::marker::Model;

// How many fields a structure may have. A text that spells more is longer than any that memory has room for.
const MOST_FIELDS: usize = 0xFFFF_FFFF;

/// The fields of a persistent array, one at least and fewer than 2^32. Contracts see the list of their kinds.
#[derive(Debug, Drop)]
pub struct Structure {
    kinds: Vec<FieldKind>,
}

impl Model for Structure {
    ghost use Rattle.std.specs.Prelude.{List};
    ghost use Rattle.persistent_arrays.specs.declared.kinds.FieldKind.{FieldKind};
    ghost use Rattle.persistent_arrays.specs.devices.Structures.{IsCounted};

    ghost Value = { List FieldKind };

    ghost view = { λ structure. structure.kinds.items };

    ghost invariant = { λ structure. IsCounted structure.kinds.items };
}

impl Structure {
    /// The structure that a text spells, and None exactly where it spells none. For one of 2^32 fields or more there is
    /// no memory.
    pub fn read(alloc: Global, text: &Text) -> Result<Option<Structure>, NoMemory>
        ensures spells { IfOk result (λ found. MatchOption found
            ((kinds : List FieldKind) → ¬ Spells text.now kinds)
            (λ structure. Spells text.now structure)) }
        ensures spelled { IfOk result (λ found. found ≡ structure_spelled text.now) }
    {
        let mut kinds = Vec::new(alloc);
        let mut left = text.codes();
        'kinds: while let Some((kind, behind)) = read_kind(left) {
            push_kind(kind, &mut kinds)?;
            let Some((comma, next)) = next_code(behind) else {
                return Ok(Some(Structure { kinds }));
            };
            if comma != u16::from(b',') {
                return Ok(None);
            }
            left = next;
        }
        Ok(None)
    }

    /// The kind of the field at a place, counted from 0, and None past the last one. This takes no memory.
    pub fn kind(&self, place: usize) -> Option<FieldKind>
        ensures { result ≡ slice_get self.now place }
    {
        self.kinds.as_slice().get(place).copied()
    }

    /// All of its kinds. This takes no memory.
    pub fn kinds(&self) -> &[FieldKind]
        ensures kinds { result.now ≡ self.now }
        ensures sizes { All IsKind result.now }
        ensures structure { IsStructure result.now }
        ensures few { length result.now < 2 ^ 32 }
    {
        self.kinds.as_slice()
    }
}

// Adds a kind to those of a structure.
fn push_kind(kind: FieldKind, kinds: &mut Vec<FieldKind>) -> Result<(), NoMemory>
    ensures items { IfOk result (λ _. kinds.new.items ≡ kinds.old.items ++ kind ∷ []) }
    ensures few { IfOk result (λ _. length kinds.new.items < 2 ^ 32) }
{
    if kinds.len() >= MOST_FIELDS {
        return Err(NoMemory);
    }
    kinds.push(kind)?;
    Ok(())
}
