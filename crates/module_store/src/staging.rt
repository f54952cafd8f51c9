//! The parts of the module that a section made whole.

ghost use Rattle.std.specs.Prelude.{◌≡◌, ◌≤◌, ◌++◌, ◌∷◌, [], ℕ, false, List, length, find, is_none, option_map, IfOk, OnOk, OnErr};
ghost use Rattle.std.specs.Option.{option_map_or};
ghost use Rattle.carousel_blocks.specs.Message.{Message, messages_of};
ghost use Rattle.carousel_blocks.specs.Carousel.{StandsFor};
ghost use Rattle.carousel_blocks.specs.Changes.{changes};
ghost use Rattle.module_store.specs.Resources.{holds_entity, info_in_force};
ghost use Rattle.module_store.specs.Entities.{HasLowNumber, MakesWhole, StagesParts};

use crate::entities::{Entities, parts_of};
use crate::laws::law_of_messages;
use crate::resources::holds_entity;
use bml_bytes::NoMemory;
use carousel_blocks::{Carousel, Change};
use std::alloc::Global;

/// Takes the next section of a component, and keeps the parts of the module that it makes whole, where this holds an
/// entity. After `NoMemory` the carousel stands for what it stood for, and no parts have changed.
pub fn take_section(
    alloc: Global,
    carousel: &mut Carousel,
    entities: &mut Entities,
    section: &[u8],
) -> Result<Vec<Change>, NoMemory>
    requires { 12 ≤ length section.now }
    ensures stands { OnOk result ((messages : List Message) → StandsFor carousel.old messages
        → StandsFor carousel.new (messages ++ messages_of (section.now ∷ []))) }
    ensures changes { IfOk result (λ found. (messages : List Message)
        → StandsFor carousel.old messages
        → found.items ≡ changes messages (messages ++ messages_of (section.now ∷ []))) }
    ensures parts { OnOk result ((messages : List Message) → StandsFor carousel.old messages
        → StagesParts entities.old entities.new messages section.now) }
    ensures number { OnOk result (HasLowNumber section.now) }
    ensures before { OnErr result ((messages : List Message) → StandsFor carousel.old messages
        → StandsFor carousel.new messages) }
    ensures same { OnErr result (entities.new ≡ entities.old) }
{
    let changes = carousel.take(section)?;
    match keep_parts(alloc, carousel, entities, changes.as_slice()) {
        Ok(()) => Ok(changes),
        Err(error) => {
            carousel.take_back(section);
            Err(error)
        }
    }
}

// Keeps the parts of the module that a section made whole, where it holds an entity: the carousel took the section, and
// this is what it told. After `NoMemory` no parts have changed, and the section made a module whole.
fn keep_parts(
    alloc: Global,
    carousel: &Carousel,
    entities: &mut Entities,
    told: &[Change],
) -> Result<(), NoMemory>
    ensures kept { OnOk result ((messages : List Message) (section : List ℕ)
        → StandsFor carousel.now (messages ++ messages_of (section ∷ []))
        → told.now ≡ changes messages (messages ++ messages_of (section ∷ []))
        → StagesParts entities.old entities.new messages section) }
    ensures same { OnErr result (entities.new ≡ entities.old) }
    ensures whole { OnErr result ((messages : List Message) (section : List ℕ)
        → StandsFor carousel.now (messages ++ messages_of (section ∷ []))
        → told.now ≡ changes messages (messages ++ messages_of (section ∷ []))
        → MakesWhole messages section) }
{
    law_of_messages();
    let Some(module) = completed_by(told) else {
        return Ok(());
    };
    if !is_entity(carousel, module) {
        return Ok(());
    }
    let Some(bytes) = carousel.bytes_of(module) else {
        return Ok(());
    };
    let parts = parts_of(alloc, bytes)?;
    entities.put(module, parts)
}

// The module that was completed by a block, where one was: its change has no status.
fn completed_by(changes: &[Change]) -> Option<u16>
    ensures { result ≡ option_map (λ change. change.«module») (find
        (λ change. is_none change.status) changes.now) }
{
    let change = changes.iter().find(|change| change.status.is_none())?;
    Some(change.module)
}

// Whether a module is announced and holds an entity.
fn is_entity(carousel: &Carousel, module: u16) -> bool
    ensures { (messages : List Message) → StandsFor carousel.now messages
        → result ≡ option_map_or holds_entity (info_in_force messages «module») false }
{
    match carousel.entry(module) {
        None => false,
        Some(entry) => holds_entity(entry.info.as_slice()),
    }
}
