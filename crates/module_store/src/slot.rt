//! What is kept of one component.

ghost use Rattle.std.specs.Prelude.{◌≡◌, ◌≤◌, List, Some, length, IfOk, OnErr, option_copied, option_map};
ghost use Rattle.carousel_blocks.specs.Changes.{departures};
ghost use Rattle.carousel_blocks.specs.DataEvents.{data_event_id};
ghost use Rattle.carousel_blocks.specs.InForce.{in_force, size_limit};
ghost use Rattle.carousel_blocks.specs.Held.{bytes_held};
ghost use Rattle.carousel_blocks.specs.Message.{Message};
ghost use Rattle.carousel_blocks.specs.Carousel as of_carousel;
ghost use Rattle.module_store.specs.Resources.{HasAtMost, HoldsAtMost, info_in_force, look_in, presence_in, presence_of, resource_of};
ghost use Rattle.module_store.specs.Standing.{delivery_in, has_tag};
ghost use Rattle.module_store.specs.Slots.{IsFresh, TakesSection, KeepsSame};

use crate::entities::{Entities, named};
use crate::laws::law_of_messages;
use crate::numbers::Numbers;
use crate::resources::{Look, ModulePresence, holds_entity};
use crate::staging::take_section;
use bml_bytes::{NoMemory, Text};
use carousel_blocks::{Carousel, Change, law_of_held_sizes};
use psi_tables::Component;
use std::alloc::Global;
use std::marker::Model;

/// A component of the map, with its carousel.
#[derive(Drop)]
pub struct Slot {
    tag: u8,
    pid: u16,
    carousel: Carousel,
    /// The number of the last delivery of each module that is held.
    numbers: Numbers,
    /// The parts of each module that is held and holds an entity.
    entities: Entities,
}

impl Model for Slot {
    ghost use Rattle.module_store.specs.Standing.{ComponentState};
    ghost use Rattle.module_store.specs.Slots.{IsSound};

    ghost Value = { ComponentState };

    ghost view = { λ s. record {
      tag = s.tag;
      pid = s.pid;
      carousel = s.carousel;
      deliveries = s.numbers;
    } };

    ghost invariant = { λ s. IsSound s.carousel s.entities };
}

impl Slot {
    /// A component of which no section came. This takes no memory.
    pub fn new(alloc: Global, component: Component) -> Slot
        ensures { IsFresh component result }
    {
        Slot {
            tag: component.tag,
            pid: component.pid,
            carousel: Carousel::new(alloc),
            numbers: Numbers::new(alloc),
            entities: Entities::new(alloc),
        }
    }

    /// The component's tag.
    pub fn tag(&self) -> u8
        ensures { result ≡ self.now.tag }
    {
        self.tag
    }

    /// The PID on which it is followed.
    pub fn pid(&self) -> u16
        ensures { result ≡ self.now.pid }
    {
        self.pid
    }

    /// The info of a module's entry in force.
    pub fn info_of(&self, module: u16) -> Option<&[u8]>
        ensures { (messages : List Message) → of_carousel.StandsFor self.now.carousel messages
            → option_copied result ≡ info_in_force messages «module» }
    {
        let entry = self.carousel.entry(module)?;
        Some(entry.info.as_slice())
    }

    /// The bytes of a module, where it is held.
    pub fn bytes_of(&self, module: u16) -> Option<&[u8]>
        ensures { (messages : List Message) → of_carousel.StandsFor self.now.carousel messages
            → option_copied result ≡ bytes_held messages «module» }
    {
        self.carousel.bytes_of(module)
    }

    /// The number of the last delivery of a module.
    pub fn number_of(&self, module: u16) -> u64
        ensures { result ≡ delivery_in self.now.deliveries «module» }
    {
        self.numbers.of(module)
    }

    /// The data_event_id of the DII in force.
    pub fn data_event_id(&self) -> Option<u8>
        ensures { (messages : List Message) → of_carousel.StandsFor self.now.carousel messages
            → result ≡ option_map data_event_id (in_force messages) }
    {
        self.carousel.data_event_id()
    }

    /// What goes where the component leaves.
    pub fn departures(&self) -> Result<Vec<Change>, NoMemory>
        ensures { IfOk result (λ found. (messages : List Message)
            → of_carousel.StandsFor self.now.carousel messages
            → found.items ≡ departures messages) }
    {
        self.carousel.departures()
    }

    /// Takes the next intact section of the component, and tells what it changed. The modules that it delivers get
    /// numbers behind the count of deliveries. After `NoMemory` the slot stands for what it stood for, and may be told
    /// the section once more.
    pub fn take(
        &mut self,
        alloc: Global,
        count: &mut u64,
        section: &[u8],
    ) -> Result<Vec<Change>, NoMemory>
        requires { 12 ≤ length section.now }
        ensures taken { IfOk result (λ found.
            TakesSection self.old self.new count.old count.new section.now found.items) }
        ensures same { OnErr result (KeepsSame self.old self.new count.old count.new) }
    {
        law_of_messages();
        self.numbers.make_room(alloc)?;
        let changes = take_section(alloc, &mut self.carousel, &mut self.entities, section)?;
        *count = self.numbers.note(*count, changes.as_slice());
        self.entities.drop_reset(changes.as_slice());
        Ok(changes)
    }

    /// Whether a module is there. This takes no memory.
    pub fn presence(&self, module: u16) -> ModulePresence<'_>
        ensures presence { (messages : List Message)
            → of_carousel.StandsFor self.now.carousel messages
            → presence_of result ≡ presence_in (Some messages) «module» }
        ensures bound { HoldsAtMost size_limit (presence_of result) }
    {
        law_of_held_sizes();
        let Some(entry) = self.carousel.entry(module) else {
            return ModulePresence::Absent;
        };
        if self.carousel.skip_of(module).is_some() {
            return ModulePresence::Absent;
        }
        match self.carousel.bytes_of(module) {
            Some(bytes) => ModulePresence::Held {
                is_entity: holds_entity(entry.info.as_slice()),
                bytes,
            },
            None => ModulePresence::Announced,
        }
    }

    /// What is there under a name of a module. This takes no memory.
    pub fn resource(&self, module: u16, name: &Text) -> Look<'_>
        ensures look { (messages : List Message) → of_carousel.StandsFor self.now.carousel messages
            → resource_of result ≡ look_in (Some messages) «module» name.now }
        ensures bound { HasAtMost size_limit (resource_of result) }
    {
        law_of_held_sizes();
        if self.carousel.transaction().is_none() {
            return Look::Waiting;
        }
        let Some(entry) = self.carousel.entry(module) else {
            return Look::Missing;
        };
        if self.carousel.skip_of(module).is_some() {
            return Look::Missing;
        }
        let Some(bytes) = self.carousel.bytes_of(module) else {
            return Look::Waiting;
        };
        let parts = self.entities.of(module);
        let is_entity = holds_entity(entry.info.as_slice());
        Look::found_or_missing(named(parts, is_entity, bytes, name))
    }
}
