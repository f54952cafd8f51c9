//! The components of a service with their carousels.

ghost use Rattle.std.specs.Prelude.{◌≡◌, ◌≤◌, ◌++◌, [], ℕ, List, true, false, length, AllPairs, Some, position, IfOk, OnOk, OnErr, MatchOption, is_some, map, option_copied};
ghost use Rattle.psi_tables.specs.Components.{AreApart, pid_in};
ghost use Rattle.carousel_blocks.specs.InForce.{size_limit};
ghost use Rattle.carousel_blocks.specs.Changes.{departures};
ghost use Rattle.carousel_blocks.specs.Carousel as of_carousel;
ghost use Rattle.module_store.specs.Store.{Followed, Stored, component_in, gone_with, at_start, changes_by, with_section, with_map, gone_by, number_of, messages_of_component, is_kept as kept_by};
ghost use Rattle.module_store.specs.Resources.{HasAtMost, HoldsAtMost, look, presence, presence_of, resource_of, start_info, start_path};
ghost use Rattle.module_store.specs.Resources as resources;
ghost use Rattle.module_store.specs.DataEvents.{event_id};
ghost use Rattle.module_store.specs.Standing.{ForStored, StandsFor, has_component, has_tag, component_with};
ghost use Rattle.module_store.specs.Slots.{AreAdded, kept_of, is_followed as followed_by};

use crate::resources::{Look, ModulePresence, holds_entity};
use crate::slot::Slot;
use bml_bytes::{NoMemory, Text};
use carousel_blocks::Change;
use multipart_entities::Path;
use psi_tables::{Component, Services};
use std::alloc::Global;
use std::marker::Model;

/// The component with the start document.
const START_COMPONENT: u8 = 0x40;

/// The module with the start document.
const START_MODULE: u16 = 0x0000;

/// The name of the start document in its module, where this holds an entity.
const START_NAME: &[u8] = b"startup.bml";

/// The components of a service, each with its carousel, and the numbers of their deliveries.
///
/// It is told each component map by `set_components`, and each intact section of a component by `feed`.
#[derive(Drop)]
pub struct Store {
    alloc: Global,
    slots: Vec<Slot>,
    /// The number of the last delivery, 0 before the first.
    count: u64,
}

impl Model for Store {
    ghost use Rattle.module_store.specs.Standing.{StoreState};
    ghost use Rattle.module_store.specs.Slots.{AreDistinct};

    ghost Value = { StoreState };

    ghost view = { λ s. record {
      components = s.slots.items;
      count = s.count;
    } };

    ghost invariant = { λ s. AreDistinct s.slots.items };
}

impl Store {
    /// A store without components. This takes no memory.
    pub fn new(alloc: Global) -> Store
        ensures stands { StandsFor result at_start }
    {
        Store {
            alloc,
            slots: Vec::new(alloc),
            count: 0,
        }
    }

    /// Whether the component is one of those in the last component map.
    pub fn has_component(&self, component: u8) -> bool
        ensures has { result ≡ has_component self.now component }
        ensures stands { ForStored self.now (λ stored. result
            ≡ is_some (messages_of_component stored component)) }
    {
        place_of(&self.slots, component).is_some()
    }

    /// Takes the next intact section of a component, and tells what it changed in the component's modules, in ascending
    /// module number. Each module that it delivers gets the next number. A component that isn't in the map has no
    /// modules, and nothing changes. After `NoMemory` the store is as before, and may be told the section once more.
    pub fn feed(&mut self, component: u8, section: &[u8]) -> Result<Vec<Change>, NoMemory>
        requires { 12 ≤ length section.now }
        ensures stands { OnOk result (ForStored self.old
            (λ stored. StandsFor self.new (with_section component section.now stored))) }
        ensures changes { IfOk result (λ found. ForStored self.old (λ stored. found.items
            ≡ changes_by component section.now stored)) }
        ensures before { OnErr result (ForStored self.old (λ stored. StandsFor self.new stored)) }
        ensures components { (tag : ℕ) → has_component self.new tag ≡ has_component self.old tag }
    {
        let Some(place) = place_of(&self.slots, component) else {
            return Ok(Vec::new(self.alloc));
        };
        let slot = &mut self.slots[place];
        let changes = slot.take(self.alloc, &mut self.count, section)?;
        Ok(changes)
    }

    /// The data_event_id of the service, 0 to 15: that of the DII in force of component 0x40; None where it has none. The
    /// cost is that of a look at the components, and this takes no memory.
    pub fn data_event_id(&self) -> Option<u8>
        ensures { ForStored self.now (λ stored. result ≡ event_id stored) }
    {
        let slot = slot_of(&self.slots, START_COMPONENT)?;
        slot.data_event_id()
    }

    /// Takes the component map of the service. A component that stays on its PID keeps its modules; every other begins
    /// without. Tells each entry of a component that left the map or got another PID as gone, with the component, in
    /// ascending component and then module number. After `NoMemory` the store is as before.
    pub fn set_components(&mut self, services: &Services) -> Result<Vec<(u8, Change)>, NoMemory>
        ensures stands { OnOk result (ForStored self.old
            (λ stored. StandsFor self.new (with_map services.now.map stored))) }
        ensures gone { IfOk result (λ found. ForStored self.old (λ stored. found.items
            ≡ gone_by services.now.map stored)) }
        ensures same { OnErr result (self.new ≡ self.old) }
        ensures components { OnOk result ((tag : ℕ)
            → has_component self.new tag ≡ is_some (pid_in services.now.map tag)) }
    {
        let components = services.components();
        let gone = self.gone_by(components)?;
        let mut added = added_to(self.alloc, &self.slots, components)?;
        self.slots.append(&mut added)?;
        keep(&mut self.slots, components);
        Ok(gone)
    }

    /// The number of the delivery that brought a module which is held, counted from 1 over all components; None where
    /// the module isn't held. The count stays at 2^64 - 1 once it is there. This takes no memory.
    pub fn delivery_number(&self, component: u8, module: u16) -> Option<u64>
        ensures { ForStored self.now (λ stored. result ≡ number_of stored component «module») }
    {
        let slot = slot_of(&self.slots, component)?;
        slot.bytes_of(module)?;
        Some(slot.number_of(module))
    }

    /// What is there under a path: `Found` with the resource's very bytes, at most 1,048,576; `Waiting` exactly where the
    /// component is in the map and has no DII in force, or has an entry for the module that is neither skipped nor held;
    /// `Missing` exactly where the path is neither found nor waited for. The cost is that of a few look-ups by hash, and
    /// this takes no memory.
    pub fn resource(&self, path: &Path) -> Look<'_>
        ensures look { ForStored self.now (λ stored. resource_of result ≡ look stored path.now) }
        ensures bound { HasAtMost size_limit (resource_of result) }
    {
        match slot_of(&self.slots, path.component) {
            None => Look::Missing,
            Some(slot) => slot.resource(path.module, &path.name),
        }
    }

    /// Whether a module of a component is there, and its bytes, at most 1,048,576, where it is held. The cost is that of a
    /// few look-ups by hash, and this takes no memory.
    pub fn presence(&self, component: u8, module: u16) -> ModulePresence<'_>
        ensures presence { ForStored self.now (λ stored. presence_of result
            ≡ presence stored component «module») }
        ensures bound { HoldsAtMost size_limit (presence_of result) }
    {
        match slot_of(&self.slots, component) {
            None => ModulePresence::Absent,
            Some(slot) => slot.presence(module),
        }
    }

    /// The path of the start document: module 0000 of component 0x40 as a whole, where its entry in force says that it
    /// holds no entity, and else its part `startup.bml`. Memory is taken for the name.
    pub fn start_path(&self) -> Result<Path, NoMemory>
        ensures { IfOk result (λ path. ForStored self.now (λ stored. path ≡ start_path stored)) }
    {
        let name = Text::of_bytes(self.alloc, start_name(self.start_info()))?;
        Ok(Path {
            component: START_COMPONENT,
            module: START_MODULE,
            name,
        })
    }

    // The info of the start document's module, where it has an entry.
    fn start_info(&self) -> Option<&[u8]>
        ensures { ForStored self.now (λ stored. option_copied result ≡ start_info stored) }
    {
        let slot = slot_of(&self.slots, START_COMPONENT)?;
        slot.info_of(START_MODULE)
    }

    // What goes with the components that leave, in ascending component.
    fn gone_by(&self, components: &[Component]) -> Result<Vec<(u8, Change)>, NoMemory>
        ensures { IfOk result (λ found. ForStored self.now (λ stored. found.items
            ≡ gone_by components.now stored)) }
    {
        let mut gone = Vec::new(self.alloc);
        'tags: for tag in 0..=u8::MAX {
            self.add_gone(&mut gone, components, tag)?;
        }
        Ok(gone)
    }

    // Adds what goes with the component of that tag, where there is one.
    fn add_gone(
        &self,
        gone: &mut Vec<(u8, Change)>,
        components: &[Component],
        tag: u8,
    ) -> Result<(), NoMemory>
        ensures { OnOk result (ForStored self.now (λ stored. gone.new.items
            ≡ gone.old.items ++ gone_with components.now (component_in stored.components tag))) }
    {
        match slot_of(&self.slots, tag) {
            None => Ok(()),
            Some(slot) => add_departures(gone, components, slot),
        }
    }
}

// The name of the start document, in a module with this info.
fn start_name(info: Option<&[u8]>) -> &'static [u8]
    ensures { result.now ≡ resources.start_name (option_copied info.entry) }
{
    match info {
        Some(info) if !holds_entity(info) => b"",
        _ => START_NAME,
    }
}

// Where the component with that tag is.
fn place_of(slots: &[Slot], tag: u8) -> Option<usize>
    ensures { result ≡ position (has_tag tag) slots.now }
{
    slots.iter().position(|slot| slot.tag() == tag)
}

fn slot_of(slots: &[Slot], tag: u8) -> Option<&Slot>
    ensures { option_copied result ≡ component_with slots.now tag }
{
    slots.iter().find(|slot| slot.tag() == tag)
}

// Whether the map has the component on the same PID.
fn is_kept(components: &[Component], slot: &Slot) -> bool
    ensures { result ≡ kept_by components.now slot.now.tag slot.now.pid }
{
    components.iter().any(|component| component.tag == slot.tag() && component.pid == slot.pid())
}

// Gives back what is kept of components that the map doesn't have on the same PID.
fn keep(slots: &mut Vec<Slot>, components: &[Component])
    ensures { slots.new.items ≡ kept_of components.now slots.old.items }
{
    slots.retain(|slot| is_kept(components, slot));
}

// Whether the component is followed on the same PID.
fn is_followed(slots: &[Slot], component: &Component) -> bool
    ensures { result ≡ followed_by slots.now component.now }
{
    slots.iter().any(|slot| slot.tag() == component.tag && slot.pid() == component.pid)
}

// The components that aren't followed on the same PID, without sections.
fn added_to(alloc: Global, slots: &[Slot], components: &[Component]) -> Result<Vec<Slot>, NoMemory>
    ensures { IfOk result (λ added. AreAdded slots.now components.now added.items) }
{
    let mut added = Vec::new(alloc);
    'components: for component in components {
        if !is_followed(slots, component) {
            added.push(Slot::new(alloc, *component))?;
        }
    }
    Ok(added)
}

// Adds what goes with a component, where it isn't kept.
fn add_departures(
    gone: &mut Vec<(u8, Change)>,
    components: &[Component],
    slot: &Slot,
) -> Result<(), NoMemory>
    ensures { OnOk result ((component : Followed) → component.tag ≡ slot.now.tag
        → component.pid ≡ slot.now.pid
        → of_carousel.StandsFor slot.now.carousel component.messages
        → gone.new.items ≡ gone.old.items ++ gone_with components.now (Some component)) }
{
    if is_kept(components, slot) {
        return Ok(());
    }
    let departures = slot.departures()?;
    add_changes(gone, slot.tag(), departures.as_slice())
}

// Adds changes of a component.
fn add_changes(
    changes: &mut Vec<(u8, Change)>,
    component: u8,
    more: &[Change],
) -> Result<(), NoMemory>
    ensures { OnOk result (changes.new.items
        ≡ changes.old.items ++ map (λ change. (component, change)) more.now) }
{
    'more: for change in more {
        changes.push((component, *change))?;
    }
    Ok(())
}
