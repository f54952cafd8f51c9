//! The modules of a service, and the locks on them.

ghost use Rattle.std.specs.Prelude.{◌≡◌, ◌≤◌, ◌&&◌, ◌++◌, ◌∷◌, [], ℕ, length, find, map, is_some, option_copied, if◌then◌else◌, IfOk, OnOk, OnErr};
ghost use Rattle.carousel_blocks.specs.InForce.{size_limit};
ghost use Rattle.module_store.specs.Resources.{HasAtMost, presence, resource_of};
ghost use Rattle.module_store.specs.Standing.{ForStored};
ghost use Rattle.module_store.specs.DataEvents.{data_event_by};
ghost use Rattle.module_store.specs.Store.{gone_by, number_of};
ghost use Rattle.module_locks.specs.Locks.{at_start, lock_answer, lock_on, look_up, module_changes_by, seen_number, start_path, start_path_as, with_lock, with_map, with_section, without_lock};
ghost use Rattle.module_locks.specs.Locks as spec_locks;
ghost use Rattle.module_locks.specs.Standing.{ForModules, IsHeld, StandsFor};
ghost use Rattle.module_locks.specs.devices.Keeping.{answer_new as spec_answer};
ghost use Rattle.module_locks.specs.devices.Keeping.{AreOwn, IsOwnBy, KeepsLock, copy_on, has_room, holding, is_held_on, is_wanted_in, new_lock, told_with, wanting_on, with_delivery, with_store};

use crate::answers::LockAnswer;
use crate::locks::{HeldLock, Keeping, is_delivery};
use bml_bytes::{NoMemory, Text};
use module_store::{Change, Look, ModuleCopy, ModulePresence, Store, data_event_between};
use multipart_entities::Path;
use psi_tables::Services;
use std::alloc::Global;
use std::marker::Model;

/// The component with the start document.
const START_COMPONENT: u8 = 0x40;

/// The module with the start document.
const START_MODULE: u16 = 0x0000;

/// The name of the start document in its module, where this holds an entity.
const START_NAME: &[u8] = b"startup.bml";

/// So many locks stand at most; this project's own limit.
const MOST_LOCKS: usize = 64;

/// What a section changed: the data event, where it is one, and then what became of modules of its
/// component, in ascending module number.
#[derive(Drop)]
pub struct SectionChanges {
    pub data_event: Option<Change>,
    pub modules: Vec<Change>,
}

/// The modules of a service: the carousels of its components, and the locks on modules.
///
/// It is told each component map by `set_components`, and each intact section of a component by
/// `feed`. A module that is locked while it is held is copied before the next section or map.
#[derive(Drop)]
pub struct Modules {
    alloc: Global,
    store: Store,
    locks: Vec<HeldLock>,
}

impl Model for Modules {
    ghost use Rattle.module_locks.specs.Standing.{AreFew, ModulesState};

    ghost Value = { ModulesState };

    ghost view = { λ m. record { store = m.store; locks = m.locks.items } };

    ghost invariant = { λ m. AreFew m.locks.items };
}

impl Modules {
    /// Neither components nor locks. This takes no memory.
    pub fn new(alloc: Global) -> Modules
        ensures stands { StandsFor result at_start }
    {
        Modules {
            alloc,
            store: Store::new(alloc),
            locks: Vec::new(alloc),
        }
    }

    /// Takes the next intact section of a component, and tells what it changed: whether it is a data
    /// event, and what became of the component's modules, in ascending module number. At a data event
    /// every lock ends. Else a lock that was wanted on a module that the section delivers keeps the
    /// module from then on, which its change tells. After `NoMemory` the modules are as before, and
    /// the section may be told once more.
    pub fn feed(&mut self, component: u8, section: &[u8]) -> Result<SectionChanges, NoMemory>
        requires { 12 ≤ length section.now }
        ensures stands { OnOk result (ForModules self.old
            (λ modules. StandsFor self.new (with_section component section.now modules))) }
        ensures event { IfOk result (λ found. ForModules self.old (λ modules. found.data_event
            ≡ data_event_by component section.now modules.stored)) }
        ensures changes { IfOk result (λ found. ForModules self.old (λ modules.
            found.modules.items ≡ module_changes_by component section.now modules)) }
        ensures before { OnErr result (ForModules self.old (λ modules.
            StandsFor self.new modules)) }
    {
        self.copy_kept()?;
        let before = self.store.data_event_id();
        let mut modules = self.store.feed(component, section)?;
        let data_event = data_event_between(before, self.store.data_event_id());
        self.end_locks(data_event.is_some());
        self.tell_locks(component, &mut modules);
        self.keep_delivered(component, modules.as_slice());
        Ok(SectionChanges {
            data_event,
            modules,
        })
    }

    /// Takes the component map of the service, and tells each entry of a component that left the map
    /// or got another PID as gone, with the component, in ascending component and then module
    /// number. The locks stay. After `NoMemory` the modules are as before.
    pub fn set_components(&mut self, services: &Services) -> Result<Vec<(u8, Change)>, NoMemory>
        ensures stands { OnOk result (ForModules self.old
            (λ modules. StandsFor self.new (with_map services.now.map modules))) }
        ensures gone { IfOk result (λ found. ForModules self.old (λ modules. found.items
            ≡ gone_by services.now.map modules.stored)) }
        ensures before { OnErr result (ForModules self.old (λ modules.
            StandsFor self.new modules)) }
    {
        self.copy_kept()?;
        self.store.set_components(services)
    }

    /// Locks a module of a component: it is kept as it is held, or, where it isn't held yet, from
    /// when it is. It stays so until it is unlocked or a data event comes, whatever else becomes of its
    /// entry and of its component. At most 64 locks stand. Locking a module that is kept changes nothing.
    pub fn lock(&mut self, component: u8, module: u16) -> Result<LockAnswer, NoMemory>
        ensures answer { IfOk result (λ answer. ForModules self.old (λ modules. answer
            ≡ lock_answer component «module» modules)) }
        ensures stands { OnOk result (ForModules self.old
            (λ modules. StandsFor self.new (with_lock component «module» modules))) }
        ensures same { OnErr result (self.new ≡ self.old) }
        ensures store { self.new.store ≡ self.old.store }
    {
        let Some(is_held) = self.is_held(component, module) else {
            return Ok(LockAnswer::NoEntry);
        };
        match self.wanted_on(component, module) {
            Some(false) => Ok(LockAnswer::Had),
            Some(true) => Ok(self.lock_wanted(component, module, is_held)),
            None => self.add_lock(component, module, is_held),
        }
    }

    /// Unlocks a module of a component: what was kept of it is given up. Answers whether a lock
    /// stood on it.
    pub fn unlock(&mut self, component: u8, module: u16) -> bool
        ensures answer { ForModules self.old (λ modules. result
            ≡ is_some (lock_on modules.locks component «module»)) }
        ensures stands { ForModules self.old
            (λ modules. StandsFor self.new (without_lock component «module» modules)) }
        ensures store { self.new.store ≡ self.old.store }
    {
        let stood = self.wanted_on(component, module).is_some();
        self.locks.retain(|lock| !lock.is_on(component, module));
        stood
    }

    /// What is there under a path: of a module that a lock keeps, what is kept of it; and else
    /// `Found` with the resource's very bytes, `Waiting` where its module is announced, or may be,
    /// and isn't held yet, and `Missing` where there is none. At most 1,048,576 bytes are found. The
    /// cost is that of a few look-ups by hash and of a look at the locks, and this takes no memory.
    pub fn resource(&self, path: &Path) -> Look<'_>
        ensures look { ForModules self.now (λ modules. resource_of result
            ≡ look_up modules path.now) }
        ensures bound { HasAtMost size_limit (resource_of result) }
    {
        match self.copy_on(path.component, path.module) {
            Some(copy) => copy.resource(&path.name),
            None => self.store.resource(path),
        }
    }

    /// The path of the start document: module 0000 of component 0x40 as a whole, where its Type, as a
    /// look-up sees it, says that it holds no entity, and else its part `startup.bml`. Memory is
    /// taken for the name.
    pub fn start_path(&self) -> Result<Path, NoMemory>
        ensures { IfOk result (λ path. ForModules self.now (λ modules. path ≡ start_path modules)) }
    {
        match self.copy_on(START_COMPONENT, START_MODULE) {
            Some(copy) => self.start_path_as(copy.is_entity()),
            None => self.store.start_path(),
        }
    }

    /// The number of the delivery that brought a module which is held, counted from 1 over all
    /// components; None where the module isn't held. This takes no memory.
    pub fn delivery_number(&self, component: u8, module: u16) -> Option<u64>
        ensures { ForModules self.now
            (λ modules. result ≡ number_of modules.stored component «module») }
    {
        self.store.delivery_number(component, module)
    }

    /// The number of the delivery that brought what a look-up sees of a module: of what a lock keeps of it, and else of the
    /// module, where it is held; None where there is neither. As long as it stays the same, below 2^64 - 1, look-ups of the
    /// module find the same bytes. This takes no memory.
    pub fn seen_number(&self, component: u8, module: u16) -> Option<u64>
        ensures { ForModules self.now
            (λ modules. result ≡ seen_number modules component «module») }
    {
        match self.copy_on(component, module) {
            Some(copy) => copy.number(),
            None => self.store.delivery_number(component, module),
        }
    }

    // The path of the start document, where its module holds an entity or is one resource.
    fn start_path_as(&self, is_entity: bool) -> Result<Path, NoMemory>
        ensures { IfOk result (λ path. path ≡ start_path_as is_entity) }
    {
        let name = Text::of_bytes(self.alloc, start_name(is_entity))?;
        Ok(Path {
            component: START_COMPONENT,
            module: START_MODULE,
            name,
        })
    }

    // Whether a module is held, where it has an unskipped entry.
    fn is_held(&self, component: u8, module: u16) -> Option<bool>
        ensures { ForModules self.now (λ modules. result
            ≡ holding (presence modules.stored component «module»)) }
    {
        match self.store.presence(component, module) {
            ModulePresence::Absent => None,
            ModulePresence::Announced => Some(false),
            ModulePresence::Held { .. } => Some(true),
        }
    }

    // The lock on a module.
    fn lock_on(&self, component: u8, module: u16) -> Option<&HeldLock>
        ensures { option_copied result ≡ find (is_held_on component «module») self.now.locks }
    {
        self.locks.iter().find(|lock| lock.is_on(component, module))
    }

    // Whether the lock on a module is wanted, where one stands.
    fn wanted_on(&self, component: u8, module: u16) -> Option<bool>
        ensures { result ≡ wanting_on self.now.locks component «module» }
    {
        let lock = self.lock_on(component, module)?;
        Some(lock.is_wanted())
    }

    // The copy that the lock on a module keeps, where it keeps one.
    fn copy_on(&self, component: u8, module: u16) -> Option<&ModuleCopy>
        ensures { option_copied result ≡ copy_on self.now.locks component «module» }
    {
        let lock = self.lock_on(component, module)?;
        lock.copy()
    }

    // The lock on a module is wanted: where the module is held, it keeps it from now on.
    fn lock_wanted(&mut self, component: u8, module: u16, is_held: bool) -> LockAnswer
        ensures answer { result ≡ spec_answer is_held }
        ensures locks { self.new.locks ≡ (if is_held
            then map (with_store component «module») self.old.locks else self.old.locks) }
        ensures store { self.new.store ≡ self.old.store }
    {
        if !is_held {
            return LockAnswer::Wanted;
        }
        'locks: for lock in self.locks.iter_mut() {
            lock.take_held(component, module);
        }
        LockAnswer::Kept
    }

    // Whether there is a place for one more lock.
    #[tactic(auto, unfolding(crate::specs::Locks::most_locks))]
    fn has_room(&self) -> bool
        ensures { result ≡ has_room self.now.locks }
    {
        self.locks.len() < MOST_LOCKS
    }

    // Adds a lock on the module, where there is a place for it.
    fn add_lock(
        &mut self,
        component: u8,
        module: u16,
        is_held: bool,
    ) -> Result<LockAnswer, NoMemory>
        ensures answer { IfOk result (λ answer. answer
            ≡ (if has_room self.old.locks then spec_answer is_held else LockAnswer.Full)) }
        ensures locks { OnOk result (self.new.locks ≡ (if has_room self.old.locks
            then self.old.locks ++ new_lock component «module» is_held ∷ []
            else self.old.locks)) }
        ensures same { OnErr result (self.new ≡ self.old) }
        ensures store { self.new.store ≡ self.old.store }
    {
        if !self.has_room() {
            return Ok(LockAnswer::Full);
        }
        self.locks.push(HeldLock::new(component, module, is_held))?;
        Ok(answer_new(is_held))
    }

    // Copies the modules that locks keep and that are in the store alone. After `NoMemory` some may
    // be copied.
    fn copy_kept(&mut self) -> Result<(), NoMemory>
        ensures stays { ForModules self.old (λ modules. StandsFor self.new modules) }
        ensures own { OnOk result (ForModules self.old (λ modules. AreOwn self.new.locks)) }
        ensures store { self.new.store ≡ self.old.store }
    {
        'locks: for lock in self.locks.iter_mut() {
            copy_lock(self.alloc, &self.store, lock)?;
        }
        Ok(())
    }

    // At a data event every lock ends.
    fn end_locks(&mut self, is_event: bool)
        ensures locks { self.new.locks ≡ (if is_event then [] else self.old.locks) }
        ensures store { self.new.store ≡ self.old.store }
    {
        if is_event {
            self.locks.clear();
        }
    }

    // Tells in each change that delivers a module whether a lock on it was wanted.
    fn tell_locks(&self, component: u8, changes: &mut Vec<Change>)
        ensures { changes.new.items ≡ map (told_with component self.now.locks) changes.old.items }
    {
        'changes: for change in changes.iter_mut() {
            change.locked = self.is_filled_by(component, change);
        }
    }

    // Whether a change delivers a module on which a lock is wanted.
    fn is_filled_by(&self, component: u8, change: &Change) -> bool
        ensures { result ≡ (spec_locks.is_delivery change.now
            && is_wanted_in self.now.locks component change.now.«module») }
    {
        is_delivery(change) && self.is_wanted(component, change.module)
    }

    // Whether a lock on a module is wanted.
    fn is_wanted(&self, component: u8, module: u16) -> bool
        ensures { result ≡ is_wanted_in self.now.locks component «module» }
    {
        self.locks
            .iter()
            .any(|lock| lock.is_on(component, module) && lock.is_wanted())
    }

    // The locks that were wanted on modules that these changes deliver keep them from now on.
    fn keep_delivered(&mut self, component: u8, changes: &[Change])
        ensures locks { self.new.locks ≡ map (with_delivery component changes.now) self.old.locks }
        ensures store { self.new.store ≡ self.old.store }
    {
        'locks: for lock in self.locks.iter_mut() {
            lock.take_delivery(component, changes);
        }
    }
}

// The name of the start document in its module.
fn start_name(is_entity: bool) -> &'static [u8]
    ensures { result.now ≡ (start_path_as is_entity).name }
{
    if is_entity { START_NAME } else { b"" }
}

// Copies the module that a lock keeps, where it is in the store alone.
fn copy_lock(alloc: Global, store: &Store, lock: &mut HeldLock) -> Result<(), NoMemory>
    ensures stays { ForStored store.now (λ stored. IsHeld stored lock.old
        → KeepsLock stored lock.old lock.new) }
    ensures own { OnOk result (ForStored store.now (λ stored. IsHeld stored lock.old
        → IsOwnBy lock.new.keeping)) }
{
    let Keeping::InStore = lock.keeping else {
        return Ok(());
    };
    if let ModulePresence::Held { is_entity, bytes } = store.presence(lock.component, lock.module) {
        let number = store.delivery_number(lock.component, lock.module);
        lock.keeping = Keeping::Copied(ModuleCopy::new(alloc, number, is_entity, bytes)?);
    }
    Ok(())
}

// What comes of a lock that keeps its module from now on, where it is held, or is wanted.
fn answer_new(is_held: bool) -> LockAnswer
    ensures { result ≡ spec_answer is_held }
{
    if is_held {
        LockAnswer::Kept
    } else {
        LockAnswer::Wanted
    }
}
