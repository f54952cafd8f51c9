//! What is kept of the locks on modules.

ghost use Rattle.std.specs.Prelude.{◌≡◌};
ghost use Rattle.module_locks.specs.Locks as spec_locks;
ghost use Rattle.module_locks.specs.devices.Keeping.{copy_in, is_held_on, is_wanting, new_lock, with_delivery, with_store};

use module_store::{Change, ChangeLine, ModuleCopy};

/// What is kept of a module on which a lock stands.
#[derive(Drop)]
pub enum Keeping {
    /// Nothing yet: it wasn't held since the lock stands.
    Wanted,
    /// It is held by the store of the service, as it was when it was locked, or was delivered for the lock.
    InStore,
    /// A copy.
    Copied(ModuleCopy),
}

/// A lock on a module of a component.
#[derive(Drop)]
pub struct HeldLock {
    pub component: u8,
    pub module: u16,
    pub keeping: Keeping,
}

impl HeldLock {
    ghost use Rattle.std.specs.Prelude.{option_copied};

    /// A lock on a module that is held, or that is wanted.
    pub fn new(component: u8, module: u16, is_held: bool) -> HeldLock
        ensures { result ≡ new_lock component «module» is_held }
    {
        let keeping = if is_held {
            Keeping::InStore
        } else {
            Keeping::Wanted
        };
        HeldLock {
            component,
            module,
            keeping,
        }
    }

    /// Whether it stands on this module.
    pub fn is_on(&self, component: u8, module: u16) -> bool
        ensures { result ≡ is_held_on component «module» self.now }
    {
        self.component == component && self.module == module
    }

    /// Whether nothing is kept yet.
    pub fn is_wanted(&self) -> bool
        ensures { result ≡ is_wanting self.now.keeping }
    {
        match self.keeping {
            Keeping::Wanted => true,
            Keeping::InStore | Keeping::Copied(_) => false,
        }
    }

    /// Where it is wanted and stands on this module, which is held, it keeps the module from now on.
    pub fn take_held(&mut self, component: u8, module: u16)
        ensures { self.new ≡ with_store component «module» self.old }
    {
        if self.is_on(component, module) && self.is_wanted() {
            self.keeping = Keeping::InStore;
        }
    }

    /// Where it is wanted and one of these changes of the component delivers its module, it keeps the
    /// module from now on.
    pub fn take_delivery(&mut self, component: u8, changes: &[Change])
        ensures { self.new ≡ with_delivery component changes.now self.old }
    {
        if self.component == component && self.is_wanted() && delivers(self.module, changes) {
            self.keeping = Keeping::InStore;
        }
    }

    /// The copy that it keeps, where it keeps one.
    pub fn copy(&self) -> Option<&ModuleCopy>
        ensures { option_copied result ≡ copy_in self.now.keeping }
    {
        match &self.keeping {
            Keeping::Copied(copy) => Some(copy),
            Keeping::Wanted | Keeping::InStore => None,
        }
    }
}

/// Whether a change delivers its module.
pub fn is_delivery(change: &Change) -> bool
    ensures { result ≡ spec_locks.is_delivery change.now }
{
    matches!(change.line, Some(ChangeLine::Delivered { .. }))
}

// Whether one of these changes delivers the module.
fn delivers(module: u16, changes: &[Change]) -> bool
    ensures { result ≡ spec_locks.delivers «module» changes.now }
{
    changes
        .iter()
        .any(|change| change.module == module && is_delivery(change))
}
