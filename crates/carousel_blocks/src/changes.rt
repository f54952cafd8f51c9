//! What the next section changes in a component's modules.

ghost use Rattle.std.specs.Prelude.{◌≡◌, ◌<◌, ℕ, nat_eq, ◌++◌, All, Contains, IfOk, OnOk};
ghost use Rattle.std.specs.Prelude.{is_some, option_copied, option_and_then};
ghost use Rattle.std.specs.HashMap.{ContainsKey, keys};
ghost use Rattle.std.specs.List.{filter_map};
ghost use Rattle.std.specs.List.Sorted.{IsStrictlyIncreasing};
ghost use Rattle.carousel_blocks.specs.Held.{bytes_kept};
ghost use Rattle.carousel_blocks.specs.Modules.{AreModules, KeepModules, kept_at};
ghost use Rattle.carousel_blocks.specs.Drafts.{AreModulesOf};
ghost use Rattle.carousel_blocks.specs.DataEvents.{data_event, data_event_between, is_data_event};
ghost use Rattle.carousel_blocks.specs.Changes.{line_by, gone, changed, appeared, completed, number_bound};
ghost use Rattle.carousel_blocks.specs.Steps.{entry_change, entry_change_at, entry_changes};

use crate::buffer::Buffer;
use crate::modules::{Modules, modules_of, standing_at, whole_of};
use crate::standing::{SkipCause, Standing};
use bml_bytes::NoMemory;
use dsmcc_messages::{Dii, Entry};
use slab::Slab;
use std::alloc::Global;

/// What is to be said of a module.
#[derive(Clone, Copy, Debug, PartialEq, Eq)]
pub enum ChangeLine {
    /// It is held, with all of its bytes.
    Delivered {
        /// The version that its entry has.
        version: u8,
        /// Its length in bytes.
        size: u32,
    },
    /// The DII in force has no entry for it any more.
    Gone,
    /// Its entry is new or changed, and skipped: none of its blocks is kept.
    Skipped(SkipCause),
    /// The data event changes: the DII that comes in force has another data_event_id than the one before. It is said of
    /// module 0 of a service's entry component, and of no module's entry.
    DataEvent {
        /// The data_event_id before, 0 to 15.
        before: u8,
        /// The data_event_id from now on, 0 to 15.
        after: u8,
    },
}

impl ChangeLine {
    ghost use Rattle.carousel_blocks.specs.Changes.{delivered};

    // The line of a module that is held.
    fn delivered(entry: &Entry) -> ChangeLine
        ensures { result ≡ delivered entry.now }
    {
        ChangeLine::Delivered {
            version: entry.version,
            size: entry.size,
        }
    }
}

/// What became of one module of a component.
#[derive(Clone, Copy, Debug, PartialEq, Eq)]
pub struct Change {
    /// The module's number.
    pub module: u16,
    /// 0 where its entry changed, 1 where it went, 2 where it appeared; None where only its last block came.
    pub status: Option<u8>,
    /// What is to be said of it, where anything is.
    pub line: Option<ChangeLine>,
    /// Whether a lock that was wanted on the module got its bytes; false as long as there are no locks.
    pub locked: bool,
}

/// The status of a module whose entry changed.
const CHANGED: u8 = 0;

/// The status of a module that went.
const GONE: u8 = 1;

/// The status of a module that appeared.
const APPEARED: u8 = 2;

impl Change {
    /// What is told of a data event: the data_event_ids before it and from then on. It is said of module 0, and has no
    /// status.
    pub fn data_event(before: u8, after: u8) -> Change
        ensures { result ≡ data_event before after }
    {
        Change {
            module: 0,
            status: None,
            line: Some(ChangeLine::DataEvent { before, after }),
            locked: false,
        }
    }

    /// Whether it is that of a data event.
    pub fn is_data_event(&self) -> bool
        ensures { result ≡ is_data_event self.now }
    {
        matches!(self.line, Some(ChangeLine::DataEvent { .. }))
    }

    fn gone(number: u16) -> Change
        ensures { result ≡ gone number }
    {
        Change {
            module: number,
            status: Some(GONE),
            line: Some(ChangeLine::Gone),
            locked: false,
        }
    }

    fn changed(number: u16, line: Option<ChangeLine>) -> Change
        ensures { result ≡ changed number line }
    {
        Change {
            module: number,
            status: Some(CHANGED),
            line,
            locked: false,
        }
    }

    fn appeared(number: u16, line: Option<ChangeLine>) -> Change
        ensures { result ≡ appeared number line }
    {
        Change {
            module: number,
            status: Some(APPEARED),
            line,
            locked: false,
        }
    }

    // What is told of a module that its last block completed.
    pub(crate) fn completed(number: u16, entry: &Entry) -> Change
        ensures { result ≡ completed number entry.now }
    {
        Change {
            module: number,
            status: None,
            line: Some(ChangeLine::delivered(entry)),
            locked: false,
        }
    }
}

/// What is told where the data_event_id of the DII in force was this one, and is that one now; None exactly where it stays,
/// or no DII is in force before or now.
pub fn data_event_between(before: Option<u8>, after: Option<u8>) -> Option<Change>
    ensures { result ≡ data_event_between before after }
{
    let before = before?;
    let after = after?;
    if before == after {
        return None;
    }
    Some(Change::data_event(before, after))
}

/// The modules of the next DII, and what changes by it. Modules whose entries are unchanged keep their buffers, others
/// get new ones.
pub fn next_modules(
    alloc: Global,
    old: &Modules,
    buffers: &mut Slab<Buffer>,
    dii: Dii,
) -> Result<(Modules, Vec<Change>), NoMemory>
    requires { AreModules old.now buffers.old }
    ensures keeps { KeepModules old.now buffers.old buffers.new }
    ensures modules { IfOk result
        (λ next. AreModulesOf dii (kept_at old.now buffers.old) next.0 buffers.new) }
    ensures changes { IfOk result (λ next. next.1.items
        ≡ entry_changes (kept_at old.now buffers.old) (kept_at next.0 buffers.new)) }
{
    let modules = modules_of(alloc, old, buffers, dii)?;
    let changes = changes_between(alloc, old, &modules, buffers)?;
    Ok((modules, changes))
}

/// What changes from the modules of one DII to those of the next, in ascending module number. Modules whose entries
/// are unchanged have one buffer in both.
pub fn changes_between(
    alloc: Global,
    old: &Modules,
    new: &Modules,
    buffers: &Slab<Buffer>,
) -> Result<Vec<Change>, NoMemory>
    requires { AreModules new.now buffers.now }
    ensures { IfOk result (λ found. found.items
        ≡ entry_changes (kept_at old.now buffers.now) (kept_at new.now buffers.now)) }
{
    let numbers = numbers_of(alloc, old, new)?;
    changes_at(alloc, &numbers, old, new, buffers)
}

// The numbers of the modules of both, each once, in ascending order.
fn numbers_of(alloc: Global, old: &Modules, new: &Modules) -> Result<Vec<u16>, NoMemory>
    ensures rises { IfOk result (λ numbers. IsStrictlyIncreasing numbers.items) }
    ensures old { IfOk result (λ numbers. (number : ℕ) → ContainsKey nat_eq old.now number
        → Contains numbers.items number) }
    ensures new { IfOk result (λ numbers. (number : ℕ) → ContainsKey nat_eq new.now number
        → Contains numbers.items number) }
{
    let mut numbers = Vec::new(alloc);
    add_numbers(&mut numbers, old)?;
    add_numbers(&mut numbers, new)?;
    numbers.sort_unstable();
    numbers.dedup();
    Ok(numbers)
}

fn add_numbers(numbers: &mut Vec<u16>, modules: &Modules) -> Result<(), NoMemory>
    ensures { OnOk result (numbers.new.items ≡ numbers.old.items ++ keys modules.now) }
{
    numbers.extend(modules.keys().copied())?;
    Ok(())
}

// The changes of the modules with these numbers, in their order.
fn changes_at(
    alloc: Global,
    numbers: &[u16],
    old: &Modules,
    new: &Modules,
    buffers: &Slab<Buffer>,
) -> Result<Vec<Change>, NoMemory>
    requires { AreModules new.now buffers.now }
    ensures changes { IfOk result (λ found. found.items
        ≡ filter_map (entry_change_at (kept_at old.now buffers.now) (kept_at new.now buffers.now))
        numbers.now) }
    // The numbers have two bytes.
    ensures fit { OnOk result (All (λ number. number < number_bound) numbers.now) }
{
    let mut changes = Vec::new(alloc);
    'numbers: for number in numbers {
        if let Some(change) = change_at(*number, old, new, buffers) {
            changes.push(change)?;
        }
    }
    Ok(changes)
}

fn change_at(number: u16, old: &Modules, new: &Modules, buffers: &Slab<Buffer>) -> Option<Change>
    requires { AreModules new.now buffers.now }
    ensures { result
        ≡ entry_change_at (kept_at old.now buffers.now) (kept_at new.now buffers.now) number }
{
    let is_held = is_held(new, buffers, number);
    change_of(
        number,
        standing_at(old, number),
        standing_at(new, number),
        is_held,
    )
}

fn is_held(modules: &Modules, buffers: &Slab<Buffer>, number: u16) -> bool
    requires { AreModules modules.now buffers.now }
    ensures { result
        ≡ is_some (option_and_then bytes_kept (kept_at modules.now buffers.now number)) }
{
    whole_of(modules, buffers, number).is_some()
}

// The change of a module by what both DIIs say of it.
fn change_of(
    number: u16,
    old: Option<&Standing>,
    new: Option<&Standing>,
    is_held: bool,
) -> Option<Change>
    ensures { result
        ≡ entry_change number (option_copied old.entry) (option_copied new.entry) is_held }
{
    match (old, new) {
        (None, None) => None,
        (Some(_), None) => Some(Change::gone(number)),
        (None, Some(new)) => Some(Change::appeared(number, line_of(new, is_held))),
        (Some(old), Some(new)) => {
            if old.is_same(new) {
                return None;
            }
            Some(Change::changed(number, line_of(new, is_held)))
        }
    }
}

// The line of an entry that is new, or another than before.
fn line_of(standing: &Standing, is_held: bool) -> Option<ChangeLine>
    ensures { result ≡ line_by standing.now.entry standing.now.skip is_held }
{
    if let Some(cause) = standing.skip {
        return Some(ChangeLine::Skipped(cause));
    }
    if !is_held {
        return None;
    }
    Some(ChangeLine::delivered(&standing.entry))
}
