//! A journal, which is a keeper over a disk.

ghost use Rattle.std.specs.Prelude.{◌≡◌, false, ◌+◌, ◌≤◌, IfOk, length, OnErr};
ghost use Rattle.std.specs.Io.KnownBytes.{Keeps};
ghost use Rattle.bml_bytes.specs.Areas.{area_length};
ghost use Rattle.bml_ports.specs.Counters.{Counts, Rose, counted};
ghost use Rattle.bml_ports.specs.Keepers.{Loads, Stores};
ghost use Rattle.nv_journal.specs.Disks.{Told, WhereTold};
ghost use Rattle.nv_journal.specs.Journals.{OnlyLoads, kept_of, told_by_journal, LoadsNewest, StoresNewest};
ghost use Rattle.nv_journal.specs.devices.Stores.{Finds, GivesArea, IsDue, IsKnown, StoresArea};

use crate::disks::Disk;
use crate::slots::{AREA_OFFSET, Slot};
use crate::stores::{Found, find_slots, store_area};
use bml_bytes::{AREA_LENGTH, AreaBytes};
use bml_ports::{Failed, Keeper};
use std::marker::Model;

/// A keeper of the area in two slots of a disk. What an older keeper keeps counts as long as no
/// store has succeeded; it is loaded, and never written.
#[derive(Drop)]
pub struct Journal<D: Disk + Drop, K: Keeper + Drop> {
    disk: D,
    older: K,
    found: Option<Found>,
    calls: u64,
    last_failed: bool,
}

impl<D: Disk + Drop, K: Keeper + Drop> Model for Journal<D, K> {
    ghost use Rattle.nv_journal.specs.Journals.{JournalState};
    ghost use Rattle.nv_journal.specs.devices.Stores.{IsKnown};

    ghost Value = { JournalState };

    ghost view = { λ journal. record {
      disk = D.told journal.disk;
      older = K.told journal.older;
      calls = journal.calls;
      last_failed = journal.last_failed;
    } };

    ghost invariant = { λ journal. IsKnown journal.found (D.told journal.disk).content };
}

impl<D: Disk + Drop, K: Keeper + Drop> Journal<D, K> {
    /// A journal over a disk, and an older keeper.
    pub fn new(disk: D, older: K) -> Journal<D, K>
        ensures { result ≡ record {
          disk = D.told disk;
          older = K.told older;
          calls = 0;
          last_failed = false;
        } }
    {
        Journal {
            disk,
            older,
            found: None,
            calls: 0,
            last_failed: false,
        }
    }

    /// The disk.
    pub fn disk(&self) -> &D
        ensures { D.told result.now ≡ self.now.disk }
    {
        &self.disk
    }

    /// The older keeper.
    pub fn older(&self) -> &K
        ensures { K.told result.now ≡ self.now.older }
    {
        &self.older
    }
}

impl<D: Disk + Drop, K: Keeper + Drop> Keeper for Journal<D, K> {
    ghost told = { told_by_journal };

    /// Answers the length of an area with the newest one, or what the older keeper loads where no
    /// slot is open. The slots are looked at anew.
    fn load(&mut self, into: &mut AreaBytes) -> Result<u64, Failed>
        ensures loaded { IfOk result (λ size. Loads (told_by_journal self.old).kept size into.new) }
        ensures kept { Keeps (told_by_journal self.old).kept (told_by_journal self.new).kept }
        ensures calls { (told_by_journal self.new).calls
            ≡ counted (told_by_journal self.old).calls }
        ensures counted { Counts (told_by_journal self.old).faults
            (told_by_journal self.new).faults result }

        // At each moment since the start each image stands for what some image at the start stood
        // for.
        ensures moments { Told (LoadsNewest result) self.old.disk.content self.new.disk.content }
        ensures older { OnlyLoads self.old.older self.new.older }
    {
        self.found = None;
        self.calls = self.calls.saturating_add(1);
        self.last_failed = true;
        let found = find_slots(&mut self.disk)?;
        self.found = Some(found);
        let size = load_by(&mut self.disk, &mut self.older, found, into);
        self.last_failed = size.is_err();
        size
    }

    /// Keeps the area in the slot that isn't the newest. After a failed store, and before the first
    /// load, the slots are looked at first.
    fn store(&mut self, from: &AreaBytes) -> Result<(), Failed>
        ensures stored { Stores (told_by_journal self.old).kept
            (told_by_journal self.new).kept result from.now }
        ensures calls { (told_by_journal self.new).calls
            ≡ counted (told_by_journal self.old).calls }
        ensures counted { Counts (told_by_journal self.old).faults
            (told_by_journal self.new).faults result }

        // At each moment since the start each image stands for what some image at the start stood
        // for, or for the area.
        ensures moments { Told (StoresNewest from.now result) self.old.disk.content
            self.new.disk.content }
        ensures older { self.new.older ≡ self.old.older }
    {
        let found = self.found;
        self.found = None;
        self.calls = self.calls.saturating_add(1);
        self.last_failed = true;
        let next = store_known(&mut self.disk, found, from)?;
        self.found = Some(next);
        self.last_failed = false;
        Ok(())
    }
}

// What is known of the slots, or what is found.
fn known_slots<D: Disk>(disk: &mut D, found: Option<Found>) -> Result<Found, Failed>
    requires known { IsKnown found (D.told disk.old).content }
    ensures content { Told (Finds result) (D.told disk.old).content (D.told disk.new).content }
    ensures later { (D.told disk.old).faults.faults ≤ (D.told disk.new).faults.faults }
    ensures rose { OnErr result (Rose (D.told disk.old).faults.faults
        (D.told disk.new).faults.faults) }
{
    match found {
        Some(known) => Ok(known),
        None => find_slots(disk),
    }
}

// A store where the slots are known, or may be.
fn store_known<D: Disk>(
    disk: &mut D,
    found: Option<Found>,
    area: &AreaBytes,
) -> Result<Found, Failed>
    requires known { IsKnown found (D.told disk.old).content }
    ensures content { Told (StoresArea area.now result)
        (D.told disk.old).content (D.told disk.new).content }
    ensures later { (D.told disk.old).faults.faults ≤ (D.told disk.new).faults.faults }
    ensures rose { OnErr result (Rose (D.told disk.old).faults.faults
        (D.told disk.new).faults.faults) }
{
    let known = known_slots(disk, found)?;
    store_area(disk, known, area)
}

// A load where the slots are known: of the newest area, or where none is open of what an older
// keeper keeps.
fn load_by<D: Disk, K: Keeper>(
    disk: &mut D,
    older: &mut K,
    found: Found,
    into: &mut AreaBytes,
) -> Result<u64, Failed>
    requires due { WhereTold (IsDue found) (D.told disk.old).content }
    ensures loaded { IfOk result (λ size. Loads
        (kept_of (D.told disk.old).content (K.told older.old).kept) size into.new) }
    ensures content { Told (LoadsNewest result) (D.told disk.old).content
        (D.told disk.new).content }
    ensures due { WhereTold (IsDue found) (D.told disk.new).content }
    ensures older { OnlyLoads (K.told older.old) (K.told older.new) }
    ensures later { (D.told disk.old).faults.faults + (K.told older.old).faults.faults
        ≤ (D.told disk.new).faults.faults + (K.told older.new).faults.faults }
    ensures rose { OnErr result
        (Rose ((D.told disk.old).faults.faults + (K.told older.old).faults.faults)
        ((D.told disk.new).faults.faults + (K.told older.new).faults.faults)) }
{
    match found.newest {
        None => older.load(into),
        Some(slot) => read_area(disk, slot, into),
    }
}

// Reads the area of an open slot, and answers its length.
fn read_area<D: Disk>(disk: &mut D, slot: Slot, into: &mut AreaBytes) -> Result<u64, Failed>
    ensures content { Told (GivesArea slot into.new result) (D.told disk.old).content
        (D.told disk.new).content }
    ensures full { length into.new ≡ area_length }
    ensures length { IfOk result (λ length. length ≡ area_length) }
    ensures later { (D.told disk.old).faults.faults ≤ (D.told disk.new).faults.faults }
    ensures rose { OnErr result (Rose (D.told disk.old).faults.faults
        (D.told disk.new).faults.faults) }
{
    disk.read_at(slot.place() + AREA_OFFSET as u64, &mut into.bytes)?;
    Ok(AREA_LENGTH as u64)
}
