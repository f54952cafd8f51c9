//! The three steps of a store.

ghost use Rattle.std.specs.Prelude.{◌≡◌, ◌+◌, ◌∷◌, ◌≤◌, length, IfOk, OnErr};
ghost use Rattle.bml_bytes.specs.Areas.{area_length};
ghost use Rattle.bml_ports.specs.Counters.{Rose};
ghost use Rattle.nv_journal.specs.Disks.{Told, WhereTold};
ghost use Rattle.nv_journal.specs.Slots.{place_of, slot_length, newest, number_after};
ghost use Rattle.nv_journal.specs.Steps.{IsReady, IsClosed, IsFilled, Closes, Fills, Opens};
ghost use Rattle.nv_journal.specs.devices.Stores.{Looks};

use crate::disks::Disk;
use crate::slots::{AREA_OFFSET, CLOSED, NUMBER_OFFSET, OPEN, SLOT_LENGTH, Slot};
use bml_bytes::AreaBytes;
use bml_ports::Failed;

// Whether a gate that isn't open stands at a place.
fn has_shut_gate<D: Disk>(disk: &mut D, place: u64) -> Result<bool, Failed>
    ensures content { Told (Looks place result)
        (D.told disk.old).content (D.told disk.new).content }
    ensures later { (D.told disk.old).faults.faults ≤ (D.told disk.new).faults.faults }
    ensures rose { OnErr result (Rose (D.told disk.old).faults.faults
        (D.told disk.new).faults.faults) }
{
    let mut gate = [CLOSED];
    let count = disk.read_at(place, &mut gate)?;
    Ok(count == gate.len() && gate[0] != OPEN)
}

/// The first step: the gate is closed. One that isn't open already is left as it is, since any byte
/// may stand there while it is written. The slot isn't the newest.
pub fn close_gate<D: Disk>(disk: &mut D, slot: Slot) -> Result<(), Failed>
    requires ready { WhereTold (IsReady slot) (D.told disk.old).content }
    ensures content { Told (Closes slot result)
        (D.told disk.old).content (D.told disk.new).content }
    ensures later { (D.told disk.old).faults.faults ≤ (D.told disk.new).faults.faults }
    ensures rose { OnErr result (Rose (D.told disk.old).faults.faults
        (D.told disk.new).faults.faults) }
{
    let place = slot.place();
    let is_shut = has_shut_gate(disk, place)?;
    if is_shut {
        return Ok(());
    }
    disk.write_at(place, &[CLOSED])?;
    disk.sync() // before what stands after the gate is written
}

// How many bytes a number and an area have.
const NUMBERED_LENGTH: usize = SLOT_LENGTH - NUMBER_OFFSET;

// A number and an area, end to end.
fn number_and_area(number: u8, area: &AreaBytes) -> [u8; NUMBERED_LENGTH]
    ensures bytes { result ≡ number ∷ area.now }
    ensures full { length area.now ≡ area_length }
{
    let mut bytes = [number; NUMBERED_LENGTH];
    bytes[AREA_OFFSET - NUMBER_OFFSET..].copy_from_slice(area.bytes());
    bytes
}

/// The second step: the number and the area are written. The gate isn't open.
pub fn write_area<D: Disk>(
    disk: &mut D,
    slot: Slot,
    number: u8,
    area: &AreaBytes,
) -> Result<(), Failed>
    requires closed { WhereTold (IsClosed slot) (D.told disk.old).content }
    requires due { WhereTold (λ disk. number ≡ number_after (newest disk.reads))
        (D.told disk.old).content }
    ensures content { Told (Fills slot area.now result)
        (D.told disk.old).content (D.told disk.new).content }
    ensures later { (D.told disk.old).faults.faults ≤ (D.told disk.new).faults.faults }
    ensures rose { OnErr result (Rose (D.told disk.old).faults.faults
        (D.told disk.new).faults.faults) }
{
    let bytes = number_and_area(number, area);
    disk.write_at(slot.place() + NUMBER_OFFSET as u64, &bytes)?;
    disk.sync() // before the gate is opened
}

/// The third step: the gate is opened. The number and the area stand there.
pub fn open_gate<D: Disk>(disk: &mut D, slot: Slot, area: &AreaBytes) -> Result<(), Failed>
    requires filled { WhereTold (IsFilled slot area.now) (D.told disk.old).content }
    ensures content { Told (Opens slot area.now result)
        (D.told disk.old).content (D.told disk.new).content }
    ensures later { (D.told disk.old).faults.faults ≤ (D.told disk.new).faults.faults }
    ensures rose { OnErr result (Rose (D.told disk.old).faults.faults
        (D.told disk.new).faults.faults) }
{
    disk.write_at(slot.place(), &[OPEN])?;
    disk.sync() // before the store answers Ok
}
