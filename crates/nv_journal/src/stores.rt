//! A whole store, and what is known between two of them.

ghost use Rattle.std.specs.Prelude.{◌≡◌, ◌≤◌, Option, length, OnErr};
ghost use Rattle.std.specs.Option.{option_map};
ghost use Rattle.bml_ports.specs.Counters.{Rose};
ghost use Rattle.nv_journal.specs.Disks.{Told, WhereTold};
ghost use Rattle.nv_journal.specs.Slots.{Open, slot_length, next_number};

use crate::disks::Disk;
use crate::slots::{NUMBER_COUNT, NUMBER_OFFSET, OPEN, SLOT_LENGTH, Slot};
use crate::steps::{close_gate, open_gate, write_area};
use bml_bytes::AreaBytes;
use bml_ports::Failed;

/// The newest slot, where one is open, and the number of the next store.
#[derive(Clone, Copy)]
pub struct Found {
    pub newest: Option<Slot>,
    pub number: u8,
}

ghost use Rattle.nv_journal.specs.devices.Stores.{IsNewestOf, IsDue, next_slot, LooksAt, Finds, StoresArea};

// The slot that the next store takes: the one that isn't the newest, or the first where there is
// none.
fn next_slot(newest: Option<Slot>) -> Slot
    ensures { result ≡ next_slot newest }
{
    match newest {
        None => Slot::First,
        Some(slot) => slot.other(),
    }
}

fn next_number(number: u8) -> u8
    ensures { result ≡ next_number number }
{
    ((number as u16 + 1) % NUMBER_COUNT as u16) as u8
}

// The number of a slot, where it is open.
fn look_at<D: Disk>(disk: &mut D, slot: Slot, into: &mut [u8]) -> Result<Option<u8>, Failed>
    requires size { length into.old ≡ slot_length }
    ensures content { Told (LooksAt slot result)
        (D.told disk.old).content (D.told disk.new).content }
    ensures later { (D.told disk.old).faults.faults ≤ (D.told disk.new).faults.faults }
    ensures rose { OnErr result (Rose (D.told disk.old).faults.faults
        (D.told disk.new).faults.faults) }
{
    let count = disk.read_at(slot.place(), into)?;
    if count != SLOT_LENGTH {
        return Ok(None);
    }
    if into[0] != OPEN {
        return Ok(None);
    }
    Ok(Some(into[NUMBER_OFFSET]))
}

// Which of two slots is the newest, by the numbers of those that are open, and the number that is
// due.
fn newest_of(first: Option<u8>, second: Option<u8>) -> Found
    ensures { (f s : Option Open) → first ≡ option_map (λ (o : Open). o.number) f
        → second ≡ option_map (λ (o : Open). o.number) s → IsNewestOf result f s }
{
    match first {
        None => match second {
            None => Found {
                newest: None,
                number: 0,
            },
            Some(number) => Found {
                newest: Some(Slot::Second),
                number: next_number(number),
            },
        },
        Some(number) => newest_with(number, second),
    }
}

// The same where the first is open.
fn newest_with(first: u8, second: Option<u8>) -> Found
    ensures { (f : Open) (s : Option Open) → first ≡ f.number
        → second ≡ option_map (λ (o : Open). o.number) s → IsNewestOf result (Some f) s }
{
    let due = next_number(first);
    match second {
        None => Found {
            newest: Some(Slot::First),
            number: due,
        },
        Some(number) => {
            if number == due {
                Found {
                    newest: Some(Slot::Second),
                    number: next_number(number),
                }
            } else {
                Found {
                    newest: Some(Slot::First),
                    number: due,
                }
            }
        }
    }
}

/// Has the disk keep what reads give, and looks at both slots.
pub fn find_slots<D: Disk>(disk: &mut D) -> Result<Found, Failed>
    ensures content { Told (Finds result) (D.told disk.old).content (D.told disk.new).content }
    ensures later { (D.told disk.old).faults.faults ≤ (D.told disk.new).faults.faults }
    ensures rose { OnErr result (Rose (D.told disk.old).faults.faults
        (D.told disk.new).faults.faults) }
{
    disk.sync()?;
    let mut bytes = [0; SLOT_LENGTH];
    let first = look_at(disk, Slot::First, &mut bytes)?;
    let second = look_at(disk, Slot::Second, &mut bytes)?;
    Ok(newest_of(first, second))
}

/// A whole store where the slots are known.
pub fn store_area<D: Disk>(disk: &mut D, found: Found, area: &AreaBytes) -> Result<Found, Failed>
    requires due { WhereTold (IsDue found) (D.told disk.old).content }
    ensures content { Told (StoresArea area.now result)
        (D.told disk.old).content (D.told disk.new).content }
    ensures later { (D.told disk.old).faults.faults ≤ (D.told disk.new).faults.faults }
    ensures rose { OnErr result (Rose (D.told disk.old).faults.faults
        (D.told disk.new).faults.faults) }
{
    let slot = next_slot(found.newest);
    close_gate(disk, slot)?;
    write_area(disk, slot, found.number, area)?;
    open_gate(disk, slot, area)?;
    Ok(Found {
        newest: Some(slot),
        number: next_number(found.number),
    })
}
