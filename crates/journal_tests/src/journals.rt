//! Journals over a disk and an older keeper in memory, and what they load.

ghost use Rattle.std.specs.Prelude.{◌≤◌, length};
ghost use Rattle.nv_journal.specs.Slots.{journal_length};

use bml_bytes::{AREA_LENGTH, AreaBytes, NoMemory};
use bml_ports::{Keeper, MemoryKeeper};
use nv_journal::{Journal, MemoryDisk};
use std::alloc::Global;

/// A journal over a disk in memory, with an older keeper in memory.
pub type Tested = Journal<MemoryDisk, MemoryKeeper>;

/// More calls on a disk than a load and three stores make.
pub const CALLS: usize = 40;

/// What a journal loads.
#[derive(Clone, Copy, Debug, PartialEq, Eq)]
pub enum Loaded {
    /// No byte.
    Nothing,
    /// An area of this byte alone.
    Area(u8),
    /// A failed load, another length, or an area of several bytes.
    Other,
}

/// An area of one byte alone.
pub fn area_of(byte: u8) -> AreaBytes {
    AreaBytes {
        bytes: [byte; AREA_LENGTH],
    }
}

/// A journal over a disk of these bytes, of which one call fails, or none where its number is 0,
/// and each call past so many. The older keeper keeps nothing.
pub fn journal_over(
    alloc: Global,
    bytes: Vec<u8>,
    failing: u64,
    calls: usize,
) -> Result<Tested, NoMemory>
    requires { length bytes.items ≤ journal_length }
{
    let disk = MemoryDisk::new(alloc, bytes, vec![in alloc; failing]?, calls)?;
    let older = MemoryKeeper::new(Vec::new(alloc), Vec::new(alloc));
    Ok(Journal::new(disk, older))
}

/// What a journal loads.
pub fn load_of(journal: &mut Tested) -> Loaded {
    let mut area = area_of(0);
    match journal.load(&mut area) {
        Ok(0) => Loaded::Nothing,
        Ok(length) => whole(length, area.bytes()),
        Err(_) => Loaded::Other,
    }
}

// An area of one byte alone, or something else.
fn whole(length: u64, bytes: &[u8]) -> Loaded {
    let first = bytes.first().copied().unwrap_or(0);
    if length == AREA_LENGTH as u64 && bytes.iter().all(|byte| *byte == first) {
        Loaded::Area(first)
    } else {
        Loaded::Other
    }
}
