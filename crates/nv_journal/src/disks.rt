//! The trait of a disk.

ghost use Rattle.std.specs.Prelude.{◌≡◌, ◌≤◌, length, IfOk};
ghost use Rattle.bml_ports.specs.Counters.{Counts};
ghost use Rattle.nv_journal.specs.Disks.{DiskState, Told, WhereTold, Reads, Writes, Syncs};

use bml_ports::Failed;

/// A range: so many bytes from a place on.
#[derive(Clone, Copy)]
pub struct Extent {
    pub place: u64,
    pub size: usize,
}

/// What keeps bytes at places, counted from 0. After a stop it has one of some byte lists, its
/// images: since the last sync that succeeded, what was written may be there whole, in part or as
/// anything else, and all other bytes are as they were. A disk that tells its content tells what
/// reads give, its images, and those at each moment before.
pub trait Disk {
    ghost told: { Self → DiskState };

    /// Fills the front of the buffer with the bytes from a place on, as many as there are and fit,
    /// and answers how many. There are none at the end and past it. All stays.
    fn read_at(&mut self, place: u64, into: &mut [u8]) -> Result<usize, Failed>
        ensures count { IfOk result (λ count. count ≤ length into.new) }
        ensures content { Told (Reads place (length into.old) into.new result)
            (told self.old).content (told self.new).content }
        ensures counted { Counts (told self.old).faults (told self.new).faults result };

    /// Writes bytes from a place on, over what is there and past the end. The place may be at most
    /// the length, where it is told. A failed write leaves what reads give at any of its images.
    fn write_at(&mut self, place: u64, bytes: &[u8]) -> Result<(), Failed>
        requires place { WhereTold (λ disk. place ≤ length disk.reads) (told self.old).content }
        ensures content { Told (Writes place bytes.now result)
            (told self.old).content (told self.new).content }
        ensures counted { Counts (told self.old).faults (told self.new).faults result };

    /// After a sync that succeeds, what reads give is the only image. A failed one leaves all.
    fn sync(&mut self) -> Result<(), Failed>
        ensures content { Told (Syncs result) (told self.old).content (told self.new).content }
        ensures counted { Counts (told self.old).faults (told self.new).faults result };
}
