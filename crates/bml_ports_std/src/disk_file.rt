//! The file of a journal, as a disk.

ghost use Rattle.std.specs.Prelude.{◌≡◌, ◌≤◌, length, IfOk};
ghost use Rattle.bml_ports_std.specs.Calls.{no_faults};
ghost use Rattle.bml_ports_std.specs.Files.{told_by_disk_file};

use crate::faults::Faults;
use bml_ports::Failed;
use nv_journal::Disk;
use std::fs::File;
use std::io::{self, ErrorKind};
use std::marker::Model;
use std::os::unix::fs::FileExt;

/// The file of the journal, in the current folder.
const NAME: &str = "nvram.jnl";

/// The folder, which holds the file's name.
const FOLDER: &str = ".";

/// The file `nvram.jnl` of the current folder as a disk. A missing file has no bytes; the first write makes it.
///
/// The first call opens the file to read and write, and locks it for as long as this lives. It fails where another run
/// has the lock, and so does a write that would make a file which was made meanwhile. A sync is the system's, for the
/// bytes and the length of the file, and the first one of a new file also for the folder. Of what the file holds it tells nothing.
#[derive(Drop)]
pub struct DiskFile {
    rt: HostRuntime,
    file: Option<File>,
    is_looked_for: bool,
    is_new: bool,
    faults: Faults,
}

impl Model for DiskFile {
    ghost use Rattle.bml_ports.specs.Counters.{Counter};

    ghost Value = { Counter };

    ghost view = { λ file. file.faults };
}

impl DiskFile {
    /// The file, which isn't opened yet.
    pub fn new(rt: HostRuntime) -> DiskFile
        ensures { result ≡ no_faults }
    {
        DiskFile {
            rt,
            file: None,
            is_looked_for: false,
            is_new: false,
            faults: Faults::none(),
        }
    }

    // Opens the file and locks it, unless that was done, or it was missing.
    fn look_for(&mut self) -> io::Result<()>
        ensures { self.new ≡ self.old }
    {
        if self.is_looked_for {
            return Ok(());
        }
        self.file = existing(&self.rt)?;
        self.is_looked_for = true;
        Ok(())
    }

    fn read(&mut self, place: u64, into: &mut [u8]) -> io::Result<usize>
        ensures count { IfOk result (λ count. count ≤ length into.new) }
        ensures faults { self.new ≡ self.old }
    {
        self.look_for()?;
        match &self.file {
            Some(file) => read_all(file, place, into),
            None => Ok(0),
        }
    }

    fn write(&mut self, place: u64, bytes: &[u8]) -> io::Result<()>
        ensures { self.new ≡ self.old }
    {
        self.look_for()?;
        if self.file.is_none() {
            self.file = Some(made(&self.rt)?);
            self.is_new = true;
        }
        match &self.file {
            Some(file) => file.write_all_at(bytes, place),
            None => Ok(()),
        }
    }

    fn settle(&mut self) -> io::Result<()>
        ensures { self.new ≡ self.old }
    {
        self.look_for()?;
        if let Some(file) = &self.file {
            file.sync_data()?;
        }
        if self.is_new {
            File::open(&self.rt, FOLDER)?.sync_all()?;
            self.is_new = false;
        }
        Ok(())
    }
}

impl Disk for DiskFile {
    ghost told = { told_by_disk_file };

    fn read_at(&mut self, place: u64, into: &mut [u8]) -> Result<usize, Failed> {
        let answer = self.read(place, into);
        self.faults.count(answer)
    }

    fn write_at(&mut self, place: u64, bytes: &[u8]) -> Result<(), Failed> {
        let answer = self.write(place, bytes);
        self.faults.count(answer)
    }

    fn sync(&mut self) -> Result<(), Failed> {
        let answer = self.settle();
        self.faults.count(answer)
    }
}

// The file with its lock, or nothing where it is missing.
fn existing(rt: &HostRuntime) -> io::Result<Option<File>> {
    match File::options().read(true).write(true).open(rt, NAME) {
        Ok(file) => {
            file.try_lock()?;
            Ok(Some(file))
        }
        Err(error) if error.kind() == ErrorKind::NotFound => Ok(None),
        Err(error) => Err(error),
    }
}

// A new file with its lock.
fn made(rt: &HostRuntime) -> io::Result<File> {
    let file = File::create_new(rt, NAME)?;
    file.try_lock()?;
    Ok(file)
}

// Reads until the buffer is full or the file ends, and reads again where a signal interrupted a call.
fn read_all(file: &File, place: u64, into: &mut [u8]) -> io::Result<usize>
    ensures { IfOk result (λ count. count ≤ length into.new) }
{
    let mut count = 0;
    'tries: for _try in 0..u64::MAX {
        if count == into.len() {
            return Ok(count);
        }
        match file.read_at(&mut into[count..], place.saturating_add(count as u64)) {
            Ok(0) => return Ok(count),
            Ok(more) => count += more,
            Err(error) if error.kind() == ErrorKind::Interrupted => {}
            Err(error) => return Err(error),
        }
    }
    Err(ErrorKind::Interrupted.into())
}
