//! The file in which the area was kept before there was a journal.

ghost use Rattle.std.specs.Prelude.{◌≡◌};
ghost use Rattle.bml_ports_std.specs.Calls.{no_faults};
ghost use Rattle.bml_ports_std.specs.Files.{told_by_area_file};

use crate::faults::Faults;
use bml_ports::{AreaBytes, Failed, Keeper};
use std::fs::File;
use std::io::{self, ErrorKind, Read};
use std::marker::Model;

/// The file of an older area, in the current folder.
const NAME: &str = "nvram.bin";

/// The area in the file `nvram.bin` of the current folder, which is read and never written: a store
/// fails. A missing file is loaded as an area of length 0.
#[derive(Drop)]
pub struct AreaFile {
    rt: HostRuntime,
    calls: u64,
    faults: Faults,
}

impl Model for AreaFile {
    ghost use Rattle.bml_ports_std.specs.Files.{AreaFileState};

    ghost Value = { AreaFileState };

    ghost view = { λ file. record { calls = file.calls; faults = file.faults } };
}

impl AreaFile {
    /// The file, which wasn't loaded or stored yet.
    pub fn new(rt: HostRuntime) -> AreaFile
        ensures { result ≡ record { calls = 0; faults = no_faults } }
    {
        AreaFile {
            rt,
            calls: 0,
            faults: Faults::none(),
        }
    }
}

impl Keeper for AreaFile {
    ghost told = { told_by_area_file };

    fn load(&mut self, into: &mut AreaBytes) -> Result<u64, Failed> {
        self.calls = self.calls.saturating_add(1);
        self.faults.count(load_area(&self.rt, &mut into.bytes))
    }

    fn store(&mut self, _from: &AreaBytes) -> Result<(), Failed> {
        self.calls = self.calls.saturating_add(1);
        self.faults.count(Err(ErrorKind::Unsupported.into()))
    }
}

// Fills the area with the front of the file and with 0 behind it, and answers the length of the file.
fn load_area(rt: &HostRuntime, area: &mut [u8]) -> io::Result<u64> {
    area.fill(0);
    let mut file = match File::open(rt, NAME) {
        Ok(file) => file,
        Err(error) if error.kind() == ErrorKind::NotFound => return Ok(0),
        Err(error) => return Err(error),
    };
    let length = file.metadata()?.len();
    let fits = area
        .len()
        .min(usize::try_from(length).unwrap_or(area.len()));
    file.read_exact(&mut area[..fits])?;
    Ok(length)
}
