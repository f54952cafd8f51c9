//! The two files that a replay reads.

ghost use Rattle.std.specs.Prelude.{◌≡◌};
ghost use Rattle.bml_ports_std.specs.Calls.{no_faults};
ghost use Rattle.bml_ports_std.specs.Files.{unopened, told_by_files};

use crate::faults::Faults;
use crate::read_port::ReadPort;
use bml_ports::{Failed, Port, Text, World};
use std::fs::File;
use std::io::{self, BufReader, ErrorKind};
use std::marker::Model;

/// How many bytes one call of the operating system reads at most.
const BUFFER_BYTES: usize = 65_536;

/// The files of the operating system. A file is opened by its name's bytes, which have to be UTF-8, and
/// read through a buffer of 65,536 bytes, which is taken when it is opened.
///
/// An opening that fails is a fault, and so is one that finds no memory. A folder can be opened, and the
/// first read of it fails. Of what a file holds it tells nothing.
#[derive(Drop)]
pub struct FileWorld {
    rt: HostRuntime,
    openings: Faults,
    stream: ReadPort<BufReader<File>>,
    notes: ReadPort<BufReader<File>>,
}

impl Model for FileWorld {
    ghost use Rattle.bml_ports_std.specs.Files.{FilesState};

    ghost Value = { FilesState };

    ghost view = { λ world. record {
      openings = world.openings;
      stream = world.stream;
      notes = world.notes;
    } };
}

impl FileWorld {
    /// The files, of which none is opened yet.
    pub fn new(rt: HostRuntime) -> FileWorld
        ensures { result ≡ record { openings = no_faults; stream = unopened; notes = unopened } }
    {
        FileWorld {
            rt,
            openings: Faults::none(),
            stream: ReadPort::unopened(),
            notes: ReadPort::unopened(),
        }
    }
}

impl World for FileWorld {
    ghost told = { told_by_files };

    fn open_port(&mut self, port: Port, name: Text) -> Result<(), Failed> {
        let opened = self.openings.count(open_file(&self.rt, &name));
        match port {
            Port::Stream => self.stream.open(name, opened),
            Port::Notes => self.notes.open(name, opened),
        }
    }

    fn read_port(&mut self, port: Port, buf: &mut [u8]) -> Result<usize, Failed> {
        match port {
            Port::Stream => self.stream.read(buf),
            Port::Notes => self.notes.read(buf),
        }
    }
}

// Opens the file of this name, with the buffer that it is read through.
fn open_file(rt: &HostRuntime, name: &Text) -> io::Result<BufReader<File>> {
    let mut bytes = Vec::new(rt.alloc());
    if name.push_bytes(&mut bytes).is_err() {
        return Err(ErrorKind::OutOfMemory.into());
    }
    match str::from_utf8(bytes.as_slice()) {
        Ok(path) => BufReader::with_capacity(rt.alloc(), BUFFER_BYTES, File::open(rt, path)?),
        Err(_) => Err(ErrorKind::InvalidInput.into()),
    }
}
