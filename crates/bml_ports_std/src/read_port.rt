//! One of the two ports that a replay reads.

ghost use Rattle.std.specs.Prelude.{◌≡◌, ◌<◌, length, Some, IsTrue, MatchResult, is_ok};
ghost use Rattle.std.specs.Io.{ReadsAtMost};
ghost use Rattle.std.specs.Io.KnownBytes.{ReadConsumes};
ghost use Rattle.bml_ports.specs.Counters.{Counts};
ghost use Rattle.bml_ports.specs.Worlds.{gave_bytes};
ghost use Rattle.bml_ports_std.specs.Files.{unopened};

use crate::faults::Faults;
use bml_ports::{Failed, Text};
use std::io::{self, ErrorKind, Read};
use std::marker::Model;

/// A port, which reads a reader once it was opened. It tells what its reader tells of the bytes that are
/// left.
#[derive(Drop)]
pub struct ReadPort<R: Read + Drop> {
    asked: Option<Text>,
    reader: Option<R>,
    readable: bool,
    reads: Faults,
}

impl<R: Read + Drop> Model for ReadPort<R> {
    ghost use Rattle.std.specs.Prelude.{IsSome, IsTrue, option_and_then};
    ghost use Rattle.bml_ports.specs.Worlds.{PortState};

    ghost Value = { PortState };

    ghost view = { λ port. record {
      asked = port.asked;
      readable = port.readable;
      reads = port.reads;
      left = option_and_then R.remaining port.reader;
    } };

    ghost invariant = { λ port. IsTrue port.readable → IsSome port.reader };
}

impl<R: Read + Drop> ReadPort<R> {
    /// A port at which no name was asked for yet.
    pub fn unopened() -> ReadPort<R>
        ensures { result ≡ unopened }
    {
        ReadPort {
            asked: None,
            reader: None,
            readable: false,
            reads: Faults::none(),
        }
    }

    /// Takes the reader that an opening gave, and the name that was asked for. It may be read from now on
    /// where the opening gave a reader.
    pub fn open(&mut self, name: Text, opened: Result<R, Failed>) -> Result<(), Failed>
        ensures asked { self.new.asked ≡ Some name }
        ensures readable { self.new.readable ≡ is_ok opened }
        ensures reads { self.new.reads ≡ self.old.reads }
        ensures left { MatchResult opened (λ reader. self.new.left ≡ R.remaining reader)
            (λ _. self.new.left ≡ self.old.left) }
        ensures answered { is_ok result ≡ is_ok opened }
    {
        self.asked = Some(name);
        match opened {
            Ok(reader) => {
                self.reader = Some(reader);
                self.readable = true;
                Ok(())
            }
            Err(_) => {
                self.readable = false;
                Err(Failed)
            }
        }
    }

    /// Reads some bytes. It may be read no more where there were none, or the read failed.
    pub fn read(&mut self, buf: &mut [u8]) -> Result<usize, Failed>
        requires readable { IsTrue self.old.readable }
        requires room { 0 < length buf.old }
        ensures count { ReadsAtMost result buf.new }
        ensures bytes { ReadConsumes self.old.left self.new.left result buf.new }
        ensures readable { self.new.readable ≡ gave_bytes result }
        ensures counts { Counts self.old.reads self.new.reads result }
        ensures asked { self.new.asked ≡ self.old.asked }
    {
        let reader = self.reader.as_mut().unwrap();
        let answer = self.reads.count(read_some(reader, buf));
        self.readable = match answer {
            Ok(count) => count > 0,
            Err(_) => false,
        };
        answer
    }
}

// Reads some bytes, and reads again where a signal interrupted the call.
fn read_some<R: Read>(reader: &mut R, buf: &mut [u8]) -> io::Result<usize>
    ensures count { ReadsAtMost result buf.new }
    ensures bytes { ReadConsumes (R.remaining reader.old) (R.remaining reader.new) result buf.new }
{
    'tries: for _try in 0..u64::MAX {
        match reader.read(buf) {
            Err(error) if error.kind() == ErrorKind::Interrupted => {}
            answer => return answer,
        }
    }
    Err(ErrorKind::Interrupted.into())
}
