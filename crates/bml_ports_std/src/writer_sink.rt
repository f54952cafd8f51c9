//! A writer as a sink.

ghost use Rattle.std.specs.Prelude.{◌≡◌, ◌<◌, ◌≤◌, length, IfOk};
ghost use Rattle.std.specs.Io.KnownBytes.{WriteAppends};
ghost use Rattle.bml_ports_std.specs.Calls.{no_faults};

use crate::faults::Faults;
use bml_ports::{Failed, Sink};
use std::io::{self, ErrorKind, Stdout, Write};
use std::marker::Model;

/// Standard output as a sink. Of what was written to it, it tells nothing.
pub type StandardOutput = WriterSink<Stdout>;

/// A writer as a sink. It holds nothing back, and tells what the writer tells of the bytes written.
#[derive(Drop)]
pub struct WriterSink<W: Write + Drop> {
    writer: W,
    writes: Faults,
}

impl<W: Write + Drop> Model for WriterSink<W> {
    ghost use Rattle.bml_ports.specs.Sinks.{SinkState};

    ghost Value = { SinkState };

    ghost view = { λ sink. record { writes = sink.writes; written = W.contents sink.writer } };
}

impl<W: Write + Drop> WriterSink<W> {
    /// The writer, to which nothing was written yet.
    pub fn new(writer: W) -> WriterSink<W>
        ensures { result ≡ record { writes = no_faults; written = W.contents writer } }
    {
        WriterSink {
            writer,
            writes: Faults::none(),
        }
    }
}

impl<W: Write + Drop> Sink for WriterSink<W> {
    ghost told = { λ sink. sink };

    fn write(&mut self, bytes: &[u8]) -> Result<usize, Failed> {
        self.writes.count(write_some(&mut self.writer, bytes))
    }
}

// Writes some bytes from the front on, and writes again where a signal interrupted the call. A writer that
// takes none of them fails.
fn write_some<W: Write>(writer: &mut W, bytes: &[u8]) -> io::Result<usize>
    requires some { 0 < length bytes.now }
    ensures count { IfOk result (λ n. (0 < n) × (n ≤ length bytes.now)) }
    ensures bytes { WriteAppends (W.contents writer.old) (W.contents writer.new) result bytes.now }
{
    'tries: for _try in 0..u64::MAX {
        match writer.write(bytes) {
            Ok(0) => return Err(ErrorKind::WriteZero.into()),
            Err(error) if error.kind() == ErrorKind::Interrupted => {}
            answer => return answer,
        }
    }
    Err(ErrorKind::Interrupted.into())
}
