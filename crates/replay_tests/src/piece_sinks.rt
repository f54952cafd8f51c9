//! A sink that takes few bytes in a write.

ghost use Rattle.std.specs.Prelude.{◌<◌, ◌≤◌};
ghost use Rattle.bml_ports.specs.MemorySinks.{told_by_sink};

use bml_ports::{Failed, MemorySink, Sink};

/// A sink in memory that takes at most so many bytes in a write.
#[derive(Drop)]
pub struct PieceSink {
    inner: MemorySink,
    piece: usize,
    ghost some: { 0 < piece },
}

impl PieceSink {
    pub fn new(inner: MemorySink, piece: usize) -> PieceSink {
        PieceSink {
            inner,
            piece: piece.max(1),
        }
    }

    /// All that was written.
    pub fn written(&self) -> &[u8] {
        self.inner.written()
    }
}

impl Sink for PieceSink {
    ghost told = { λ sink. told_by_sink sink.inner };

    fn write(&mut self, bytes: &[u8]) -> Result<usize, Failed> {
        let taken = bytes.len().min(self.piece);
        self.inner.write(&bytes[..taken])
    }
}
