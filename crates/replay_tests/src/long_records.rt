//! A record that gives more bytes than a run takes.

ghost use Rattle.std.specs.Prelude.{◌≡◌, None, Some, false, true};

use crate::runs::{FIRST, texts_of};
use bml_ports::{Failed, MemoryKeeper, MemorySink, Port, Text, World};
use replay_run::{Status, run};
use std::test::Fail;

// The bytes of each of the record's lines with its end. Reads of 3,904 bytes begin with a line.
const LINE_LENGTH: usize = 122;

// A world whose stream is empty, and whose record is comments without end. It tells no content.
#[derive(Drop)]
struct EndlessRecord {
    stream: Opened,
    notes: Opened,
}

// What is told of a port.
#[derive(Drop)]
struct Opened {
    asked: Option<Text>,
    readable: bool,
}

impl Opened {
    fn open(&mut self, name: Text)
        ensures asked { self.new.asked ≡ Some name }
        ensures readable { self.new.readable ≡ true }
    {
        self.asked = Some(name);
        self.readable = true;
    }
}

impl World for EndlessRecord {
    ghost told = { λ world. record {
      files = None;
      openings = record { faults = 0; last_failed = false };
      stream = record {
        asked = world.stream.asked;
        readable = world.stream.readable;
        reads = record { faults = 0; last_failed = false };
        left = None;
      };
      notes = record {
        asked = world.notes.asked;
        readable = world.notes.readable;
        reads = record { faults = 0; last_failed = false };
        left = None;
      };
    } };

    fn open_port(&mut self, port: Port, name: Text) -> Result<(), Failed> {
        match port {
            Port::Stream => self.stream.open(name),
            Port::Notes => self.notes.open(name),
        }
        Ok(())
    }

    fn read_port(&mut self, port: Port, buf: &mut [u8]) -> Result<usize, Failed> {
        match port {
            Port::Stream => {
                self.stream.readable = false;
                Ok(0)
            }
            Port::Notes => {
                fill_with_comments(buf);
                Ok(buf.len())
            }
        }
    }
}

// Fills a buffer with lines of number signs.
fn fill_with_comments(buf: &mut [u8]) {
    buf.fill(b'#');
    for line in buf.chunks_mut(LINE_LENGTH) {
        if let Some(last) = line.last_mut() {
            *last = b'\n';
        }
    }
}

#[test]
fn a_record_without_end_is_too_long(rt: HostRuntime) -> Result<(), Fail> {
    let alloc = rt.alloc();
    let words = texts_of(alloc, FIRST)?;
    let mut world = EndlessRecord {
        stream: Opened {
            asked: None,
            readable: false,
        },
        notes: Opened {
            asked: None,
            readable: false,
        },
    };
    let mut keeper = MemoryKeeper::new(Vec::new(alloc), Vec::new(alloc));
    let mut sink = MemorySink::new(alloc, 16, Vec::new(alloc))?;
    let status = run(alloc, words.as_slice(), &mut world, &mut keeper, &mut sink);
    assert_eq!(rt; status, Status::TooLong);
    assert!(rt; sink.written().is_empty());
    Ok(())
}
