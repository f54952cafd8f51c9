//! Streams of some PIDs, each with its continuity counter.

ghost use Rattle.std.specs.Prelude.{◌<◌};

use crate::sections::{DATA_PID, Entry, Sent};
use crate::unbuilt::Unbuilt;
use section_writer::{push_packet, push_section};
use std::alloc::Global;

/// The bytes of a packet's payload.
const PAYLOAD_LENGTH: usize = 184;

/// What of a section the packet holds in which it begins behind a pointer_field.
const UNIT_LENGTH: usize = 183;

/// Packets, and for each PID below 512 the continuity counter of its next one.
#[derive(Drop)]
pub struct Stream {
    alloc: Global,
    bytes: Vec<u8>,
    counters: [u8; 512],
}

impl Stream {
    /// No packets.
    pub fn new(alloc: Global) -> Stream {
        Stream {
            alloc,
            bytes: Vec::new(alloc),
            counters: [0; 512],
        }
    }

    /// All bytes of the packets.
    pub fn bytes(&self) -> &[u8] {
        self.bytes.as_slice()
    }

    /// Each section in packets of its own.
    pub fn of_sections(alloc: Global, sections: &[Sent]) -> Result<Stream, Unbuilt> {
        let mut stream = Stream::new(alloc);
        for sent in sections {
            stream.push_sent(sent)?;
        }
        Ok(stream)
    }

    /// A module of 529 bytes in blocks of 519: the second block's section begins with the last byte of the
    /// packet in which the first one's ends.
    pub fn with_pointer(alloc: Global) -> Result<Stream, Unbuilt> {
        let indication = Sent::Indication(1, 519, &[Entry(1, 1, 529, &[])]);
        let first = Sent::Block(1, 1, 0, &[0x47; 519]).section(alloc)?;
        let second = Sent::Block(1, 1, 1, &[0x47; 10]).section(alloc)?;
        let (one, rest) = split(first.as_slice(), UNIT_LENGTH)?;
        let (two, three) = split(rest, PAYLOAD_LENGTH)?;
        let (start, four) = split(second.as_slice(), 1)?;
        let mut last = Vec::from_slice(alloc, three)?;
        last.extend_from_slice(start)?;
        let mut stream = Stream::new(alloc);
        stream.push_sent(&indication)?;
        stream.push_data(Some(0), one)?;
        stream.push_data(None, two)?;
        stream.push_data(Some(182), last.as_slice())?;
        stream.push_data(None, four)?;
        Ok(stream)
    }

    /// Appends a section on its PID, in packets of its own.
    pub fn push_sent(&mut self, sent: &Sent) -> Result<(), Unbuilt> {
        let section = sent.section(self.alloc)?;
        let pid = sent.pid();
        let counter = self.counter_of(pid);
        let next = push_section(
            self.alloc,
            &mut self.bytes,
            pid,
            counter,
            section.as_slice(),
        )?;
        self.go_on(pid, next);
        Ok(())
    }

    // Appends a packet of the data with these bytes, and 0xFF behind them. With a pointer_field a unit starts in it.
    fn push_data(&mut self, pointer: Option<u8>, bytes: &[u8]) -> Result<(), Unbuilt> {
        let mut payload = Vec::new(self.alloc);
        if let Some(place) = pointer {
            payload.push(place)?;
        }
        payload.extend_from_slice(bytes)?;
        if payload.len() > PAYLOAD_LENGTH {
            return Err(Unbuilt::Length);
        }
        payload.resize(PAYLOAD_LENGTH, 0xFF)?;
        let counter = self.counter_of(DATA_PID);
        let starts = pointer.is_some();
        push_packet(
            &mut self.bytes,
            DATA_PID,
            counter,
            starts,
            payload.as_slice(),
        )?;
        self.go_on(DATA_PID, counter + 1);
        Ok(())
    }

    // The continuity counter of the next packet on a PID below 512.
    fn counter_of(&self, pid: u16) -> u8
        ensures { result < 16 }
    {
        match self.counters.get(usize::from(pid)) {
            None => 0,
            Some(counter) => *counter & 0x0F,
        }
    }

    // This is the continuity counter of the next packet on a PID below 512.
    fn go_on(&mut self, pid: u16, next: u8) {
        if let Some(counter) = self.counters.get_mut(usize::from(pid)) {
            *counter = next;
        }
    }
}

// Bytes up to a place, and those behind it.
fn split(bytes: &[u8], place: usize) -> Result<(&[u8], &[u8]), Unbuilt> {
    bytes.split_at_checked(place).ok_or(Unbuilt::Length)
}
