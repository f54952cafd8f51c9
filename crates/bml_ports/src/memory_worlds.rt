//! A world in memory, and its files.

ghost use Rattle.std.specs.Prelude.{◌≡◌, ◌+◌, ◌-◌, ◌^◌, ◌<◌, ◌≤◌, ◌↔◌, [], ◌∷◌, ◌++◌, None, Some, false, length, min, take, drop, nat_eq, position, Contains, IfOk, OnErr, OnOk, IfSome, MatchOption, IsErr, IsNone, IsSome, IsTrue, is_err, is_ok, is_some, if◌then◌else◌};
ghost use Rattle.std.specs.Cmp.Lexicographic.{pointwise};
ghost use Rattle.std.specs.Io.{ReadsAtMost};
ghost use Rattle.std.specs.Io.KnownBytes.{ReadConsumes};
ghost use Rattle.std.specs.Option.{option_copied};
ghost use Rattle.std.specs.Result.{result_unwrap_or};
ghost use Rattle.bml_ports.specs.Counters.{Counts};
ghost use Rattle.bml_ports.specs.MemoryCalls.{no_calls, after_call, counter_of, FailsNext};
ghost use Rattle.bml_ports.specs.MemoryPlaces.{IsFound, IsPlaced, port_seen, source_at};
ghost use Rattle.bml_ports.specs.MemoryWorlds.{unopened, memory_port_of, source_named, HasOpened, WasOpened, OpeningFails, ReadFails, GivesPiece, after_opening, after_reading, left_at, told_by_world};
ghost use Rattle.bml_ports.specs.Worlds.{port_of, other_port, Opens, EndsAtLast, gave_bytes};

use crate::memory_calls::{Calls, is_listed};
use crate::outside::{Failed, Port, World};
use bml_bytes::{NoMemory, Text};
use std::alloc::Global;
use std::marker::Model;

/// A file of a `MemoryWorld`.
#[derive(Debug, Drop)]
pub struct MemorySource {
    bytes: Vec<u8>,
    piece: usize,
    failing: Vec<u64>,
}

impl Model for MemorySource {
    ghost use Rattle.std.specs.Prelude.{◌≤◌};
    ghost use Rattle.bml_ports.specs.MemorySources.{SourceState};

    ghost Value = { SourceState };

    ghost view = { λ source. record {
      bytes = source.bytes.items;
      piece = source.piece;
      failing = source.failing.items;
    } };

    ghost invariant = { λ source. 1 ≤ source.piece };
}

impl MemorySource {
    /// A file of these bytes, of which one read gives at most `piece`, and whose reads of the given numbers
    /// fail. Reads are numbered from 1.
    pub fn new(bytes: Vec<u8>, piece: usize, failing: Vec<u64>) -> MemorySource
        requires piece { 1 ≤ piece }
        ensures { result ≡ record { bytes = bytes.items; piece = piece; failing = failing.items } }
    {
        MemorySource {
            bytes,
            piece,
            failing,
        }
    }
}

// A file and its name.
#[derive(Debug, Drop)]
pub struct MemoryFile {
    pub name: Text,
    pub source: MemorySource,
}

// A port, and the place of its file among the files.
#[derive(Debug, Drop)]
struct MemoryPort {
    asked: Option<Text>,
    readable: bool,
    calls: Calls,
    place: Option<usize>,
    taken: usize,
}

/// Files in memory, of which each can be opened once. It fails at given openings, and where a file is
/// missing or was opened before.
#[derive(Debug, Drop)]
pub struct MemoryWorld {
    files: Vec<MemoryFile>,
    failing: Vec<u64>,
    calls: Calls,
    stream: MemoryPort,
    notes: MemoryPort,
}

impl Model for MemoryWorld {
    ghost use Rattle.bml_ports.specs.MemoryWorlds.{MemoryWorldState};

    ghost Value = { MemoryWorldState };

    ghost use Rattle.bml_ports.specs.MemoryPlaces.{port_seen, IsPlaced};

    ghost view = { λ world. record {
      files = world.files.items;
      failing = world.failing.items;
      calls = world.calls;
      stream = port_seen world.files.items world.stream;
      notes = port_seen world.files.items world.notes;
    } };

    ghost invariant = { λ world. IsPlaced world.files.items world.stream
        × IsPlaced world.files.items world.notes };
}

impl MemoryWorld {
    /// A world without files, whose openings of the given numbers fail. Openings are numbered from 1.
    pub fn new(alloc: Global, failing: Vec<u64>) -> MemoryWorld
        ensures { result ≡ record {
          files = [];
          failing = failing.items;
          calls = no_calls;
          stream = unopened;
          notes = unopened;
        } }
    {
        MemoryWorld {
            files: Vec::new(alloc),
            failing,
            calls: Calls::none(),
            stream: MemoryPort::unopened(),
            notes: MemoryPort::unopened(),
        }
    }

    /// Adds a file. Of two files with one name the first one is found and the second one never, so what
    /// was told of a name stays.
    pub fn add(&mut self, name: Text, source: MemorySource) -> Result<(), NoMemory>
        ensures ok { OnOk result (self.new
            ≡ record self.old {
              files = self.old.files ++ record {
                name = name;
                source = source;
              } ∷ [];
            }) }
        ensures err { OnErr result (self.new ≡ self.old) }
    {
        self.files.push(MemoryFile { name, source })?;
        Ok(())
    }

    /// The bytes that a port has left, and None where no file was opened at it.
    pub fn left(&self, port: Port) -> Option<&[u8]>
        ensures { option_copied result ≡ left_at (memory_port_of self.now port) }
    {
        match port {
            Port::Stream => left_of(self.files.as_slice(), &self.stream),
            Port::Notes => left_of(self.files.as_slice(), &self.notes),
        }
    }

    /// The name that was asked for at a port.
    pub fn asked(&self, port: Port) -> Option<&Text>
        ensures { option_copied result ≡ (memory_port_of self.now port).asked }
    {
        match port {
            Port::Stream => self.stream.asked.as_ref(),
            Port::Notes => self.notes.asked.as_ref(),
        }
    }
}

impl World for MemoryWorld {
    ghost told = { told_by_world };

    /// Fails exactly where the number of the opening is listed, no file has the name, or the file was
    /// opened before.
    fn open_port(&mut self, port: Port, name: Text) -> Result<(), Failed>
        requires unasked { (port_of (told_by_world self.old) port).asked ≡ None }
        ensures asked { (port_of (told_by_world self.new) port).asked ≡ Some name }
        ensures readable { (port_of (told_by_world self.new) port).readable ≡ is_ok result }
        ensures bytes { Opens (told_by_world self.old).files name
            (port_of (told_by_world self.old) port).left
            (port_of (told_by_world self.new) port).left result }
        ensures stays_told { IsSome (port_of (told_by_world self.old) port).left
            → IsSome (port_of (told_by_world self.new) port).left }
        ensures counted { Counts (told_by_world self.old).openings
            (told_by_world self.new).openings result }
        ensures reads { (port_of (told_by_world self.new) port).reads
            ≡ (port_of (told_by_world self.old) port).reads }
        ensures files { (told_by_world self.new).files ≡ (told_by_world self.old).files }
        ensures other { port_of (told_by_world self.new) (other_port port)
            ≡ port_of (told_by_world self.old) (other_port port) }

        // The exact call.
        ensures fails { IsErr result ↔ OpeningFails self.old name }
        ensures opened { memory_port_of self.new port
            ≡ after_opening (memory_port_of self.old port) name
            (source_named self.old.files name) (is_ok result) }
        ensures calls { self.new.calls ≡ after_call self.old.calls (is_err result) }
        ensures same { (self.new.files ≡ self.old.files) × (self.new.failing ≡ self.old.failing) }
        ensures other_port { memory_port_of self.new (other_port port)
            ≡ memory_port_of self.old (other_port port) }
    {
        let place = self.place_to_open(&name);
        self.calls.count(place.is_none());
        match port {
            Port::Stream => self.stream.open(name, place),
            Port::Notes => self.notes.open(name, place),
        }
        match place {
            Some(_) => Ok(()),
            None => Err(Failed),
        }
    }

    /// Fails exactly where the number of the read of this port is listed for its file, and gives else as
    /// much as the file's piece, the buffer and the bytes left allow.
    fn read_port(&mut self, port: Port, buf: &mut [u8]) -> Result<usize, Failed>
        requires readable { IsTrue (port_of (told_by_world self.old) port).readable }
        requires room { 0 < length buf.old }
        ensures count { ReadsAtMost result buf.new }
        ensures bytes { ReadConsumes (port_of (told_by_world self.old) port).left
            (port_of (told_by_world self.new) port).left result buf.new }
        ensures end { EndsAtLast (port_of (told_by_world self.old) port).left result }
        ensures readable { (port_of (told_by_world self.new) port).readable ≡ gave_bytes result }
        ensures counted { Counts (port_of (told_by_world self.old) port).reads
            (port_of (told_by_world self.new) port).reads result }
        ensures asked { (port_of (told_by_world self.new) port).asked
            ≡ (port_of (told_by_world self.old) port).asked }
        ensures openings { (told_by_world self.new).openings ≡ (told_by_world self.old).openings }
        ensures files { (told_by_world self.new).files ≡ (told_by_world self.old).files }
        ensures other { port_of (told_by_world self.new) (other_port port)
            ≡ port_of (told_by_world self.old) (other_port port) }

        // The exact call.
        ensures fails { IsErr result ↔ ReadFails (memory_port_of self.old port) }
        ensures gives { IfOk result
            (λ n. GivesPiece (memory_port_of self.old port) (length buf.old) n) }
        ensures read { memory_port_of self.new port
            ≡ after_reading (memory_port_of self.old port) result }
        ensures same { (self.new.files ≡ self.old.files) × (self.new.failing ≡ self.old.failing)
            × (self.new.calls ≡ self.old.calls) }
        ensures other_port { memory_port_of self.new (other_port port)
            ≡ memory_port_of self.old (other_port port) }
    {
        match port {
            Port::Stream => read_at(self.files.as_slice(), &mut self.stream, buf),
            Port::Notes => read_at(self.files.as_slice(), &mut self.notes, buf),
        }
    }
}

impl MemoryWorld {
    // The place of the file of this name, and None where its opening is to fail.
    fn place_to_open(&self, name: &Text) -> Option<usize>
        ensures fails { IsNone result ↔ OpeningFails self.now name.now }
        ensures found { IfSome result (λ place. IsFound self.now.files name.now place) }
    {
        if self.fails_next() || self.was_opened(name) {
            return None;
        }
        place_of(self.files.as_slice(), name)
    }

    // Whether the next opening is one of those that are to fail.
    fn fails_next(&self) -> bool
        ensures { IsTrue result ↔ FailsNext self.now.failing self.now.calls }
    {
        is_listed(self.failing.as_slice(), self.calls.next_number())
    }

    // Whether the file of this name was opened.
    fn was_opened(&self, name: &Text) -> bool
        ensures { IsTrue result ↔ WasOpened self.now name.now }
    {
        has_opened(self.files.as_slice(), &self.stream, name)
            || has_opened(self.files.as_slice(), &self.notes, name)
    }
}

impl MemoryPort {
    fn unopened() -> MemoryPort
        ensures { (result.asked ≡ None) × (result.readable ≡ false) × (result.calls ≡ no_calls)
            × (result.place ≡ None) × (result.taken ≡ 0) }
    {
        MemoryPort {
            asked: None,
            readable: false,
            calls: Calls::none(),
            place: None,
            taken: 0,
        }
    }

    // Opens the port on the file at a place, or only asks for the name.
    fn open(&mut self, name: Text, place: Option<usize>)
        ensures asked { self.new.asked ≡ Some name }
        ensures readable { self.new.readable ≡ is_some place }
        ensures calls { self.new.calls ≡ self.old.calls }
        ensures place { self.new.place ≡ (if is_some place then place else self.old.place) }
        ensures taken { self.new.taken ≡ (if is_some place then 0 else self.old.taken) }
    {
        self.asked = Some(name);
        self.readable = place.is_some();
        if place.is_some() {
            self.place = place;
            self.taken = 0;
        }
    }
}

// The place of the first file of this name.
fn place_of(files: &[MemoryFile], name: &Text) -> Option<usize>
    ensures { MatchOption result (IsNone (source_named files.now name.now))
        (λ place. IsFound files.now name.now place) }
{
    position_of(files, name)
}

// How many files stand before the first one of this name.
fn position_of(files: &[MemoryFile], name: &Text) -> Option<usize>
    ensures { result ≡ position (λ file. pointwise nat_eq file.name name.now) files.now }
{
    files.iter().position(|file| file.name == *name)
}

// Whether the file of this name was opened at this port.
fn has_opened(files: &[MemoryFile], port: &MemoryPort, name: &Text) -> bool
    requires placed { IsPlaced files.now port.now }
    ensures { IsTrue result ↔ HasOpened (port_seen files.now port.now) name.now }
{
    let Some(asked) = &port.asked else {
        return false;
    };
    if port.place.is_none() {
        return false;
    }
    *asked == *name
}

// The source of the file at a place.
fn source_of(files: &[MemoryFile], place: usize) -> &MemorySource
    requires { place < length files.now }
    ensures { source_at files.now place ≡ Some result.now }
{
    &files[place].source
}

// The bytes that a port has left.
fn left_of<'a>(files: &'a [MemoryFile], port: &MemoryPort) -> Option<&'a [u8]>
    requires placed { IsPlaced files.now port.now }
    ensures { option_copied result ≡ left_at (port_seen files.now port.now) }
{
    let place = port.place?;
    let source = source_of(files, place);
    Some(&source.bytes[port.taken..])
}

// Reads the next bytes of a port that may be read.
fn read_at(files: &[MemoryFile], port: &mut MemoryPort, buf: &mut [u8]) -> Result<usize, Failed>
    requires placed { IsPlaced files.now port.old }
    requires readable { IsTrue port.old.readable }
    requires room { 0 < length buf.old }
    ensures placed { IsPlaced files.now port.new }
    ensures place { port.new.place ≡ port.old.place }
    ensures count { ReadsAtMost result buf.new }
    ensures bytes { ReadConsumes (left_at (port_seen files.now port.old))
        (left_at (port_seen files.now port.new)) result buf.new }
    ensures end { EndsAtLast (left_at (port_seen files.now port.old)) result }
    ensures counted { Counts (counter_of port.old.calls) (counter_of port.new.calls) result }
    ensures fails { IsErr result ↔ ReadFails (port_seen files.now port.old) }
    ensures gives { IfOk result
        (λ n. GivesPiece (port_seen files.now port.old) (length buf.old) n) }
    ensures read { port_seen files.now port.new
        ≡ after_reading (port_seen files.now port.old) result }
{
    let place = port.place.unwrap();
    source_of(files, place).read(port, buf)
}

impl MemorySource {
    // Reads the bytes at a port, which was opened on this source.
    fn read(&self, port: &mut MemoryPort, buf: &mut [u8]) -> Result<usize, Failed>
        requires taken { port.old.taken ≤ length self.now.bytes }
        requires room { 0 < length buf.old }
        ensures taken { port.new.taken ≤ length self.now.bytes }
        ensures count { ReadsAtMost result buf.new }
        ensures bytes { ReadConsumes (Some (drop port.old.taken self.now.bytes))
            (Some (drop port.new.taken self.now.bytes)) result buf.new }
        ensures end { EndsAtLast (Some (drop port.old.taken self.now.bytes)) result }
        ensures counted { Counts (counter_of port.old.calls) (counter_of port.new.calls) result }
        ensures fails { IsErr result ↔ FailsNext self.now.failing port.old.calls }
        ensures gives { IfOk result
            (λ n. n ≡ min (min self.now.piece (length buf.old))
            (length self.now.bytes - port.old.taken)) }
        ensures port { port.new ≡ record port.old {
          readable = gave_bytes result;
          calls = after_call port.old.calls (is_err result);
          taken = port.old.taken + result_unwrap_or result 0;
        } }
    {
        let failed = is_listed(self.failing.as_slice(), port.calls.next_number());
        port.calls.count(failed);
        if failed {
            port.readable = false;
            return Err(Failed);
        }
        let given = self.copy_from(port.taken, buf);
        port.taken += given;
        port.readable = given > 0;
        Ok(given)
    }

    // Copies as much as one read gives to the front of the buffer, and answers how much.
    fn copy_from(&self, taken: usize, buf: &mut [u8]) -> usize
        requires taken { taken ≤ length self.now.bytes }
        requires room { 0 < length buf.old }
        ensures given { result ≡ min (min self.now.piece (length buf.old))
            (length self.now.bytes - taken) }
        ensures within { taken + result ≤ length self.now.bytes }
        ensures fits { taken + result < 2 ^ 64 }
        ensures some { taken < length self.now.bytes → 0 < result }
        ensures copied { take result buf.new ≡ take result (drop taken self.now.bytes) }
    {
        let left = &self.bytes[taken..];
        let given = self.piece.min(buf.len()).min(left.len());
        buf[..given].copy_from_slice(&left[..given]);
        given
    }
}
