//! The traits of the outside.

ghost use Rattle.std.specs.Prelude.{◌≡◌, ℕ, ◌<◌, ◌≤◌, ◌↔◌, length, Option, None, Some, IsTrue, IsSome, IfOk, is_ok};
ghost use Rattle.std.specs.Io.{ReadsAtMost};
ghost use Rattle.std.specs.Io.KnownBytes.{Keeps, ReadConsumes, WriteAppends};
ghost use Rattle.bml_ports.specs.Counters.{Counts, counted};
ghost use Rattle.bml_ports.specs.Keepers.{KeeperState, Loads, Stores};
ghost use Rattle.bml_ports.specs.Sinks.{SinkState};
ghost use Rattle.bml_ports.specs.Worlds.{WorldState, port_of, other_port, Opens, EndsAtLast, gave_bytes};

use bml_bytes::{AreaBytes, Text};

/// A call on the outside failed. The count of the calls that it belongs to rose.
#[derive(Clone, Copy, Debug, PartialEq, Eq)]
pub struct Failed;

/// The two files of a replay.
#[derive(Clone, Copy, Debug, PartialEq, Eq)]
pub enum Port {
    /// The recorded transport stream.
    Stream,
    /// The record of what a user did.
    Notes,
}

/// Where lines are written to.
pub trait Sink {
    ghost told: { Self → SinkState };

    /// Takes some of the bytes from the front on, at least one, and answers how many. What is taken is
    /// appended to what was written; a failed write appends nothing.
    fn write(&mut self, bytes: &[u8]) -> Result<usize, Failed>
        requires some { 0 < length bytes.now }
        ensures count { IfOk result (λ n. (0 < n) × (n ≤ length bytes.now)) }
        ensures bytes { WriteAppends (told self.old).written
            (told self.new).written result bytes.now }
        ensures counted { Counts (told self.old).writes (told self.new).writes result };
}

/// What keeps a persistent area while a receiver is switched off.
pub trait Keeper {
    ghost told: { Self → KeeperState };

    /// Answers the number of bytes that are kept, and fills the front of the area with as many of them as
    /// fit and the rest with 0. What is kept stays, also where the load fails; the area may then hold
    /// anything.
    fn load(&mut self, into: &mut AreaBytes) -> Result<u64, Failed>
        ensures loaded { IfOk result (λ size. Loads (told self.old).kept size into.new) }
        ensures kept { Keeps (told self.old).kept (told self.new).kept }
        ensures calls { (told self.new).calls ≡ counted (told self.old).calls }
        ensures counted { Counts (told self.old).faults (told self.new).faults result };

    /// Keeps the area in place of what was kept. A failed store leaves what was kept or the area, and
    /// nothing else.
    fn store(&mut self, from: &AreaBytes) -> Result<(), Failed>
        ensures stored { Stores (told self.old).kept (told self.new).kept result from.now }
        ensures calls { (told self.new).calls ≡ counted (told self.old).calls }
        ensures counted { Counts (told self.old).faults (told self.new).faults result };
}

/// Where the two files of a replay are read from.
///
/// A port may be read once `open_port` of it answered Ok, for as long as no read of it gave 0 or failed.
pub trait World {
    ghost told: { Self → WorldState };

    /// Opens the file of this name at a port. No name may have been asked for at that port before; the
    /// name is then the one that was asked for, also where the opening fails.
    fn open_port(&mut self, port: Port, name: Text) -> Result<(), Failed>
        requires unasked { (port_of (told self.old) port).asked ≡ None }
        ensures asked { (port_of (told self.new) port).asked ≡ Some name }
        ensures readable { (port_of (told self.new) port).readable ≡ is_ok result }
        ensures bytes { Opens (told self.old).files name (port_of (told self.old) port).left
            (port_of (told self.new) port).left result }
        ensures stays_told { IsSome (port_of (told self.old) port).left
            → IsSome (port_of (told self.new) port).left }
        ensures counted { Counts (told self.old).openings (told self.new).openings result }

        // The rest stays.
        ensures reads { (port_of (told self.new) port).reads
            ≡ (port_of (told self.old) port).reads }
        ensures files { (told self.new).files ≡ (told self.old).files }
        ensures other { port_of (told self.new) (other_port port)
            ≡ port_of (told self.old) (other_port port) };

    /// Fills the front of the buffer with the next bytes of a port and answers how many: at least one, and
    /// 0 exactly at the end. A failed read takes nothing; the buffer may then hold anything.
    fn read_port(&mut self, port: Port, buf: &mut [u8]) -> Result<usize, Failed>
        requires readable { IsTrue (port_of (told self.old) port).readable }
        requires room { 0 < length buf.old }
        ensures count { ReadsAtMost result buf.new }
        ensures bytes { ReadConsumes (port_of (told self.old) port).left
            (port_of (told self.new) port).left result buf.new }
        ensures end { EndsAtLast (port_of (told self.old) port).left result }
        ensures readable { (port_of (told self.new) port).readable ≡ gave_bytes result }
        ensures counted { Counts (port_of (told self.old) port).reads
            (port_of (told self.new) port).reads result }

        // The rest stays.
        ensures asked { (port_of (told self.new) port).asked
            ≡ (port_of (told self.old) port).asked }
        ensures openings { (told self.new).openings ≡ (told self.old).openings }
        ensures files { (told self.new).files ≡ (told self.old).files }
        ensures other { port_of (told self.new) (other_port port)
            ≡ port_of (told self.old) (other_port port) };
}
