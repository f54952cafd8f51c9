//! The sections of several PIDs, put together side by side.

ghost use Rattle.std.specs.Prelude.{◌≡◌, ◌≤◌, ◌==◌, ◌||◌, ◌&&◌, ◌↔◌, ℕ, Bool, true, false, List, [], filter, position, if◌then◌else◌, is_some, IfOk, IsTrue, OnSome, option_copied};
ghost use Rattle.std.specs.Borrow.{sem};
ghost use Rattle.std.specs.Io.BufRead.{Rests};
ghost use Rattle.std.specs.Vec.{vec_capacity};
ghost use Rattle.ts_packets.specs.Packet.{pid_of};
ghost use Rattle.psi_tables.specs.Service.{wants};
ghost use Rattle.ts_sections.specs.Sections.{completed_by};
ghost use Rattle.ts_sections.specs.Assembly as assembly;
ghost use Rattle.section_demultiplexer.specs.Channels.{AreDistinct, Continues, can_have, channel_on, has_channel, is_on};
ghost use Rattle.section_demultiplexer.specs.Demultiplexing.{IsDrained, NextSection, StandsFor, has_room, is_followed, of_wanted, with_next, with_pid};

use bml_bytes::NoMemory;
use psi_tables::Services;
use std::alloc::Global;
use std::marker::Model;
use ts_packets::Packet;
use ts_sections::Assembler;

/// The most PIDs whose sections are put together: those of the PAT, of the PMT, and of 16
/// components.
pub const CHANNEL_LIMIT: usize = 18;

/// A PID on which packets came, with the assembler of its sections.
#[derive(Drop)]
pub struct Channel {
    pid: u16,
    assembler: Assembler,
}

/// Puts the sections of each wanted PID together.
///
/// Hand in a packet of such a PID by [`push`](Demultiplexer::push), and then take the sections that
/// it completes by [`next`](Demultiplexer::next), until that answers `None`. When other PIDs are
/// wanted, tell it by [`follow`](Demultiplexer::follow).
#[derive(Drop)]
pub struct Demultiplexer {
    channels: Vec<Channel>,
    /// The PID of the packet pushed last, 0 before the first.
    pid: u16,
}

impl Model for Demultiplexer {
    ghost use Rattle.std.specs.Vec.{vec_capacity};
    ghost use Rattle.section_demultiplexer.specs.Channels.{IsSound, channel_on, waiting_in};
    ghost use Rattle.section_demultiplexer.specs.Demultiplexing.{DemultiplexerState};

    ghost Value = { DemultiplexerState };

    ghost view = { λ d. record {
      pid = d.pid;
      waiting = waiting_in (channel_on d.channels.items d.pid);
      kept = d.channels.items;
    } };

    ghost invariant = { λ d. IsSound d.channels.items (vec_capacity d.channels) d.pid };
}

impl Demultiplexer {
    ghost use Rattle.section_demultiplexer.specs.contracts.demultiplexer.Demultiplexer.{the_row};

    /// A demultiplexer that no packet was handed to. All of its memory is taken here.
    pub fn new(alloc: Global) -> Result<Demultiplexer, NoMemory>
        ensures stands { IfOk result
            (λ demultiplexer. StandsFor demultiplexer (λ pid. []) (λ pid. [])) }
        ensures drained { IfOk result (λ demultiplexer. IsDrained demultiplexer) }
        ensures followed { IfOk result
            (λ demultiplexer. (pid : ℕ) → is_followed demultiplexer pid ≡ false) }
        ensures pid { IfOk result (λ demultiplexer. demultiplexer.pid ≡ 0) }
    {
        Ok(Demultiplexer {
            channels: Vec::with_capacity(alloc, CHANNEL_LIMIT)?,
            pid: 0,
        })
    }

    /// The PID of the packet pushed last, 0 before the first.
    pub fn pid(&self) -> u16
        ensures { result ≡ self.now.pid }
    {
        self.pid
    }

    /// Whether no section is waiting to be given, so that [`push`](Demultiplexer::push) may be
    /// called.
    pub fn is_drained(&self) -> bool
        ensures { IsTrue result ↔ IsDrained self.now }
    {
        match place_of(&self.channels, self.pid) {
            None => true,
            Some(place) => {
                let channel = &self.channels[place];
                channel.assembler.is_drained()
            }
        }
    }

    /// Hands in the next packet of its PID, which is wanted. Takes no memory. A packet of one PID
    /// more than there is room for is left out; where no more than 18 are wanted there is room for
    /// each (law `law_of_room`).
    pub fn push(&mut self, packet: &Packet)
        requires drained { IsDrained self.old }
        ensures pid { self.new.pid ≡ pid_of packet.now }
        ensures stands { has_room self.old (pid_of packet.now) ≡ true
            → (packets given : ℕ → List (List ℕ)) → StandsFor self.old packets given
            → StandsFor self.new (with_next (pid_of packet.now) packet.now packets) given }
        ensures completed { has_room self.old (pid_of packet.now) ≡ true
            → (packets given : ℕ → List (List ℕ)) → StandsFor self.old packets given
            → self.new.waiting ≡ completed_by (packets (pid_of packet.now)) packet.now }
        ensures followed { has_room self.old (pid_of packet.now) ≡ true → (other : ℕ)
            → is_followed self.new other
            ≡ (is_followed self.old other || (pid_of packet.now == other)) }
        ensures full { has_room self.old (pid_of packet.now) ≡ false
            → self.new ≡ with_pid (pid_of packet.now) self.old }
        ensures among { (other : ℕ) → is_followed self.new other ≡ true
            → (is_followed self.old other || (pid_of packet.now == other)) ≡ true }
    {
        self.pid = packet.pid();
        let Some(place) = place_for(&mut self.channels, self.pid) else {
            return;
        };
        let channel = &mut self.channels[place];
        channel.assembler.push(packet);
    }

    /// The next section that ended in the packet pushed last, or `None` where there is no further
    /// one.
    pub fn next(&mut self) -> Option<&[u8]>
        ensures* after { sem 𝓛 (Rests the_row self.entry
            (λ new. NextSection self.old new (option_copied result))) }
    {
        let place = place_of(&self.channels, self.pid)?;
        let channel = &mut self.channels[place];
        channel.assembler.next()
    }

    /// Leaves the PIDs that aren't wanted any more. Those that stay wanted keep the sections that
    /// have begun.
    pub fn follow(&mut self, services: &Services)
        ensures stands { (packets given : ℕ → List (List ℕ)) → StandsFor self.old packets given
            → StandsFor self.new (of_wanted (wants services.now) packets)
            (of_wanted (wants services.now) given) }
        ensures waiting { self.new.waiting
            ≡ (if wants services.now self.old.pid then self.old.waiting else []) }
        ensures followed { (pid : ℕ)
            → is_followed self.new pid ≡ (is_followed self.old pid && wants services.now pid) }
        ensures pid { self.new.pid ≡ self.old.pid }
    {
        self.channels.retain(|channel| services.wants(channel.pid));
    }
}

impl Channel {
    /// A channel of that PID, on which no packet came.
    fn new(pid: u16) -> Channel
        ensures pid { result.pid ≡ pid }
        ensures stands { assembly.StandsFor result.assembler [] [] }
        ensures drained { assembly.IsDrained result.assembler }
    {
        Channel {
            pid,
            assembler: Assembler::new(),
        }
    }
}

/// The place of the channel on that PID, which is made where there is none. `None` where there are
/// too many.
fn place_for(channels: &mut Vec<Channel>, pid: u16) -> Option<usize>
    requires { CHANNEL_LIMIT ≤ vec_capacity channels.old }
    ensures room { is_some result ≡ can_have channels.old.items pid }
    ensures place { position (is_on pid) channels.new.items ≡ result }
    ensures followed { OnSome result ((other : ℕ)
        → has_channel channels.new.items other
        ≡ (has_channel channels.old.items other || (pid == other))) }
    ensures same { is_some result ≡ false → channels.new.items ≡ channels.old.items }
    ensures continues { (other : ℕ)
        → Continues (channel_on channels.old.items other) (channel_on channels.new.items other) }
    ensures distinct { AreDistinct channels.old.items → AreDistinct channels.new.items }
    ensures capacity { vec_capacity channels.new ≡ vec_capacity channels.old }
{
    if let Some(place) = place_of(channels, pid) {
        return Some(place);
    }
    if channels.len() >= CHANNEL_LIMIT {
        return None;
    }
    channels.push_reserved(Channel::new(pid));
    Some(channels.len() - 1)
}

/// The place of the channel on that PID, where there is one.
fn place_of(channels: &[Channel], pid: u16) -> Option<usize>
    ensures { result ≡ position (is_on pid) channels.now }
{
    channels.iter().position(|channel| channel.pid == pid)
}
