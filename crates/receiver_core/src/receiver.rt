//! The receiver: from what comes to it to what it prints.

ghost use Rattle.std.specs.Prelude.{◌≡◌, ◌≢◌, ◌⊎◌, ℕ, ◌+◌, ◌-◌, ◌^◌, ◌<◌, [], List, true, false};
ghost use Rattle.std.specs.Prelude.{IfOk, OnOk, Ok, is_err};
ghost use Rattle.std.specs.Io.{StartsWith};
ghost use Rattle.ts_packets.specs.Packet.{pid_of};
ghost use Rattle.psi_tables.specs.Service.{wants as wants_by};
ghost use Rattle.es_reader.specs.Readers.{Reader, IsReader};
ghost use Rattle.receiver_core.specs.Outputs.{sections_by};
ghost use Rattle.receiver_core.specs.Outputs.Input.{Packet as APacket};

use crate::broadcast::{Broadcast, Input};
use bml_bytes::{AreaBytes, NoMemory};
use psi_tables::{Selection, law_of_wanted_pids};
use section_demultiplexer::{Demultiplexer, law_of_room, law_of_same_lists};
use std::alloc::Global;
use std::marker::Model;
use ts_packets::Packet;
use ts_sections::is_intact;

/// Receives a service of a stream, with the modules of its data carousels, and its documents, which
/// act on keys and as time passes.
///
/// Hand in a packet by [`packet`](Receiver::packet), and then make the turns of the sections that
/// it completes by [`section_turn`](Receiver::section_turn), until that answers `false`. Let time
/// pass by [`clock_step`](Receiver::clock_step), until none is left. Once a call has answered
/// `NoMemory` the receiver is spent: each later one that can answer it does.
#[derive(Drop)]
pub struct Receiver {
    alloc: Global,
    demultiplexer: Demultiplexer,
    broadcast: Broadcast,
    spent: bool,
}

impl Model for Receiver {
    ghost use Rattle.page.specs.Standing.{page_area};
    ghost use Rattle.receiver_core.specs.Keeping.{AreWanted};
    ghost use Rattle.receiver_core.specs.Receiving.{ReceiverState};

    ghost Value = { ReceiverState };

    ghost view = { λ r. record {
      services = r.broadcast.services;
      pid = r.demultiplexer.pid;
      waiting = r.demultiplexer.waiting;
      clock = r.broadcast.page.clock;
      area = page_area r.broadcast.page;
      spent = r.spent;
      kept = record { demultiplexer = r.demultiplexer; broadcast = r.broadcast };
    } };

    ghost invariant = { λ r.
        AreWanted (record { demultiplexer = r.demultiplexer; broadcast = r.broadcast }) };
}

impl Receiver {
    ghost use Rattle.receiver_core.specs.Receiving.{Answers, ForState, IsDate, IsIdle, IsOver};
    ghost use Rattle.receiver_core.specs.Receiving.{IsSilent, MakesDueTurn, MakesTurn, MayCome};
    ghost use Rattle.receiver_core.specs.Receiving.{PassesDamaged, PassesTime, Spends, StandsFor};
    ghost use Rattle.receiver_core.specs.Receiving.{Stays, Takes, next_stop, sections_left};
    ghost use Rattle.receiver_core.specs.Outputs.Input.{Date as ADate, Random as ARandom};
    ghost use Rattle.receiver_core.specs.declared.broadcast.Input.TheVariants.{Key, Release, Show};

    /// A receiver of the service or the data that is asked for, with this persistent area, to which
    /// nothing came.
    pub fn new(alloc: Global, selection: Selection, area: AreaBytes) -> Result<Receiver, NoMemory>
        ensures stands { IfOk result (λ receiver. (read : Reader) → IsReader read
            → StandsFor read selection area receiver [] []) }
        ensures idle { IfOk result (λ receiver. IsIdle receiver) }
        ensures unspent { IfOk result (λ receiver. receiver.spent ≡ false) }
        ensures clock { IfOk result (λ receiver. receiver.clock ≡ 0) }
        ensures area { IfOk result (λ receiver. receiver.area ≡ area) }
    {
        Ok(Receiver {
            alloc,
            demultiplexer: Demultiplexer::new(alloc)?,
            broadcast: Broadcast::new(alloc, selection, area)?,
            spent: false,
        })
    }

    /// Whether packets of that PID are received. Others need not be handed in, where all turns are
    /// made.
    pub fn wants(&self, pid: u16) -> bool
        ensures exact { result ≡ wants_by self.now.services pid }
        ensures passes { result ≡ false → IsIdle self.now
            → (packet : List ℕ) → pid_of packet ≡ pid → Takes (APacket packet) self.now self.now }
    {
        law_of_same_lists();
        self.broadcast.services().wants(pid)
    }

    /// Hands in the next packet of the stream, of whatever PID. Takes no memory.
    pub fn packet(&mut self, packet: &Packet)
        requires idle { IsIdle self.old }
        ensures taken { Takes (APacket packet.now) self.old self.new }
        ensures sections { ForState self.old
            (λ now. self.new.waiting ≡ sections_by packet.now now) }
        ensures spent { self.new.spent ≡ self.old.spent }
        ensures clock { self.new.clock ≡ self.old.clock }
        ensures area { self.new.area ≡ self.old.area }
    {
        if self.wants(packet.pid()) {
            self.wanted_packet(packet);
        }
    }

    /// Hands in the next packet of the stream, of a PID that [`wants`](Receiver::wants) told to be
    /// received.
    pub fn wanted_packet(&mut self, packet: &Packet)
        requires idle { IsIdle self.old }
        requires wanted { wants_by self.old.services (pid_of packet.now) ≡ true }
        ensures taken { Takes (APacket packet.now) self.old self.new }
        ensures sections { ForState self.old
            (λ now. self.new.waiting ≡ sections_by packet.now now) }
        ensures spent { self.new.spent ≡ self.old.spent }
        ensures clock { self.new.clock ≡ self.old.clock }
        ensures area { self.new.area ≡ self.old.area }
    {
        law_of_wanted_pids();
        law_of_room();
        law_of_same_lists();
        if !self.spent {
            self.demultiplexer.push(packet);
        }
    }

    /// Makes the turn of the next section that the packet completed, and appends what it prints.
    /// `false` where no further one is whole; a damaged section answers `true` and does nothing.
    pub fn section_turn(&mut self, out: &mut Vec<u8>) -> Result<bool, NoMemory>
        ensures over { result ≡ Ok false → IsOver self.old self.new out.old.items out.new.items }
        ensures handled { result ≡ Ok true
            → PassesDamaged self.old self.new out.old.items out.new.items
            ⊎ MakesTurn self.old self.new out.old.items out.new.items }
        ensures fewer { result ≡ Ok true → sections_left self.new < sections_left self.old }
        ensures idle { result ≡ Ok false → IsIdle self.new }
        ensures begins { StartsWith out.new.items out.old.items }
        ensures clock { OnOk result (self.new.clock ≡ self.old.clock) }
        ensures spends { Spends (is_err result) self.old self.new }
    {
        law_of_same_lists();
        if self.spent {
            return Err(NoMemory);
        }
        let pid = self.demultiplexer.pid();
        let Some(section) = self.demultiplexer.next() else {
            return Ok(false);
        };
        if !is_intact(section) {
            return Ok(true);
        }
        let turned = self.broadcast.turn(pid, section, out);
        self.demultiplexer.follow(self.broadcast.services());
        match turned {
            Ok(()) => Ok(true),
            Err(error) => {
                self.spent = true;
                Err(error)
            }
        }
    }

    /// Takes an input that is handed in whole, and appends what it prints, which is one piece at
    /// most. All but the wish to see the display ask that no turn is still to come.
    pub fn input(&mut self, input: Input, out: &mut Vec<u8>) -> Result<(), NoMemory>
        requires idle { input ≢ Show → IsIdle self.old }
        requires may_come { MayCome input }
        ensures answers { OnOk result
            (Answers input self.old self.new out.old.items out.new.items) }
        ensures stays { OnOk result (input ≡ Show → Stays self.old self.new) }
        ensures waiting { self.new.waiting ≡ self.old.waiting }
        ensures idle { IsIdle self.old → IsIdle self.new }
        ensures clock { self.new.clock ≡ self.old.clock }
        ensures silent { IsSilent input → out.new ≡ out.old }
        ensures begins { StartsWith out.new.items out.old.items }
        ensures spends { Spends (is_err result) self.old self.new }
    {
        if self.spent {
            return Err(NoMemory);
        }
        match self.broadcast.input(input, out) {
            Ok(()) => Ok(()),
            Err(error) => {
                self.spent = true;
                Err(error)
            }
        }
    }

    /// Makes the turn of a key that is pressed, by its number, and appends what it prints: what the
    /// key posts, where the document's body lets it pass, and the dispatches.
    pub fn key(&mut self, code: u8, out: &mut Vec<u8>) -> Result<(), NoMemory>
        requires idle { IsIdle self.old }
        ensures answers { OnOk result
            (Answers (Key code) self.old self.new out.old.items out.new.items) }
        ensures idle { IsIdle self.new }
        ensures clock { OnOk result (self.new.clock ≡ self.old.clock) }
        ensures begins { StartsWith out.new.items out.old.items }
        ensures spends { Spends (is_err result) self.old self.new }
    {
        self.input(Input::Key(code), out)
    }

    /// Makes the turn of a key that is released, by its number, and appends what it prints.
    pub fn release(&mut self, code: u8, out: &mut Vec<u8>) -> Result<(), NoMemory>
        requires idle { IsIdle self.old }
        ensures answers { OnOk result
            (Answers (Release code) self.old self.new out.old.items out.new.items) }
        ensures idle { IsIdle self.new }
        ensures clock { OnOk result (self.new.clock ≡ self.old.clock) }
        ensures begins { StartsWith out.new.items out.old.items }
        ensures spends { Spends (is_err result) self.old self.new }
    {
        self.input(Input::Release(code), out)
    }

    /// Lets time pass, for so many milliseconds at most: it stops at the first moment on the way
    /// when timers are due, whose turn it makes, and else at the end. What the turn prints is
    /// appended. Answers the milliseconds that are left; where some are, it is to be called again.
    pub fn clock_step(&mut self, left: u32, out: &mut Vec<u8>) -> Result<u32, NoMemory>
        requires idle { IsIdle self.old }
        requires some { 0 < left }
        requires within { self.old.clock + left < 2 ^ 62 }
        ensures steps { IfOk result (λ rest.
            ((rest ≡ 0) × PassesTime left self.old self.new out.old.items out.new.items)
            ⊎ MakesDueTurn (left - rest) self.old self.new out.old.items out.new.items) }
        ensures moment { IfOk result (λ rest. ForState self.old
            (λ now. self.new.clock ≡ next_stop left now)) }
        ensures clock { IfOk result
            (λ rest. self.new.clock + rest ≡ self.old.clock + left) }
        ensures fewer { IfOk result (λ rest. rest < left) }
        ensures idle { IsIdle self.new }
        ensures begins { StartsWith out.new.items out.old.items }
        ensures spends { Spends (is_err result) self.old self.new }
    {
        if self.spent {
            return Err(NoMemory);
        }
        match self.broadcast.pass_time(left, out) {
            Ok(rest) => Ok(rest),
            Err(error) => {
                self.spent = true;
                Err(error)
            }
        }
    }

    /// Takes a random word, which waits behind those that are left.
    pub fn random(&mut self, word: u32) -> Result<(), NoMemory>
        requires idle { IsIdle self.old }
        ensures taken { OnOk result (Takes (ARandom word) self.old self.new) }
        ensures idle { IsIdle self.new }
        ensures clock { OnOk result (self.new.clock ≡ self.old.clock) }
        ensures spends { Spends (is_err result) self.old self.new }
    {
        let mut silence = Vec::new(self.alloc);
        self.input(Input::Random(word), &mut silence)
    }

    /// It is now this second, 0 to 86,399, of this day, 0 to 157,053, which is counted from 1970-01-01.
    /// This prints nothing, makes no turn and takes no memory.
    pub fn date(&mut self, day: i32, second: u32)
        requires idle { IsIdle self.old }
        requires date { IsDate day second }
        ensures taken { Takes (ADate day second) self.old self.new }
        ensures idle { IsIdle self.new }
        ensures spent { self.new.spent ≡ self.old.spent }
        ensures clock { self.new.clock ≡ self.old.clock }
        ensures area { self.new.area ≡ self.old.area }
    {
        self.broadcast.set_date(day, second);
    }

    /// Appends the display list: `show` with the time, and the boxes, texts and pictures of the
    /// document, where there is one, and its focus. All else stays, also while turns are still to
    /// come.
    pub fn show(&mut self, out: &mut Vec<u8>) -> Result<(), NoMemory>
        ensures answers { OnOk result
            (Answers Show self.old self.new out.old.items out.new.items) }
        ensures stays { OnOk result (Stays self.old self.new) }
        ensures waiting { self.new.waiting ≡ self.old.waiting }
        ensures idle { IsIdle self.old → IsIdle self.new }
        ensures clock { OnOk result (self.new.clock ≡ self.old.clock) }
        ensures begins { StartsWith out.new.items out.old.items }
        ensures spends { Spends (is_err result) self.old self.new }
    {
        self.input(Input::Show, out)
    }

    /// The persistent area.
    pub fn area(&self) -> &AreaBytes
        ensures { result.now ≡ self.now.area }
    {
        self.broadcast.area()
    }
}
