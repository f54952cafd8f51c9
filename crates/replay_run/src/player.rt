//! Handles the items of a record over the packets of a stream.

ghost use Rattle.std.specs.Prelude.{◌≡◌, ◌+◌, ◌*◌, ◌^◌, ◌<◌, ◌≤◌, length, false, IsTrue};
ghost use Rattle.std.specs.Prelude.{OnOk, OnErr, IfOk, IfErr, Option, option_map};
ghost use Rattle.bml_ports.specs.Counters.{FaultedSince};
ghost use Rattle.bml_ports.specs.Keepers.{KeeperState};
ghost use Rattle.bml_ports.specs.Sinks.{SinkState};
ghost use Rattle.bml_ports.specs.Worlds.{WorldState};
ghost use Rattle.ts_packets.specs.Cutter.{IsCertainAt};
ghost use Rattle.replay_run.specs.Files.{packet_length, read_length, stream_limit};
ghost use Rattle.replay_run.specs.Play.{MayBeHandled, milliseconds_of};

use crate::output::write_piece;
use crate::record::RecordItem;
use crate::standing_areas::law_of_standing_areas;
use crate::status::Status;
use bml_bytes::{AreaBytes, NoMemory};
use bml_ports::{Keeper, Port, Sink, World};
use psi_tables::Selection;
use receiver_core::{Input, Receiver, law_of_passing_time};
use std::alloc::Global;
use ts_packets::{Ahead, Cutter};

/// The most bytes that a stream may give.
const STREAM_LIMIT: u64 = 1 << 36;

/// The bytes that one read of the stream asks for: with the packet that a cutter holds at most when
/// it waits, they fit the cutter.
const READ_LENGTH: usize = 3904;

/// What a replay keeps from item to item.
#[derive(Drop)]
pub struct Player {
    cutter: Cutter,
    receiver: Receiver,
    /// The text of the turn that is being made.
    piece: Vec<u8>,
    /// The area that was loaded or stored last.
    kept: AreaBytes,
    /// The bytes that the stream gave.
    bytes: u64,
    /// The packets that were taken.
    packets: u64,
    ghost cut: { packet_length * packets + length cutter.held ≤ bytes },
    ghost limited: { bytes ≤ stream_limit + read_length },
}

impl Player {
    ghost use Rattle.replay_run.specs.Midway.{moment, item_of_count, Goes, Stops, Handles};
    ghost use Rattle.replay_run.specs.Midway.{KeepsArea, StopsHandling, IsReadable, StartsPlayer};
    ghost use Rattle.replay_run.specs.Ending.{end_told};
    ghost use Rattle.replay_run.specs.Midway.{StopsInRead, StopsInStream, TakesJust, loosely};
    ghost use Rattle.replay_run.specs.Midway.{WasReadForPacket, work_left};
    ghost use Rattle.replay_run.specs.Outside.{outside};
    ghost use Rattle.receiver_core.specs.Outputs.{Piece};
    ghost use Rattle.receiver_core.specs.Receiving.{IsIdle, MayCome};
    ghost use Rattle.replay_run.specs.Putting.{FailsToKeep, IsLater, KeepsOn, PutsPiece, change};
    ghost use Rattle.replay_run.specs.Putting.{StopsPiece, StopsTurns, outlets};
    ghost use Rattle.replay_run.specs.Stopping.{IsOneRead, OnlyReads, StopsPackets, StopsReading};

    /// A replay at the start of its stream, with an area that was loaded.
    pub fn new(alloc: Global, selection: Selection, area: AreaBytes) -> Result<Player, NoMemory>
        ensures kept { IfOk result (λ player. player.kept ≡ area) }
        ensures starts { IfOk result (λ player. StartsPlayer selection player) }
    {
        Ok(Player {
            cutter: Cutter::new(),
            kept: AreaBytes { bytes: area.bytes },
            receiver: Receiver::new(alloc, selection, area)?,
            piece: Vec::new(alloc),
            bytes: 0,
            packets: 0,
        })
    }

    /// The packets that were taken.
    pub fn packets(&self) -> u64
        ensures { result ≡ self.now.packets }
    {
        self.packets
    }

    /// Handles an item: takes the packets that it asks for, lets time pass, or hands the one other
    /// input on. After each of their turns it stores the area where it changed, and then writes
    /// what the turn prints; and it writes the display list.
    pub fn handle<W: World, K: Keeper, S: Sink>(
        &mut self,
        item: RecordItem,
        world: &mut W,
        keeper: &mut K,
        out: &mut S,
    ) -> Result<(), Status>
        requires idle { IsIdle self.old.receiver }
        requires area { KeepsArea self.old }
        requires within { self.old.bytes ≤ stream_limit }
        requires readable { IsReadable self.old.cutter (W.told world.old) }
        requires told { end_told (W.told world.old).stream ≡ self.old.cutter.ended }
        requires clock { self.old.receiver.clock + milliseconds_of item < 2 ^ 62 }
        requires may_be { MayBeHandled item }

        ensures within { OnOk result (self.new.bytes ≤ stream_limit) }
        ensures idle { OnOk result (IsIdle self.new.receiver) }
        ensures area { OnOk result (KeepsArea self.new) }
        ensures clock { OnOk result
            (self.new.receiver.clock ≡ self.old.receiver.clock + milliseconds_of item) }
        ensures readable { OnOk result (IsReadable self.new.cutter (W.told world.new)) }
        ensures told { OnOk result
            (end_told (W.told world.new).stream ≡ self.new.cutter.ended) }
        ensures reads { OnlyReads Port.Stream (W.told world.old) (W.told world.new) }
        ensures later { IsLater
            (outlets (K.told keeper.old) (S.told out.old))
            (outlets (K.told keeper.new) (S.told out.new)) }
        ensures cause { IfErr result (λ status. StopsPackets status
            (outside (W.told world.old) (K.told keeper.old) (S.told out.old))
            (outside (W.told world.new) (K.told keeper.new) (S.told out.new))
            self.new.bytes) }

        ensures handled { OnOk result (Handles item
            (moment self.old (outside (W.told world.old) (K.told keeper.old) (S.told out.old)))
            (moment self.new (outside (W.told world.new) (K.told keeper.new) (S.told out.new)))) }
        ensures stopped { IfErr result (λ status. StopsHandling item status
            (moment self.old (outside (W.told world.old) (K.told keeper.old) (S.told out.old)))
            (outside (W.told world.new) (K.told keeper.new) (S.told out.new))) }

        ensures was_open { OnOk result
            (self.new.cutter.ended ≡ false → self.old.cutter.ended ≡ false) }
        ensures takes { OnOk result (self.new.cutter.ended ≡ false
            → TakesJust item self.old.packets self.new.packets) }
        ensures reading { IfErr result (λ status. StopsInStream status item
            (moment self.old (outside (W.told world.old) (K.told keeper.old) (S.told out.old)))
            (outside (W.told world.new) (K.told keeper.new) (S.told out.new))) }
        ensures last_read { WasReadForPacket item
            (moment self.old (outside (W.told world.old) (K.told keeper.old) (S.told out.old)))
            (outside (W.told world.old) (K.told keeper.old) (S.told out.old))
            (outside (W.told world.new) (K.told keeper.new) (S.told out.new)) }
    {
        match item {
            RecordItem::All => self.take(None, world, keeper, out),
            RecordItem::Packets(count) => self.take(Some(count), world, keeper, out),
            RecordItem::Tick(count) => self.pass_time(count, keeper, out),
            RecordItem::Input(input) => self.play_input(input, keeper, out),
        }
    }

    // Takes the packets that are left, or no more than so many, and puts out the pieces of their
    // turns.
    fn take<W: World, K: Keeper, S: Sink>(
        &mut self,
        most: Option<u32>,
        world: &mut W,
        keeper: &mut K,
        out: &mut S,
    ) -> Result<(), Status>
        requires idle { IsIdle self.old.receiver }
        requires area { KeepsArea self.old }
        requires within { self.old.bytes ≤ stream_limit }
        requires readable { IsReadable self.old.cutter (W.told world.old) }
        requires told { end_told (W.told world.old).stream ≡ self.old.cutter.ended }

        ensures within { OnOk result (self.new.bytes ≤ stream_limit) }
        ensures idle { OnOk result (IsIdle self.new.receiver) }
        ensures area { OnOk result (KeepsArea self.new) }
        ensures clock { OnOk result (self.new.receiver.clock ≡ self.old.receiver.clock) }
        ensures readable { OnOk result (IsReadable self.new.cutter (W.told world.new)) }
        ensures told { OnOk result
            (end_told (W.told world.new).stream ≡ self.new.cutter.ended) }
        ensures reads { OnlyReads Port.Stream (W.told world.old) (W.told world.new) }
        ensures later { IsLater
            (outlets (K.told keeper.old) (S.told out.old))
            (outlets (K.told keeper.new) (S.told out.new)) }
        ensures cause { IfErr result (λ status. StopsPackets status
            (outside (W.told world.old) (K.told keeper.old) (S.told out.old))
            (outside (W.told world.new) (K.told keeper.new) (S.told out.new))
            self.new.bytes) }

        ensures handled { OnOk result (Handles (item_of_count most)
            (moment self.old (outside (W.told world.old) (K.told keeper.old) (S.told out.old)))
            (moment self.new (outside (W.told world.new) (K.told keeper.new) (S.told out.new)))) }
        ensures stopped { IfErr result (λ status. StopsHandling (item_of_count most) status
            (moment self.old (outside (W.told world.old) (K.told keeper.old) (S.told out.old)))
            (outside (W.told world.new) (K.told keeper.new) (S.told out.new))) }

        ensures was_open { OnOk result
            (self.new.cutter.ended ≡ false → self.old.cutter.ended ≡ false) }
        ensures takes { OnOk result (self.new.cutter.ended ≡ false
            → TakesJust (item_of_count most) self.old.packets self.new.packets) }
        ensures reading { IfErr result (λ status. StopsInStream status (item_of_count most)
            (moment self.old (outside (W.told world.old) (K.told keeper.old) (S.told out.old)))
            (outside (W.told world.new) (K.told keeper.new) (S.told out.new))) }
        ensures last_read { WasReadForPacket (item_of_count most)
            (moment self.old (outside (W.told world.old) (K.told keeper.old) (S.told out.old)))
            (outside (W.told world.old) (K.told keeper.old) (S.told out.old))
            (outside (W.told world.new) (K.told keeper.new) (S.told out.new)) }
    {
        let last = self.last_packet(most);
        'packets: while last != Some(self.packets) {
            match self.cutter.seek() {
                Ahead::Packet => self.next_packet(keeper, out)?,
                Ahead::NeedMore => self.read_stream(world)?,
                Ahead::End => return Ok(()),
            }
        }
        Ok(())
    }

    // The number of the last packet to take, counted from 1 at the start of the run, if there is a
    // bound.
    fn last_packet(&self, most: Option<u32>) -> Option<u64>
        ensures { result ≡ option_map (λ count. self.now.packets + count) most }
    {
        most.map(|count| self.packets + u64::from(count))
    }

    // Lets so many milliseconds pass, and puts out the piece of each turn that is due on the way.
    fn pass_time<K: Keeper, S: Sink>(
        &mut self,
        count: u32,
        keeper: &mut K,
        out: &mut S,
    ) -> Result<(), Status>
        requires idle { IsIdle self.old.receiver }
        requires area { KeepsArea self.old }
        requires within { self.old.bytes ≤ stream_limit }
        requires clock { self.old.receiver.clock + count < 2 ^ 62 }

        ensures idle { OnOk result (IsIdle self.new.receiver) }
        ensures area { OnOk result (KeepsArea self.new) }
        ensures bytes { self.new.bytes ≡ self.old.bytes }
        ensures packets { self.new.packets ≡ self.old.packets }
        ensures cutter { self.new.cutter ≡ self.old.cutter }
        ensures clock { OnOk result
            (self.new.receiver.clock ≡ self.old.receiver.clock + count) }
        ensures later { IsLater
            (outlets (K.told keeper.old) (S.told out.old))
            (outlets (K.told keeper.new) (S.told out.new)) }
        ensures cause { IfErr result (λ status. StopsTurns status
            (outlets (K.told keeper.old) (S.told out.old))
            (outlets (K.told keeper.new) (S.told out.new))) }
        ensures handled { OnOk result ((world : WorldState) → Handles (RecordItem.Tick count)
            (moment self.old (outside world (K.told keeper.old) (S.told out.old)))
            (moment self.new (outside world (K.told keeper.new) (S.told out.new)))) }
        ensures stopped { IfErr result
            (λ status. (world : WorldState) → StopsHandling (RecordItem.Tick count) status
            (moment self.old (outside world (K.told keeper.old) (S.told out.old)))
            (outside world (K.told keeper.new) (S.told out.new))) }
    {
        law_of_standing_areas();
        law_of_passing_time();
        let mut left = count;
        'steps: while left > 0 {
            self.piece.clear();
            left = self.receiver.clock_step(left, &mut self.piece)?;
            self.put_piece(keeper, out)?;
        }
        Ok(())
    }

    // Hands in an input that is neither a packet nor time, and puts out its piece. All turns were
    // made before.
    fn play_input<K: Keeper, S: Sink>(
        &mut self,
        input: Input,
        keeper: &mut K,
        out: &mut S,
    ) -> Result<(), Status>
        requires may_come { MayCome input }
        requires idle { IsIdle self.old.receiver }
        requires area { KeepsArea self.old }
        requires within { self.old.bytes ≤ stream_limit }

        ensures idle { OnOk result (IsIdle self.new.receiver) }
        ensures area { OnOk result (KeepsArea self.new) }
        ensures bytes { self.new.bytes ≡ self.old.bytes }
        ensures packets { self.new.packets ≡ self.old.packets }
        ensures cutter { self.new.cutter ≡ self.old.cutter }
        ensures clock { OnOk result (self.new.receiver.clock ≡ self.old.receiver.clock) }
        ensures later { IsLater
            (outlets (K.told keeper.old) (S.told out.old))
            (outlets (K.told keeper.new) (S.told out.new)) }
        ensures cause { IfErr result (λ status. StopsTurns status
            (outlets (K.told keeper.old) (S.told out.old))
            (outlets (K.told keeper.new) (S.told out.new))) }
        ensures handled { OnOk result ((world : WorldState) → Handles (RecordItem.Input input)
            (moment self.old (outside world (K.told keeper.old) (S.told out.old)))
            (moment self.new (outside world (K.told keeper.new) (S.told out.new)))) }
        ensures stopped { IfErr result
            (λ status. (world : WorldState) → StopsHandling (RecordItem.Input input) status
            (moment self.old (outside world (K.told keeper.old) (S.told out.old)))
            (outside world (K.told keeper.new) (S.told out.new))) }
    {
        law_of_standing_areas();
        self.piece.clear();
        self.receiver.input(input, &mut self.piece)?;
        self.put_piece(keeper, out)
    }

    // Takes the packet at the front.
    fn next_packet<K: Keeper, S: Sink>(&mut self, keeper: &mut K, out: &mut S) -> Result<(), Status>
        requires idle { IsIdle self.old.receiver }
        requires area { KeepsArea self.old }
        requires front { IsCertainAt self.old.cutter 0 }
        requires within { self.old.bytes ≤ stream_limit }

        ensures idle { OnOk result (IsIdle self.new.receiver) }
        ensures area { OnOk result (KeepsArea self.new) }
        ensures clock { OnOk result (self.new.receiver.clock ≡ self.old.receiver.clock) }
        ensures bytes { self.new.bytes ≡ self.old.bytes }
        ensures packets { self.new.packets ≡ self.old.packets + 1 }
        ensures shorter { length self.new.cutter.held < length self.old.cutter.held }
        ensures ended { self.new.cutter.ended ≡ self.old.cutter.ended }
        ensures later { IsLater
            (outlets (K.told keeper.old) (S.told out.old))
            (outlets (K.told keeper.new) (S.told out.new)) }
        ensures cause { IfErr result (λ status. StopsTurns status
            (outlets (K.told keeper.old) (S.told out.old))
            (outlets (K.told keeper.new) (S.told out.new))) }
        ensures handled { OnOk result ((world : WorldState) → Handles (RecordItem.Packets 1)
            (loosely (moment self.old (outside world (K.told keeper.old) (S.told out.old))))
            (moment self.new (outside world (K.told keeper.new) (S.told out.new)))) }
        ensures stopped { IfErr result
            (λ status. (world : WorldState) → StopsHandling (RecordItem.Packets 1) status
            (loosely (moment self.old (outside world (K.told keeper.old) (S.told out.old))))
            (outside world (K.told keeper.new) (S.told out.new))) }
    {
        self.packets += 1;
        if !self.receiver.wants(self.cutter.front_pid()) {
            self.cutter.skip_packet();
            return Ok(());
        }
        let packet = self.cutter.take_packet();
        self.receiver.wanted_packet(&packet);
        self.turns(keeper, out)
    }

    // Makes the turns that are due, and puts out the piece of each.
    fn turns<K: Keeper, S: Sink>(&mut self, keeper: &mut K, out: &mut S) -> Result<(), Status>
        requires area { KeepsArea self.old }
        requires within { self.old.bytes ≤ stream_limit }
        ensures idle { OnOk result (IsIdle self.new.receiver) }
        ensures area { OnOk result (KeepsArea self.new) }
        ensures clock { OnOk result (self.new.receiver.clock ≡ self.old.receiver.clock) }
        ensures bytes { self.new.bytes ≡ self.old.bytes }
        ensures packets { self.new.packets ≡ self.old.packets }
        ensures cutter { self.new.cutter ≡ self.old.cutter }
        ensures later { IsLater
            (outlets (K.told keeper.old) (S.told out.old))
            (outlets (K.told keeper.new) (S.told out.new)) }
        ensures cause { IfErr result (λ status. StopsTurns status
            (outlets (K.told keeper.old) (S.told out.old))
            (outlets (K.told keeper.new) (S.told out.new))) }
        ensures goes { OnOk result ((world : WorldState) → Goes
            (moment self.old (outside world (K.told keeper.old) (S.told out.old)))
            (moment self.new (outside world (K.told keeper.new) (S.told out.new)))) }
        ensures stops { IfErr result (λ status. (world : WorldState) → Stops status
            (moment self.old (outside world (K.told keeper.old) (S.told out.old)))
            (outside world (K.told keeper.new) (S.told out.new))) }
    {
        law_of_standing_areas();
        'turns: loop {
            self.piece.clear();
            match self.receiver.section_turn(&mut self.piece)? {
                true => self.put_piece(keeper, out)?,
                false => return Ok(()),
            }
        }
    }

    // Puts out the piece of a turn: stores the area where it changed, and then writes the text.
    fn put_piece<K: Keeper, S: Sink>(&mut self, keeper: &mut K, out: &mut S) -> Result<(), Status>
        ensures receiver { self.new.receiver ≡ self.old.receiver }
        ensures bytes { self.new.bytes ≡ self.old.bytes }
        ensures packets { self.new.packets ≡ self.old.packets }
        ensures cutter { self.new.cutter ≡ self.old.cutter }
        ensures area { OnOk result (KeepsArea self.new) }
        ensures later { IsLater
            (outlets (K.told keeper.old) (S.told out.old))
            (outlets (K.told keeper.new) (S.told out.new)) }
        ensures cause { IfErr result (λ status. StopsTurns status
            (outlets (K.told keeper.old) (S.told out.old))
            (outlets (K.told keeper.new) (S.told out.new))) }
        ensures puts { OnOk result (PutsPiece self.old.kept
            (record { text = self.old.piece.items; area = self.old.receiver.area })
            (outlets (K.told keeper.old) (S.told out.old))
            (outlets (K.told keeper.new) (S.told out.new))) }
        ensures stops { IfErr result (λ status. StopsPiece status self.old.kept
            (record { text = self.old.piece.items; area = self.old.receiver.area })
            (outlets (K.told keeper.old) (S.told out.old))
            (outlets (K.told keeper.new) (S.told out.new))) }
    {
        self.keep_area(keeper)?;
        write_piece(out, &self.piece)
    }

    // Stores the receiver's area, where its bytes aren't those that were loaded or stored last.
    fn keep_area<K: Keeper>(&mut self, keeper: &mut K) -> Result<(), Status>
        ensures receiver { self.new.receiver ≡ self.old.receiver }
        ensures piece { self.new.piece ≡ self.old.piece }
        ensures bytes { self.new.bytes ≡ self.old.bytes }
        ensures packets { self.new.packets ≡ self.old.packets }
        ensures cutter { self.new.cutter ≡ self.old.cutter }
        ensures area { OnOk result (KeepsArea self.new) }
        ensures faults { (K.told keeper.old).faults.faults ≤ (K.told keeper.new).faults.faults }
        ensures fault { IfErr result (λ status. status ≡ Status.KeepFault) }
        ensures cause { OnErr result
            (FaultedSince (K.told keeper.old).faults (K.told keeper.new).faults) }
        ensures keeps { OnOk result (KeepsOn (K.told keeper.old) (K.told keeper.new)
            (change self.old.kept self.old.receiver.area)) }
        ensures fails { OnErr result (FailsToKeep (K.told keeper.old) (K.told keeper.new)
            self.old.kept self.old.receiver.area) }
    {
        let area = self.receiver.area();
        if area.bytes() == self.kept.bytes() {
            return Ok(());
        }
        self.kept = AreaBytes { bytes: area.bytes };
        match keeper.store(&self.kept) {
            Ok(()) => Ok(()),
            Err(_) => Err(Status::KeepFault),
        }
    }

    // Reads a piece of the stream, or comes to its end.
    fn read_stream<W: World>(&mut self, world: &mut W) -> Result<(), Status>
        requires open_end { self.old.cutter.ended ≡ false }
        requires waiting { length self.old.cutter.held ≤ packet_length }
        requires within { self.old.bytes ≤ stream_limit }
        requires readable { IsTrue (W.told world.old).stream.readable }

        ensures receiver { self.new.receiver ≡ self.old.receiver }
        ensures kept { self.new.kept ≡ self.old.kept }
        ensures packets { self.new.packets ≡ self.old.packets }
        ensures within { OnOk result (self.new.bytes ≤ stream_limit) }
        ensures readable { OnOk result (IsReadable self.new.cutter (W.told world.new)) }
        ensures told { OnOk result
            (end_told (W.told world.new).stream ≡ self.new.cutter.ended) }
        ensures reads { OnlyReads Port.Stream (W.told world.old) (W.told world.new) }
        ensures cause { IfErr result (λ status. StopsReading status
            (W.told world.old).stream.reads (W.told world.new).stream.reads self.new.bytes) }
        ensures gave { IsOneRead (W.told world.old).stream (W.told world.new).stream }
        ensures last { IfErr result (λ status. StopsInRead status stream_limit
            self.old.bytes (W.told world.old).stream (W.told world.new).stream) }
        ensures ahead { OnOk result
            (work_left self.new.cutter self.new.bytes < work_left self.old.cutter self.old.bytes) }
        ensures goes { OnOk result ((keeper : KeeperState) (sink : SinkState) → Goes
            (loosely (moment self.old (outside (W.told world.old) keeper sink)))
            (loosely (moment self.new (outside (W.told world.new) keeper sink)))) }
        ensures stops { IfErr result
            (λ status. (keeper : KeeperState) (sink : SinkState) → Stops status
            (loosely (moment self.old (outside (W.told world.old) keeper sink)))
            (outside (W.told world.new) keeper sink)) }
    {
        let mut buffer = [0; READ_LENGTH];
        match world.read_port(Port::Stream, &mut buffer) {
            Err(_) => Err(Status::ReadFault),
            Ok(0) => {
                self.cutter.finish();
                Ok(())
            }
            Ok(count) => {
                self.bytes += count as u64;
                if self.bytes > STREAM_LIMIT {
                    return Err(Status::TooLong);
                }
                self.cutter.feed(&buffer[..count]);
                Ok(())
            }
        }
    }
}
