//! A replay of a record over a stream.

ghost use Rattle.std.specs.Prelude.{◌≡◌, ◌≢◌, ℕ, ◌≤◌, List, OnOk, IfOk, IfErr, IsErr, IsTrue};
ghost use Rattle.std.specs.Prelude.{Some, None, [], true, false};
ghost use Rattle.bml_ports.specs.Counters.{counted};
ghost use Rattle.bml_ports.specs.Worlds.{WorldState, port_of};
ghost use Rattle.es_reader.specs.Readers.{Reader, IsReader};
ghost use Rattle.replay_run.specs.Causes.{IsCaused};
ghost use Rattle.replay_run.specs.CommandSeen.{replay_seen};
ghost use Rattle.replay_run.specs.Headline.{ReplayMeansBy};
ghost use Rattle.replay_run.specs.Kept.{Keeps, area_of_kept};
ghost use Rattle.replay_run.specs.Kept.{is_area_length as is_area_length_of};
ghost use Rattle.replay_run.specs.Lines.{end_line};
ghost use Rattle.replay_run.specs.Midway.{StartsPlayer};
ghost use Rattle.replay_run.specs.Opening.{AsksAtMost, IsUnasked, LacksFile, LeavesRest};
ghost use Rattle.replay_run.specs.Opening.{StopsAtOpening, bytes_under};
ghost use Rattle.replay_run.specs.Order.{IsOpening, OnlyReadsBoth, OpensInOrder, ReadsNoneAtBadArea};
ghost use Rattle.replay_run.specs.Outside.{outside};
ghost use Rattle.replay_run.specs.Reasons.{AreAnArea, ReplayHasItsReason};
ghost use Rattle.replay_run.specs.RecordProgress.{StartsItems};
ghost use Rattle.replay_run.specs.Replaying.{LacksName, OnlyOpens, PlayEnds, PlayTells};
ghost use Rattle.replay_run.specs.Replaying.{ReplayEnds, ReplayHasReason, StopsLine, StopsLoading};
ghost use Rattle.replay_run.specs.Replaying.{StopsOpening, StopsPlay, StopsReplay};
ghost use Rattle.replay_run.specs.Replaying.{StopsWriting};
ghost use Rattle.replay_run.specs.Status.{outcome_of};
ghost use Rattle.replay_run.specs.Writing.{Grows, WritesOn};

use crate::lines::push_end_line;
use crate::output::write_piece;
use crate::player::Player;
use crate::record_items::RecordItems;
use crate::status::Status;
use crate::words::Replay;
use bml_bytes::{AREA_LENGTH, AreaBytes};
use bml_ports::{Keeper, Port, Sink, Text, World};
use psi_tables::Selection;
use receiver_core::{law_of_outputs, law_of_receivers, law_of_ticks};
use std::alloc::Global;
use ts_packets::{packets_are_computed, packets_are_unique};

// How many bytes an area of earlier versions has.
const EARLIER_AREA_LENGTH: u64 = 1024;

/// Opens a file at a port.
pub fn open<W: World>(world: &mut W, port: Port, name: &Text) -> Result<(), Status>
    requires unasked { (port_of (W.told world.old) port).asked ≡ None }
    ensures opens { OnlyOpens port name.now (W.told world.old) (W.told world.new) }
    ensures asked { OnOk result ((port_of (W.told world.new) port).asked ≡ Some name.now) }
    ensures cause { IfErr result
        (λ status. StopsOpening status port (W.told world.old) (W.told world.new)) }
    ensures opened { OnOk result
        (IsOpening port name.now true (W.told world.old) (W.told world.new)) }
    ensures failed { IfErr result (λ status. status ≡ Status.OpenFault
        → IsOpening port name.now false (W.told world.old) (W.told world.new)) }
    ensures readable { OnOk result (IsTrue (port_of (W.told world.new) port).readable) }
    ensures bytes { OnOk result ((bytes : List ℕ)
        → bytes_under (W.told world.old) name.now ≡ Some bytes
        → (port_of (W.told world.new) port).left ≡ Some bytes) }
    ensures lacking { LacksName (W.told world.old) name.now → IsErr result }
{
    let name = name.share()?;
    match world.open_port(port, name) {
        Ok(()) => Ok(()),
        Err(_) => Err(Status::OpenFault),
    }
}

/// Replays the record over the stream, both open and unread, with the area that is kept, and writes
/// the last line.
pub fn play_record<W: World, K: Keeper, S: Sink>(
    alloc: Global,
    selection: Selection,
    world: &mut W,
    keeper: &mut K,
    out: &mut S,
) -> Result<(), Status>
    requires stream { IsTrue (W.told world.old).stream.readable }
    requires notes { IsTrue (W.told world.old).notes.readable }
    ensures reads { OnlyReadsBoth (W.told world.old) (W.told world.new) }
    ensures unread { ReadsNoneAtBadArea (outcome_of result)
        (W.told world.old) (W.told world.new) }
    ensures cause { IfErr result (λ status. StopsReplay status
        (outside (W.told world.old) (K.told keeper.old) (S.told out.old))
        (outside (W.told world.new) (K.told keeper.new) (S.told out.new))) }
    ensures ends { ReplayEnds selection
        (outside (W.told world.old) (K.told keeper.old) (S.told out.old))
        (outside (W.told world.new) (K.told keeper.new) (S.told out.new)) (outcome_of result) }
    ensures reason { ReplayHasReason
        (outside (W.told world.old) (K.told keeper.old) (S.told out.old))
        (outside (W.told world.new) (K.told keeper.new) (S.told out.new)) (outcome_of result) }
{
    let area = load_area(keeper)?;
    play_from(alloc, selection, area, world, keeper, out)
}

// The area that is kept; behind what is kept, all of its bytes are 0.
fn load_area<K: Keeper>(keeper: &mut K) -> Result<AreaBytes, Status>
    ensures loaded { IfOk result (λ area. (kept : List ℕ) → (K.told keeper.old).kept ≡ Some kept
        → area ≡ area_of_kept kept) }
    ensures size { OnOk result ((kept : List ℕ) → (K.told keeper.old).kept ≡ Some kept
        → AreAnArea kept) }
    ensures keeps { Keeps (K.told keeper.old) (K.told keeper.new) [] }
    ensures calls { (K.told keeper.new).calls ≡ counted (K.told keeper.old).calls }
    ensures later { (K.told keeper.old).faults.faults ≤ (K.told keeper.new).faults.faults }
    ensures cause { IfErr result
        (λ status. StopsLoading status (K.told keeper.old) (K.told keeper.new)) }
{
    let mut area = AreaBytes::zeros();
    match keeper.load(&mut area) {
        Ok(length) if is_area_length(length) => Ok(area),
        Ok(length) => Err(Status::BadArea { length }),
        Err(_) => Err(Status::KeepFault),
    }
}

// Whether that many bytes may be kept.
fn is_area_length(length: u64) -> bool
    ensures { result ≡ is_area_length_of length }
{
    length == 0 || length == EARLIER_AREA_LENGTH || length == AREA_LENGTH as u64
}

// Replays the record over the stream with an area that was loaded, and writes the last line.
fn play_from<W: World, K: Keeper, S: Sink>(
    alloc: Global,
    selection: Selection,
    area: AreaBytes,
    world: &mut W,
    keeper: &mut K,
    out: &mut S,
) -> Result<(), Status>
    requires stream { IsTrue (W.told world.old).stream.readable }
    requires notes { IsTrue (W.told world.old).notes.readable }
    ensures reads { OnlyReadsBoth (W.told world.old) (W.told world.new) }
    ensures cause { IfErr result (λ status. StopsPlay status
        (outside (W.told world.old) (K.told keeper.old) (S.told out.old))
        (outside (W.told world.new) (K.told keeper.new) (S.told out.new))) }
    ensures ends { PlayEnds selection area
        (outside (W.told world.old) (K.told keeper.old) (S.told out.old))
        (outside (W.told world.new) (K.told keeper.new) (S.told out.new)) (outcome_of result) }
    ensures tells { PlayTells
        (outside (W.told world.old) (K.told keeper.old) (S.told out.old))
        (outside (W.told world.new) (K.told keeper.new) (S.told out.new)) (outcome_of result) }
{
    let mut player = Player::new(alloc, selection, area)?;
    let mut items = RecordItems::new();
    let played = play_items(
        alloc,
        selection,
        &mut player,
        &mut items,
        world,
        keeper,
        out,
    );
    drop(player);
    played
}

// Handles the items of a record of which nothing was read, and writes the last line.
fn play_items<W: World, K: Keeper, S: Sink>(
    alloc: Global,
    selection: Selection,
    player: &mut Player,
    items: &mut RecordItems,
    world: &mut W,
    keeper: &mut K,
    out: &mut S,
) -> Result<(), Status>
    requires stream { IsTrue (W.told world.old).stream.readable }
    requires notes { IsTrue (W.told world.old).notes.readable }
    requires player { StartsPlayer selection player.old }
    requires items { StartsItems items.old }
    ensures reads { OnlyReadsBoth (W.told world.old) (W.told world.new) }
    ensures cause { IfErr result (λ status. StopsPlay status
        (outside (W.told world.old) (K.told keeper.old) (S.told out.old))
        (outside (W.told world.new) (K.told keeper.new) (S.told out.new))) }
    ensures ends { PlayEnds selection player.old.kept
        (outside (W.told world.old) (K.told keeper.old) (S.told out.old))
        (outside (W.told world.new) (K.told keeper.new) (S.told out.new)) (outcome_of result) }
    ensures tells { PlayTells
        (outside (W.told world.old) (K.told keeper.old) (S.told out.old))
        (outside (W.told world.new) (K.told keeper.new) (S.told out.new)) (outcome_of result) }
{
    law_of_outputs();
    law_of_receivers();
    law_of_ticks();
    packets_are_computed();
    packets_are_unique();
    'items: loop {
        match items.next_item(world)? {
            Some(item) => player.handle(item, world, keeper, out)?,
            None => return write_end(alloc, player.packets(), out),
        }
    }
}

// Writes the last line.
fn write_end<S: Sink>(alloc: Global, packets: u64, out: &mut S) -> Result<(), Status>
    ensures whole { OnOk result
        (WritesOn (S.told out.old).written (S.told out.new).written (end_line packets)) }
    ensures cause { IfErr result
        (λ status. StopsWriting status (S.told out.old).writes (S.told out.new).writes) }
    ensures stops { IfErr result (λ status. StopsLine status
        (S.told out.old).written (S.told out.new).written (end_line packets)) }
    ensures writes { (S.told out.old).writes.faults ≤ (S.told out.new).writes.faults }
    ensures grows { Grows (S.told out.old).written (S.told out.new).written }
{
    let mut line = Vec::new(alloc);
    push_end_line(packets, &mut line)?;
    write_piece(out, &line)
}

/// Opens both files and replays the record over the stream.
pub fn replay<W: World, K: Keeper, S: Sink>(
    alloc: Global,
    request: &Replay<'_>,
    world: &mut W,
    keeper: &mut K,
    out: &mut S,
) -> Result<(), Status>
    requires unasked { IsUnasked (W.told world.old) }
    ensures files { (W.told world.new).files ≡ (W.told world.old).files }
    ensures asked_stream { AsksAtMost (W.told world.new).stream request.now.stream.now }
    ensures asked_notes { AsksAtMost (W.told world.new).notes request.now.notes.now }
    ensures order { OpensInOrder request.now.stream.now request.now.notes.now (outcome_of result)
        (W.told world.old) (W.told world.new) }
    ensures cause { IfErr result (λ status. IsCaused status
        (outside (W.told world.old) (K.told keeper.old) (S.told out.old))
        (outside (W.told world.new) (K.told keeper.new) (S.told out.new))) }
    ensures obeyed { IfErr result (λ status. status ≢ Status.Usage) }
    ensures ends { (read : Reader) → IsReader read → ReplayMeansBy read (replay_seen request.now)
        (outside (W.told world.old) (K.told keeper.old) (S.told out.old))
        (outside (W.told world.new) (K.told keeper.new) (S.told out.new)) (outcome_of result) }
    ensures reason { ReplayHasItsReason (replay_seen request.now)
        (outside (W.told world.old) (K.told keeper.old) (S.told out.old))
        (outside (W.told world.new) (K.told keeper.new) (S.told out.new)) (outcome_of result) }
    ensures left { (stream notes : List ℕ)
        → bytes_under (W.told world.old) request.now.stream.now ≡ Some stream
        → bytes_under (W.told world.old) request.now.notes.now ≡ Some notes
        → LeavesRest stream notes (W.told world.old) (W.told world.new) }
    ensures lacking { LacksFile (W.told world.old) request.now.stream.now request.now.notes.now
        → StopsAtOpening (outcome_of result)
        (outside (W.told world.old) (K.told keeper.old) (S.told out.old))
        (outside (W.told world.new) (K.told keeper.new) (S.told out.new)) }
{
    open(world, Port::Stream, request.stream)?;
    open(world, Port::Notes, request.notes)?;
    play_record(alloc, request.selection, world, keeper, out)
}
