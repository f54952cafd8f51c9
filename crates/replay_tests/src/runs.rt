//! Runs over ports in memory.

ghost use Rattle.std.specs.Prelude.{IfOk};
ghost use Rattle.bml_ports.specs.MemoryWorlds.{told_by_world};
ghost use Rattle.replay_run.specs.Opening.{IsUnasked};

use crate::piece_sinks::PieceSink;
use bml_ports::{Keeper, MemoryKeeper, MemorySink, MemorySource, MemoryWorld, NoMemory, Text};
use replay_run::{Status, run};
use std::alloc::Global;

/// How the ports of a run behave: the most bytes of the stream and of the record that a read gives
/// and that a write takes, the room for lines, the bytes that are kept, and the numbers of the opening, of the reads of the
/// stream and of the record, of the write and of the call of the keeper that fail, or 0.
#[derive(Clone, Copy)]
pub struct Ports {
    pub piece: usize,
    pub record_piece: usize,
    pub write_piece: usize,
    pub room: usize,
    pub opening: u64,
    pub stream_read: u64,
    pub record_read: u64,
    pub write: u64,
    pub kept: &'static [u8],
    pub keeping: u64,
}

/// Nothing fails.
pub const SOUND: Ports = Ports {
    piece: 4096,
    record_piece: 4096,
    write_piece: 4096,
    room: 4096,
    opening: 0,
    stream_read: 0,
    record_read: 0,
    write: 0,
    kept: b"",
    keeping: 0,
};

/// The replay of the data on PID 256.
pub const REPLAY: &[&str] = &["replay", "--data-pid", "256", "s", "r"];

/// The replay of the first service.
pub const FIRST: &[&str] = &["replay", "s", "r"];

/// A run that ended, with its ports.
#[derive(Drop)]
pub struct Ended {
    pub status: Status,
    pub world: MemoryWorld,
    pub keeper: MemoryKeeper,
    pub sink: PieceSink,
}

/// Runs words over the files `s` and `r`.
pub fn replayed(
    alloc: Global,
    words: &[&str],
    stream: &[u8],
    record: &[u8],
    ports: Ports,
) -> Result<Ended, NoMemory> {
    let words = texts_of(alloc, words)?;
    let mut sink = sink_of(alloc, ports)?;
    let kept = Vec::from_slice(alloc, ports.kept)?;
    let mut keeper = MemoryKeeper::new(kept, vec![in alloc; ports.keeping]?);
    let mut world = world_of(alloc, stream, record, ports)?;
    let status = run(alloc, words.as_slice(), &mut world, &mut keeper, &mut sink);
    Ok(Ended {
        status,
        world,
        keeper,
        sink,
    })
}

/// Replays the data on PID 256 over another keeper, and answers how that ended, and what was written.
pub fn replayed_over<K: Keeper>(
    alloc: Global,
    stream: &[u8],
    record: &[u8],
    keeper: &mut K,
) -> Result<(Status, PieceSink), NoMemory> {
    let words = texts_of(alloc, REPLAY)?;
    let mut sink = sink_of(alloc, SOUND)?;
    let mut world = world_of(alloc, stream, record, SOUND)?;
    let status = run(alloc, words.as_slice(), &mut world, keeper, &mut sink);
    Ok((status, sink))
}

fn sink_of(alloc: Global, ports: Ports) -> Result<PieceSink, NoMemory> {
    let sink = MemorySink::new(alloc, ports.room, vec![in alloc; ports.write]?)?;
    Ok(PieceSink::new(sink, ports.write_piece))
}

fn world_of(
    alloc: Global,
    stream: &[u8],
    record: &[u8],
    ports: Ports,
) -> Result<MemoryWorld, NoMemory>
    ensures { IfOk result (λ world. IsUnasked (told_by_world world)) }
{
    let mut world = MemoryWorld::new(alloc, vec![in alloc; ports.opening]?);
    let reads = vec![in alloc; ports.stream_read]?;
    let stream = MemorySource::new(Vec::from_slice(alloc, stream)?, ports.piece.max(1), reads);
    world.add(Text::of_bytes(alloc, b"s")?, stream)?;
    let reads = vec![in alloc; ports.record_read]?;
    let piece = ports.record_piece.max(1);
    let record = MemorySource::new(Vec::from_slice(alloc, record)?, piece, reads);
    world.add(Text::of_bytes(alloc, b"r")?, record)?;
    Ok(world)
}

/// Words as the command line gives them.
pub fn texts_of(alloc: Global, words: &[&str]) -> Result<Vec<Text>, NoMemory> {
    let mut texts = Vec::new(alloc);
    for word in words {
        texts.push(Text::of_bytes(alloc, word.as_bytes())?)?;
    }
    Ok(texts)
}
