//! The items of the record, as they are read from its port.

ghost use Rattle.std.specs.Prelude.{◌≡◌, ℕ, ◌+◌, ◌<◌, ◌≤◌, ◌++◌, ◌∷◌, [], List, length, false};
ghost use Rattle.std.specs.Prelude.{IsTrue, OnOk, IfErr, Ok, Some, None};
ghost use Rattle.bml_ports.specs.Worlds.{WorldState};
ghost use Rattle.replay_run.specs.Files.{file, read_length, record_limit};

use crate::record::{Line, NextLine, RecordItem, RecordReader};
use crate::status::Status;
use bml_ports::{Port, World};

/// The most bytes that a record may give.
const RECORD_LIMIT: u64 = 1 << 30;

/// The bytes that one read of the record asks for: with a line that isn't whole they fit the
/// reader.
const READ_LENGTH: usize = 3904;

/// The items of the record, as far as it was read.
#[derive(Drop)]
pub struct RecordItems {
    reader: RecordReader,
    /// The bytes that the record gave.
    bytes: u64,
    /// The lines that were read.
    lines: u64,
    ghost numbered: { lines + length reader.held ≤ bytes },
    ghost limited: { bytes ≤ record_limit + read_length },
}

impl RecordItems {
    ghost use Rattle.replay_run.specs.Play.{MayBeHandled, milliseconds_of};
    ghost use Rattle.replay_run.specs.Record.{tick_limit};
    ghost use Rattle.replay_run.specs.RecordProgress.{record_state, IsAt, IsAtItem, IsReadable, IsWhole};
    ghost use Rattle.replay_run.specs.RecordProgress.{StartsItems, StopsItems, LeavesItems};
    ghost use Rattle.replay_run.specs.RecordProgress.{StopsInRecord, WasReadForLine, work_left};
    ghost use Rattle.replay_run.specs.Ending.{end_told};
    ghost use Rattle.replay_run.specs.Midway.{StopsInRead};
    ghost use Rattle.replay_run.specs.RecordReader.{longest_line};
    ghost use Rattle.replay_run.specs.Stopping.{IsOneRead, OnlyReads};
    ghost use Rattle.replay_run.specs.declared.record.RecordItem.{RecordItem};

    /// A record of which nothing was read.
    pub fn new() -> RecordItems
        ensures { StartsItems result }
    {
        RecordItems {
            reader: RecordReader::new(),
            bytes: 0,
            lines: 0,
        }
    }

    /// The next item, and None where the record has no more lines. Lines that ask for nothing are
    /// passed over.
    pub fn next_item<W: World>(&mut self, world: &mut W) -> Result<Option<RecordItem>, Status>
        requires within { self.old.bytes ≤ record_limit }
        requires readable { IsReadable self.old.reader (W.told world.old) }
        requires told { end_told (W.told world.old).notes ≡ self.old.reader.ended }

        ensures within { OnOk result (self.new.bytes ≤ record_limit) }
        ensures readable { OnOk result (IsReadable self.new.reader (W.told world.new)) }
        ensures told { OnOk result
            (end_told (W.told world.new).notes ≡ self.new.reader.ended) }
        ensures reads { OnlyReads Port.Notes (W.told world.old) (W.told world.new) }
        ensures cause { IfErr result (λ status. StopsItems status
            (W.told world.old).notes.reads (W.told world.new).notes.reads self.new.bytes) }
        ensures further { (item : RecordItem) → result ≡ Ok (Some item)
            → self.old.lines < self.new.lines }
        ensures time { (item : RecordItem) → result ≡ Ok (Some item)
            → milliseconds_of item ≤ tick_limit }
        ensures may_be { (item : RecordItem) → result ≡ Ok (Some item) → MayBeHandled item }

        ensures item { (item : RecordItem) → result ≡ Ok (Some item)
            → (notes : List ℕ) (items : List RecordItem)
            → IsAt notes (record_state self.old (W.told world.old)) items
            → IsAtItem notes (record_state self.new (W.told world.new)) items item }
        ensures end { result ≡ Ok None → (notes : List ℕ) (items : List RecordItem)
            → IsAt notes (record_state self.old (W.told world.old)) items
            → IsWhole (file notes (W.told world.new).notes.left) items }
        ensures stopped { IfErr result (λ status. (notes : List ℕ) (items : List RecordItem)
            → IsAt notes (record_state self.old (W.told world.old)) items
            → LeavesItems status (file notes (W.told world.new).notes.left) items) }
        ensures reading { IfErr result (λ status. StopsInRecord status
            (record_state self.old (W.told world.old)) (W.told world.new).notes) }
        ensures last_read { WasReadForLine
            (record_state self.old (W.told world.old)) (W.told world.old) (W.told world.new) }
    {
        'lines: loop {
            match self.reader.next() {
                NextLine::Line(Line::Item(item)) => {
                    self.lines += 1;
                    return Ok(Some(item));
                }
                NextLine::Line(Line::Nothing) => self.lines += 1,
                NextLine::Line(Line::Bad) => {
                    return Err(Status::BadRecord {
                        line: self.lines + 1,
                    });
                }
                NextLine::NeedMore => self.read_record(world)?,
                NextLine::End => return Ok(None),
            }
        }
    }

    // Reads a piece of the record, or comes to its end.
    fn read_record<W: World>(&mut self, world: &mut W) -> Result<(), Status>
        requires open_end { self.old.reader.ended ≡ false }
        requires waiting { length self.old.reader.held < longest_line }
        requires within { self.old.bytes ≤ record_limit }
        requires readable { IsTrue (W.told world.old).notes.readable }

        ensures within { OnOk result (self.new.bytes ≤ record_limit) }
        ensures lines { self.new.lines ≡ self.old.lines }
        ensures readable { OnOk result (IsReadable self.new.reader (W.told world.new)) }
        ensures told { OnOk result
            (end_told (W.told world.new).notes ≡ self.new.reader.ended) }
        ensures reads { OnlyReads Port.Notes (W.told world.old) (W.told world.new) }
        ensures cause { IfErr result (λ status. StopsItems status
            (W.told world.old).notes.reads (W.told world.new).notes.reads self.new.bytes) }
        ensures gave { IsOneRead (W.told world.old).notes (W.told world.new).notes }
        ensures last { IfErr result (λ status. StopsInRead status record_limit self.old.bytes
            (W.told world.old).notes (W.told world.new).notes) }
        ensures ahead { OnOk result
            (work_left self.new.reader self.new.bytes < work_left self.old.reader self.old.bytes) }
        ensures goes { OnOk result ((notes : List ℕ) (items : List RecordItem)
            → IsAt notes (record_state self.old (W.told world.old)) items
            → IsAt notes (record_state self.new (W.told world.new)) items) }
        ensures stopped { IfErr result (λ status. (notes : List ℕ) (items : List RecordItem)
            → IsAt notes (record_state self.old (W.told world.old)) items
            → LeavesItems status (file notes (W.told world.new).notes.left) items) }
    {
        let mut buffer = [0; READ_LENGTH];
        match world.read_port(Port::Notes, &mut buffer) {
            Err(_) => Err(Status::ReadFault),
            Ok(0) => {
                self.reader.finish();
                Ok(())
            }
            Ok(count) => {
                self.bytes += count as u64;
                if self.bytes > RECORD_LIMIT {
                    return Err(Status::TooLong);
                }
                self.reader.feed(&buffer[..count]);
                Ok(())
            }
        }
    }
}
