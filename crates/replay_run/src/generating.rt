//! Generated files, and what the stream of files comes to when it is replayed.

ghost use Rattle.std.specs.Prelude.{◌≡◌, ◌≢◌, ◌≤◌, ◌<◌, ◌==◌, ◌++◌, ◌∷◌, ℕ, List, [], true, false};
ghost use Rattle.std.specs.Prelude.{count_by, length, map, sum_by};
ghost use Rattle.std.specs.Prelude.{Err, IfErr, IfOk, OnOk, MatchResult};
ghost use Rattle.std.specs.Io.{StartsWith};
ghost use Rattle.bml_ports.specs.Counters.{FaultedSince};
ghost use Rattle.bml_ports.specs.Keepers.{KeeperState};
ghost use Rattle.bml_ports.specs.Worlds.{WorldState};
ghost use Rattle.carousel_writer.specs.GoodFiles.{are_good_files};
ghost use Rattle.es_reader.specs.Readers.{Reader, IsReader};
ghost use Rattle.psi_tables.specs.declared.services.Selection.{Selection};
ghost use Rattle.psi_tables.specs.declared.services.Selection.TheVariants.{Pid};
ghost use Rattle.receiver_core.specs.Outputs.Input.{Packet as APacket};
ghost use Rattle.receiver_core.specs.Receiving.{IsIdle, StandsFor};
ghost use Rattle.ts_packets.specs.Cutter.{MayFollow};
ghost use Rattle.ts_packets.specs.Packets.{packets_of};
ghost use Rattle.replay_run.specs.Generating.{GeneratesAs, lines_of_files, whole_record};
ghost use Rattle.replay_run.specs.Kept.{area_of_kept};
ghost use Rattle.replay_run.specs.Meaning.{replay_pieces};
ghost use Rattle.replay_run.specs.Output.{bytes_of};
ghost use Rattle.replay_run.specs.Outside.{outside};
ghost use Rattle.replay_run.specs.Status.{outcome_of};
ghost use Rattle.replay_run.specs.devices.Printing.{Prints, work_left};

use crate::lines::{push_end_line, push_gen_line, push_number_line};
use crate::output::write_piece;
use crate::status::Status;
use bml_bytes::{AreaBytes, NoMemory};
use bml_ports::Sink;
use carousel_writer::{Files, WriteRefusal, law_of_file_sizes, write_stream};
use file_generator::gen_files;
use psi_tables::Selection;
use receiver_core::{Input, Receiver, law_of_receivers};
use std::alloc::Global;
use ts_packets::{Ahead, Cutter, Packet};

/// Writes the stream of files, replays it in memory, of the data on their PID, with a record of
/// `all` and `show` and nothing kept, and appends three lines: `packets P` for the packets of the
/// stream, `bytes B` for the sum of the modules' sizes, and `lines L` for the lines that the replay
/// prints. `BadFiles` comes exactly where [`write_stream`] has it, and nothing is appended then. It
/// takes memory for the stream, for what a receiver of it holds, and for all that it prints.
pub fn replay_files(alloc: Global, files: &Files, out: &mut Vec<u8>) -> Result<(), WriteRefusal>
    ensures lines { OnOk result ((read : Reader) → IsReader read
        → out.new.items ≡ out.old.items ++ lines_of_files read files.now) }
    ensures refusal { MatchResult result (λ _. are_good_files files.now ≡ true)
        (λ refusal. refusal ≢ WriteRefusal.NoMemory
        → (refusal ≡ WriteRefusal.BadFiles) × (are_good_files files.now ≡ false)) }
    ensures unchanged { result ≡ Err WriteRefusal.BadFiles → out.new ≡ out.old }
    ensures grows { StartsWith out.new.items out.old.items }
{
    law_of_small_files();
    let stream = write_stream(alloc, files)?;
    let mut text = Vec::new(alloc);
    let packets = replay_stream(alloc, files.pid, &stream, &mut text)?;
    push_number_line("packets", packets, out)?;
    push_number_line("bytes", byte_count(files) as u64, out)?;
    push_number_line("lines", line_count(&text) as u64, out)?;
    Ok(())
}

// The sum of the modules' sizes.
fn byte_count(files: &Files) -> usize
    requires small { sum_by (λ file. length file.bytes.items) files.now.modules.items ≤ 33_554_432 }
    ensures { result ≡ sum_by (λ file. length file.bytes.items) files.now.modules.items }
{
    let mut count: usize = 0;
    'modules: for file in &files.modules {
        count += file.bytes.len();
    }
    count
}

// The modules of files that can be written have no more bytes than those of a DII may have.
fn law_of_small_files()
    ensures { (files : Files) → are_good_files files ≡ true
        → sum_by (λ file. length file.bytes.items) files.modules.items ≤ 33_554_432 }
{
    law_of_file_sizes();
}

// How many lines a text has, each of which ends with a line feed.
fn line_count(text: &[u8]) -> usize
    ensures { result ≡ count_by (λ byte. byte == 10) text.now }
{
    text.iter().filter(|byte| **byte == b'\n').count()
}

// Replays a stream that is held in memory, of the data on a PID, with a record of `all` and `show`
// and nothing kept, and appends what is printed. Answers the number of its packets.
fn replay_stream(
    alloc: Global,
    pid: u16,
    stream: &[u8],
    text: &mut Vec<u8>,
) -> Result<u64, NoMemory>
    ensures packets { IfOk result (λ packets. packets ≡ length (packets_of stream.now)) }
    ensures text { OnOk result ((read : Reader) → IsReader read → text.new.items ≡ text.old.items
        ++ bytes_of (replay_pieces read (Pid pid) (area_of_kept []) stream.now whole_record)) }
{
    let mut receiver = Receiver::new(alloc, Selection::Pid(pid), AreaBytes::zeros())?;
    let replayed = replay_whole(&mut receiver, stream, text);
    drop(receiver);
    replayed
}

// Hands in all packets of a stream and the wish to see the display, and appends what they print and
// the last line. Answers the number of the packets.
fn replay_whole(receiver: &mut Receiver, stream: &[u8], text: &mut Vec<u8>) -> Result<u64, NoMemory>
    requires idle { IsIdle receiver.old }
    ensures packets { IfOk result (λ packets. packets ≡ length (packets_of stream.now)) }
    ensures text { OnOk result ((read : Reader) (selection : Selection) (area : List ℕ)
        → StandsFor read selection area receiver.old [] []
        → text.new.items ≡ text.old.items
        ++ bytes_of (replay_pieces read selection area stream.now whole_record)) }
{
    law_of_receivers();
    let packets = take_stream(receiver, stream, text)?;
    receiver.input(Input::Show, text)?;
    push_end_line(packets, text)?;
    Ok(packets)
}

// Hands in all packets of a stream, makes the turns of each, and appends what they print. Answers
// the number of the packets.
fn take_stream(receiver: &mut Receiver, stream: &[u8], text: &mut Vec<u8>) -> Result<u64, NoMemory>
    requires idle { IsIdle receiver.old }
    ensures idle { OnOk result (IsIdle receiver.new) }
    ensures packets { IfOk result (λ packets. packets ≡ length (packets_of stream.now)) }
    ensures prints { OnOk result (Prints (map APacket (packets_of stream.now)) receiver.old
        receiver.new text.old.items text.new.items) }
{
    let mut cutter = Cutter::new();
    let mut packets = 0;
    let mut left = stream;
    'packets: loop {
        match cutter.seek() {
            Ahead::Packet => {
                take_packet(receiver, &cutter.take_packet(), text)?;
                packets += 1;
            }
            Ahead::NeedMore => left = feed(&mut cutter, left),
            Ahead::End => return Ok(packets),
        }
    }
}

// Feeds as many of the bytes as there is room for, and tells the end where there are none. Answers
// those that are left.
fn feed<'a>(cutter: &mut Cutter, bytes: &'a [u8]) -> &'a [u8]
    requires open_end { cutter.old.ended ≡ false }
    requires room { length cutter.old.held ≤ 188 }
    ensures held { cutter.new.held ++ result.now ≡ cutter.old.held ++ bytes.now }
    ensures follows { MayFollow cutter.new result.now }
    ensures ahead { work_left cutter.new result.now < work_left cutter.old bytes.now }
{
    if bytes.is_empty() {
        cutter.finish();
        return bytes;
    }
    let count = cutter.feed(bytes);
    &bytes[count..]
}

// Hands in a packet, makes the turns of the sections that it completes, and appends what they
// print.
fn take_packet(receiver: &mut Receiver, packet: &Packet, text: &mut Vec<u8>) -> Result<(), NoMemory>
    requires idle { IsIdle receiver.old }
    ensures idle { OnOk result (IsIdle receiver.new) }
    ensures prints { OnOk result (Prints (APacket packet.now ∷ []) receiver.old receiver.new
        text.old.items text.new.items) }
{
    receiver.packet(packet);
    make_turns(receiver, text)
}

// Makes the turns that are still to come, and appends what they print.
fn make_turns(receiver: &mut Receiver, text: &mut Vec<u8>) -> Result<(), NoMemory>
    ensures idle { OnOk result (IsIdle receiver.new) }
    ensures prints { OnOk result
        (Prints [] receiver.old receiver.new text.old.items text.new.items) }
{
    'turns: loop {
        if !receiver.section_turn(text)? {
            return Ok(());
        }
    }
}

/// Generates the files of a seed, with so many modules of random bytes, replays their stream, and
/// writes four lines: the command's own, and those of [`replay_files`].
pub fn generate<S: Sink>(alloc: Global, seed: u32, count: u32, out: &mut S) -> Result<(), Status>
    requires some { 1 ≤ count }
    requires most { count ≤ 100 }
    ensures ends { (read : Reader) → IsReader read → (world : WorldState) (keeper : KeeperState)
        → GeneratesAs read seed count (outside world keeper (S.told out.old))
        (outside world keeper (S.told out.new)) (outcome_of result) }
    ensures cause { IfErr result (λ status. status ≡ Status.WriteFault
        → FaultedSince (S.told out.old).writes (S.told out.new).writes) }
{
    let files = gen_files(alloc, seed, count)?;
    let mut lines = Vec::new(alloc);
    push_gen_line(seed, count, &mut lines)?;
    match replay_files(alloc, &files, &mut lines) {
        Ok(()) => write_piece(out, &lines),
        // Generated files can be written, so there was no memory.
        Err(_) => Err(Status::NoMemory),
    }
}
