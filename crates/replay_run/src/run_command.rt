//! The run of the program.

ghost use Rattle.std.specs.Prelude.{◌≡◌, ◌≢◌, ◌↔◌, None};
ghost use Rattle.es_reader.specs.Readers.{Reader, IsReader};
ghost use Rattle.replay_run.specs.Causes.{IsCaused};
ghost use Rattle.replay_run.specs.Completeness.{RunCompletes};
ghost use Rattle.replay_run.specs.Headline.{RunMeans, RunMeansBy};
ghost use Rattle.replay_run.specs.Opening.{AsksOnly, IsUnasked};
ghost use Rattle.replay_run.specs.Opening.{LacksItsFile, LeavesFiles, StopsAtOpening};
ghost use Rattle.replay_run.specs.Order.{AsksInOrder};
ghost use Rattle.replay_run.specs.Outside.{outside};
ghost use Rattle.replay_run.specs.Reasons.{RunHasItsReason};
ghost use Rattle.replay_run.specs.Status.{outcome_of};
ghost use Rattle.replay_run.specs.Words.{IsAReplay, command};

use crate::generating::generate;
use crate::replay::replay;
use crate::status::Status;
use crate::words::{Command, read_command};
use bml_ports::{Keeper, Sink, Text, World};
use es_reader::law_of_the_reader;
use std::alloc::Global;

/// Runs the command that the words behind the program's name are, and answers how it ended.
///
/// `replay STREAM RECORD` replays a recorded transport stream (ISO/IEC 13818-1) as a receiver of
/// data broadcasting would see it: of the first service, with `--service N` in front of the names
/// of the service with that program_number, 1 to 65,535, and with `--data-pid N` of the data
/// carousel on that PID, 16 to 8,190. The record says line by line which packets to take and when
/// to show the display list, and what the receiver prints is written, piece by piece, and `end P`
/// at the end for the P packets that were taken. The persistent area is what the keeper kept, and
/// after each turn that changed its bytes it is stored, before what the turn printed is written. A
/// replay holds neither the stream nor the record in memory. It reads a port on only for a packet or
/// a line that it needs, and only where the last read gave at least one byte. However it ends, but
/// for want of memory, all was written that the bytes given before the last read decide.
///
/// `gen SEED COUNT` replays the stream of generated files in memory, with SEED from 0 to
/// 4,294,967,295 and COUNT modules of random bytes, 1 to 100, and writes how many packets, bytes
/// and lines that comes to. It uses neither the world nor the keeper.
pub fn run<W: World, K: Keeper, S: Sink>(
    alloc: Global,
    words: &[Text],
    world: &mut W,
    keeper: &mut K,
    out: &mut S,
) -> Status
    requires unasked { IsUnasked (W.told world.old) }

    // There is a reader of programs, and where the files and the kept bytes are told, the run ends
    // as its meaning by this reader says, however reads are cut; and so by every reader. Unless
    // memory is wanting, the last read was for a packet or a line that the bytes given before it
    // lack, and what these decide was written. Where a file is missing, it ends at its opening.
    ensures reader { (read : Reader) × IsReader read × RunMeansBy read (command words.now)
        (outside (W.told world.old) (K.told keeper.old) (S.told out.old))
        (outside (W.told world.new) (K.told keeper.new) (S.told out.new)) result }
    ensures headline { RunMeans (command words.now)
        (outside (W.told world.old) (K.told keeper.old) (S.told out.old))
        (outside (W.told world.new) (K.told keeper.new) (S.told out.new)) result }
    ensures missing { LacksItsFile (command words.now) (W.told world.old)
        → StopsAtOpening result
        (outside (W.told world.old) (K.told keeper.old) (S.told out.old))
        (outside (W.told world.new) (K.told keeper.new) (S.told out.new)) }

    // The line of a bad record is the first bad one of the record, a file that is too long gave
    // more bytes than a run takes, and a bad area has the number of bytes that are kept. This hangs
    // on no reader of programs.
    ensures reason { RunHasItsReason (command words.now)
        (outside (W.told world.old) (K.told keeper.old) (S.told out.old))
        (outside (W.told world.new) (K.told keeper.new) (S.told out.new)) result }

    // A command that nothing hinders comes to its end, unless memory is wanting.
    ensures complete { RunCompletes (command words.now)
        (outside (W.told world.old) (K.told keeper.old) (S.told out.old))
        (outside (W.told world.new) (K.told keeper.new) (S.told out.new)) result }

    // Words that are no command come to nothing, and only these. Only a replay uses the world and
    // the keeper.
    ensures usage { (result ≡ Status.Usage) ↔ (command words.now ≡ None) }
    ensures unused { result ≡ Status.Usage → out.new ≡ out.old }
    ensures alone { ¬ (IsAReplay (command words.now))
        → (world.new ≡ world.old) × (keeper.new ≡ keeper.old) }

    // Whether or not content is told: each fault was counted in this run, in the last call under
    // its count. No name was asked for but the two of the replay, each at its own port; the record
    // was opened only once the stream was, and after an opening that failed nothing was asked. Where
    // the kept bytes are no area's, neither port was read.
    ensures cause { IsCaused result
        (outside (W.told world.old) (K.told keeper.old) (S.told out.old))
        (outside (W.told world.new) (K.told keeper.new) (S.told out.new)) }
    ensures asked { AsksOnly (command words.now) (W.told world.new) }
    ensures order { AsksInOrder (command words.now) result
        (W.told world.old) (W.told world.new) }

    // The files are as before, and what was given and what is left of an opened one is the file.
    ensures files { (W.told world.new).files ≡ (W.told world.old).files }
    ensures left { LeavesFiles (command words.now) (W.told world.old) (W.told world.new) }
{
    law_of_the_reader();
    match read_command(words) {
        None => Status::Usage,
        Some(Command::Replay(request)) => status_of(replay(alloc, &request, world, keeper, out)),
        Some(Command::Gen { seed, count }) => status_of(generate(alloc, seed, count, out)),
    }
}

fn status_of(answer: Result<(), Status>) -> Status
    ensures { result ≡ outcome_of answer }
{
    match answer {
        Ok(()) => Status::Done,
        Err(status) => status,
    }
}
