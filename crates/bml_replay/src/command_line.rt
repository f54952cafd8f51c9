//! The words of the command line.

ghost use Rattle.std.specs.Prelude.{◌≡◌};
ghost use Rattle.bml_replay.specs.SoleWords.{asked_by};

use bml_ports::Text;
use replay_run::Status;
use std::env;
use std::io::ErrorKind;

/// What is printed behind the status line of a faulty command line.
pub const SYNOPSIS: &str = "\
bml_replay replay [--service N | --data-pid N] STREAM RECORD
bml_replay gen SEED COUNT
";

/// What `--help` prints.
pub const HELP: &str = "\
bml_replay replays a recorded MPEG-2 transport stream as a receiver of data broadcasting would see it.

bml_replay replay [--service N | --data-pid N] STREAM RECORD
bml_replay gen SEED COUNT

    --service N   receives the service with that program_number, 1 to 65535, in place of the first one
    --data-pid N  receives the data carousel on that PID, 16 to 8190, without any table
    STREAM        the recorded stream
    RECORD        what the receiver is to do, an item on each line: all, packets N (take them), key C, release C,
                  tick M (milliseconds), random W, date D S (a day and its second), show,
                  rows S A (with the rows of texts)
    SEED, COUNT   what a stream is generated from, 0 to 4294967295, and how many modules it has beside its page, 1 to 100

replay prints a line for each module that comes, goes or is skipped, for each document that is loaded, refused or launched,
for each script that is bad or stopped, for each event that is lost, for each sound and for each persistent array that is
written. It prints the display lists that the record asks for, and at the end the number of packets taken. What pages write
to persistent arrays is kept in the file nvram.jnl of the current folder, where the next run finds it.
gen generates a stream, replays it in memory, and prints its packets, the bytes of its modules and the lines of the
replay. It uses no file.
The status is 0 where all was done. Otherwise standard error says what was not.
";

/// What `--version` prints.
pub const VERSION: &str = "bml_replay 0.1\n";

// The codes of `--help`.
const HELP_WORD: [u16; 6] = [
    b'-' as u16,
    b'-' as u16,
    b'h' as u16,
    b'e' as u16,
    b'l' as u16,
    b'p' as u16,
];

// The codes of `--version`.
const VERSION_WORD: [u16; 9] = [
    b'-' as u16,
    b'-' as u16,
    b'v' as u16,
    b'e' as u16,
    b'r' as u16,
    b's' as u16,
    b'i' as u16,
    b'o' as u16,
    b'n' as u16,
];

/// What the words of the command line ask of the program.
#[derive(Clone, Copy, Debug, PartialEq, Eq)]
pub enum Asked {
    /// To say what it does.
    Help,
    /// To say which version it is.
    Version,
    /// To run the command that the words are, if they are one.
    Command,
}

/// What the words ask for.
pub fn request_of(words: &[Text]) -> Asked
    ensures { result ≡ asked_by words.now }
{
    let [only] = words else {
        return Asked::Command;
    };
    let only = only.codes();
    if only == HELP_WORD.as_slice() {
        return Asked::Help;
    }
    if only == VERSION_WORD.as_slice() {
        return Asked::Version;
    }
    Asked::Command
}

/// Reads the words behind the program's name. `Usage` where one of them isn't UTF-8, and `NoMemory` where
/// there is no memory for them.
pub fn read_words(rt: &HostRuntime) -> Result<Vec<Text>, Status> {
    let mut args = match env::args(rt) {
        Ok(args) => args,
        Err(error) if error.kind() == ErrorKind::OutOfMemory => return Err(Status::NoMemory),
        Err(_) => return Err(Status::Usage),
    };
    let _program = args.next();
    let mut words = Vec::new(rt.alloc());
    for arg in args {
        let word = Text::of_bytes(rt.alloc(), arg.as_bytes())?;
        if words.push(word).is_err() {
            return Err(Status::NoMemory);
        }
    }
    Ok(words)
}
