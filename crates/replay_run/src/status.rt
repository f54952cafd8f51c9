//! How a run ends.

ghost use Rattle.std.specs.Prelude.{◌≡◌, ◌≤◌, ◌++◌, length, decimal};
ghost use Rattle.replay_run.specs.Status.{status_line, status_number};

use arrayvec::ArrayString;
use itoa::Buffer;

/// How a run ended.
#[derive(Clone, Copy, Debug, PartialEq, Eq)]
pub enum Status {
    /// The record was read to its end, and every line was written.
    Done,
    /// The words are no command.
    Usage,
    /// A line of the record, counted from 1, is no item.
    BadRecord { line: u64 },
    /// The stream or the record couldn't be opened.
    OpenFault,
    /// The stream or the record couldn't be read.
    ReadFault,
    /// The output couldn't be written.
    WriteFault,
    /// The kept bytes couldn't be loaded or stored.
    KeepFault,
    /// The kept bytes have a length in bytes that no area has.
    BadArea { length: u64 },
    /// The stream or the record is longer than a run takes.
    TooLong,
    /// A growth found no memory.
    NoMemory,
}

impl Status {
    /// The number that the process ends with, 0 to 9 in the order of the variants.
    pub fn number(&self) -> u8
        ensures { result ≡ status_number self.now }
    {
        match self {
            Status::Done => 0,
            Status::Usage => 1,
            Status::BadRecord { .. } => 2,
            Status::OpenFault => 3,
            Status::ReadFault => 4,
            Status::WriteFault => 5,
            Status::KeepFault => 6,
            Status::BadArea { .. } => 7,
            Status::TooLong => 8,
            Status::NoMemory => 9,
        }
    }

    /// The line for standard error, without a line feed: the variant's name in words, and behind it
    /// the number of a bad record's line or the length of a bad area in bytes.
    pub fn line(&self) -> ArrayString<48>
        ensures { result.bytes ≡ status_line self.now }
    {
        match self {
            Status::Done => plain("done"),
            Status::Usage => plain("usage"),
            Status::BadRecord { line } => numbered("bad record line ", *line),
            Status::OpenFault => plain("open fault"),
            Status::ReadFault => plain("read fault"),
            Status::WriteFault => plain("write fault"),
            Status::KeepFault => plain("keep fault"),
            Status::BadArea { length } => numbered("bad area length ", *length),
            Status::TooLong => plain("too long"),
            Status::NoMemory => plain("no memory"),
        }
    }
}

impl From<bml_bytes::NoMemory> for Status {
    ghost use Rattle.std.specs.Prelude.{◌≡◌};
    ghost use Rattle.replay_run.specs.declared.status.Status.TheVariants.{NoMemory};

    ghost from_gives = { λ _ status. status ≡ NoMemory };

    fn from(_error: bml_bytes::NoMemory) -> Status {
        Status::NoMemory
    }
}

fn plain(words: &str) -> ArrayString<48>
    requires { length words.now ≤ 16 }
    ensures { result.bytes ≡ words.now }
{
    let mut line = ArrayString::new();
    line.push_str(words);
    line
}

fn numbered(words: &str, number: u64) -> ArrayString<48>
    requires { length words.now ≤ 16 }
    ensures { result.bytes ≡ words.now ++ decimal number }
{
    let mut line = plain(words);
    let mut buffer = Buffer::new();
    line.push_str(buffer.format(number));
    line
}
