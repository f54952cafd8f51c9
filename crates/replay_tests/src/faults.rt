//! Ports that fail in mid-stream, and a record with a bad line.

use crate::messages::{EMPTY, FIRST, SECOND, THIRD};
use crate::runs::{Ports, REPLAY, SOUND, replayed};
use replay_run::Status;
use std::test::Fail;
use test_streams::{Entry, Sent, Stream};

// Each read of the stream gives a packet at most.
const PACKETS: Ports = Ports {
    piece: 188,
    ..SOUND
};

const LINE: &[u8] = b"module 40 0001 01 0\n";

// The ports, the record, how the run ends, and the lines that it has written by then.
const ROWS: &[(Ports, &[u8], Status, &[u8])] = &[
    (
        Ports {
            stream_read: 3,
            ..PACKETS
        },
        b"all\n",
        Status::ReadFault,
        LINE,
    ),
    (
        Ports {
            stream_read: 2,
            ..PACKETS
        },
        b"all\n",
        Status::ReadFault,
        b"",
    ),
    (
        Ports {
            record_read: 1,
            ..SOUND
        },
        b"all\n",
        Status::ReadFault,
        b"",
    ),
    (
        Ports {
            record_read: 2,
            ..SOUND
        },
        b"all\n",
        Status::ReadFault,
        LINE,
    ),
    (
        Ports { write: 1, ..SOUND },
        b"all\n",
        Status::WriteFault,
        b"",
    ),
    (
        Ports { write: 2, ..SOUND },
        b"all\n",
        Status::WriteFault,
        LINE,
    ),
    (
        Ports { room: 6, ..SOUND },
        b"all\n",
        Status::WriteFault,
        b"module",
    ),
    (
        Ports {
            opening: 1,
            ..SOUND
        },
        b"all\n",
        Status::OpenFault,
        b"",
    ),
    (
        Ports {
            opening: 2,
            ..SOUND
        },
        b"all\n",
        Status::OpenFault,
        b"",
    ),
    (
        SOUND,
        b"all\nkey x\nall\n",
        Status::BadRecord { line: 2 },
        LINE,
    ),
];

// The lines before that are written, and no others.
#[test]
fn faults_in_the_middle(rt: HostRuntime) -> Result<(), Fail> {
    let stream = Stream::of_sections(rt.alloc(), &[EMPTY, FIRST, SECOND, THIRD])?;
    for (ports, record, status, lines) in ROWS {
        let run = replayed(rt.alloc(), REPLAY, stream.bytes(), record, *ports)?;
        assert_eq!(rt; run.status, *status);
        assert_eq!(rt; run.sink.written(), *lines, "for {status:?}");
    }
    Ok(())
}

// Three modules, and then other versions: the third one goes, the second one has a new version,
// and a fourth one comes.
const CHANGES: &[Sent] = &[
    Sent::Indication(
        1,
        4,
        &[
            Entry(1, 1, 4, &[]),
            Entry(2, 1, 4, &[]),
            Entry(3, 1, 4, &[]),
        ],
    ),
    Sent::Block(1, 1, 0, b"abcd"),
    Sent::Block(2, 1, 0, b"abcd"),
    Sent::Block(3, 1, 0, b"abcd"),
    Sent::Indication(
        2,
        4,
        &[
            Entry(1, 1, 4, &[]),
            Entry(2, 2, 4, &[]),
            Entry(4, 1, 4, &[]),
        ],
    ),
    Sent::Block(2, 2, 0, b"abcd"),
    Sent::Block(4, 1, 0, b"abcd"),
];

// Each read gives a byte, and each write takes one.
const BYTES: Ports = Ports {
    piece: 1,
    record_piece: 1,
    write_piece: 1,
    ..SOUND
};

const FIRST_LINE: &[u8] = b"module 40 0001 01 4\n";

const FIRST_LINES: &[u8] = b"module 40 0001 01 4\nmodule 40 0002 01 4\nmodule 40 0003 01 4\n";

const WITH_GONE: &[u8] =
    b"module 40 0001 01 4\nmodule 40 0002 01 4\nmodule 40 0003 01 4\ngone 40 0003\n";

// A packet counts once the byte after it is there: of five packets that were given whole four count,
// and with one byte more the fifth does.
const CHANGE_ROWS: &[(Ports, Status, &[u8])] = &[
    (
        Ports {
            stream_read: 6,
            ..PACKETS
        },
        Status::ReadFault,
        FIRST_LINES,
    ),
    (
        Ports {
            stream_read: 941,
            ..BYTES
        },
        Status::ReadFault,
        FIRST_LINES,
    ),
    (
        Ports {
            stream_read: 942,
            ..BYTES
        },
        Status::ReadFault,
        WITH_GONE,
    ),
    (Ports { write: 2, ..SOUND }, Status::WriteFault, FIRST_LINE),
    (Ports { write: 21, ..BYTES }, Status::WriteFault, FIRST_LINE),
    (Ports { write: 2, ..BYTES }, Status::WriteFault, b"m"),
    (
        Ports {
            opening: 2,
            ..BYTES
        },
        Status::OpenFault,
        b"",
    ),
    (
        Ports {
            keeping: 1,
            ..BYTES
        },
        Status::KeepFault,
        b"",
    ),
    (
        Ports {
            record_read: 4,
            ..BYTES
        },
        Status::ReadFault,
        b"",
    ),
    (
        Ports {
            kept: b"12345",
            ..BYTES
        },
        Status::BadArea { length: 5 },
        b"",
    ),
];

// What was given before the read that fails is told, and no more.
#[test]
fn faults_at_changes(rt: HostRuntime) -> Result<(), Fail> {
    let stream = Stream::of_sections(rt.alloc(), CHANGES)?;
    for (ports, status, lines) in CHANGE_ROWS {
        let run = replayed(rt.alloc(), REPLAY, stream.bytes(), b"all\n", *ports)?;
        assert_eq!(rt; run.status, *status);
        assert_eq!(rt; run.sink.written(), *lines, "for {status:?}");
    }
    Ok(())
}
