//! The area that a run keeps, and a keeper that fails.

use crate::runs::{Ports, REPLAY, SOUND, replayed};
use replay_run::Status;
use std::test::Fail;
use test_streams::{DOCUMENT, Entry, Sent, Stream};

// A document that writes 5 into the first byte of the area when it is loaded.
const WRITER: &[u8] = b"<bml><head><script><![CDATA[var l = new Array(); l[0] = 5; \
    browser.writePersistentArray(\"nvram://~/0\", \"U:1B\", l);]]></script></head><body/></bml>";

const ANNOUNCED: Sent = Sent::Indication(1, 400, &[Entry(0, 1, 146, DOCUMENT)]);

const LINES: &[u8] = b"module 40 0000 01 146\nload /40/0000\nkept nvram://~/0 1\nend 2\n";

// The ports, the record, how the run ends, the lines that it has written by then, and the first
// byte of what is kept then, or none.
const ROWS: &[(Ports, &[u8], Status, &[u8], Option<u8>)] = &[
    (SOUND, b"all\n", Status::Done, LINES, Some(5)),
    (
        Ports {
            keeping: 1,
            ..SOUND
        },
        b"all\n",
        Status::KeepFault,
        b"",
        None,
    ),
    (
        Ports {
            keeping: 2,
            ..SOUND
        },
        b"all\n",
        Status::KeepFault,
        b"",
        None,
    ),
    (
        Ports { write: 1, ..SOUND },
        b"all\n",
        Status::WriteFault,
        b"",
        Some(5),
    ),
    (
        Ports {
            piece: 1,
            record_piece: 1,
            write_piece: 1,
            keeping: 2,
            ..SOUND
        },
        b"all\n",
        Status::KeepFault,
        b"",
        None,
    ),
    (
        Ports {
            piece: 1,
            record_piece: 1,
            write_piece: 1,
            write: 1,
            ..SOUND
        },
        b"all\n",
        Status::WriteFault,
        b"",
        Some(5),
    ),
    (
        Ports {
            kept: b"12345",
            ..SOUND
        },
        b"key x\n",
        Status::BadArea { length: 5 },
        b"",
        Some(b'1'),
    ),
    (
        Ports {
            stream_read: 1,
            ..SOUND
        },
        b"key x\n",
        Status::BadRecord { line: 1 },
        b"",
        None,
    ),
    (
        Ports {
            piece: 1,
            record_piece: 1,
            write_piece: 1,
            stream_read: 1,
            ..SOUND
        },
        b"key x\n",
        Status::BadRecord { line: 1 },
        b"",
        None,
    ),
];

// A turn that changes the area has it stored before its lines are written.
#[test]
fn areas_that_are_kept(rt: HostRuntime) -> Result<(), Fail> {
    let stream = Stream::of_sections(rt.alloc(), &[ANNOUNCED, Sent::Block(0, 1, 0, WRITER)])?;
    for (ports, record, status, lines, kept) in ROWS {
        let run = replayed(rt.alloc(), REPLAY, stream.bytes(), record, *ports)?;
        assert_eq!(rt; run.status, *status);
        assert_eq!(rt; run.sink.written(), *lines, "for {status:?}");
        assert_eq!(rt; run.keeper.kept().first().copied(), *kept, "for {status:?}");
    }
    Ok(())
}
