//! A stream that is read in pieces: whatever their lengths, the lines are the same.

use crate::runs::{Ports, REPLAY, SOUND, replayed};
use replay_run::Status;
use std::test::Fail;
use test_streams::Stream;

// A section that begins with the last byte of a packet, in pieces of one byte and of many.
#[test]
fn streams_in_pieces(rt: HostRuntime) -> Result<(), Fail> {
    let alloc = rt.alloc();
    let stream = Stream::with_pointer(alloc)?;
    let lines: &[u8] = b"module 40 0001 01 529\nend 5\n";
    for piece in [1, 4096] {
        let ports = Ports { piece, ..SOUND };
        let run = replayed(alloc, REPLAY, stream.bytes(), b"all\n", ports)?;
        assert_eq!(rt; run.status, Status::Done, "in pieces of {piece}");
        assert_eq!(rt; run.sink.written(), lines, "in pieces of {piece}");
    }
    Ok(())
}
