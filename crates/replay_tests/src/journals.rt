//! Runs over a journal on a disk in memory.

use crate::runs::replayed_over;
use bml_bytes::AreaBytes;
use bml_ports::{Keeper, MemoryKeeper, NoMemory};
use nv_journal::{Journal, MemoryDisk};
use replay_run::Status;
use std::alloc::Global;
use std::test::Fail;
use test_streams::{DOCUMENT, Entry, Sent, Stream};

// A document that writes 5 and a text to the first array when it is loaded.
const WRITER: &[u8] = b"<bml><head><script><![CDATA[var l = new Array(); l[0] = 5; l[1] = 'ab'; \
    browser.writePersistentArray(\"nvram://~/0\", \"U:1B,S:1V\", l);]]></script></head>\
    <body/></bml>";

const ANNOUNCED: Sent = Sent::Indication(1, 400, &[Entry(0, 1, 164, DOCUMENT)]);

const LINES: &[u8] = b"module 40 0000 01 164\nload /40/0000\nkept nvram://~/0 4\nend 3\n";

const AREA: &[u8] = b"\x05\x02ab\0";

// The calls on the disk that a load and a store make.
const CALLS: u64 = 10;

// A journal on a disk without bytes, of which one call fails, or none where its number is 0.
fn empty_journal(
    alloc: Global,
    failing: u64,
) -> Result<Journal<MemoryDisk, MemoryKeeper>, NoMemory> {
    let disk = MemoryDisk::new(alloc, Vec::new(alloc), vec![in alloc; failing]?, 20)?;
    let older = MemoryKeeper::new(Vec::new(alloc), Vec::new(alloc));
    Ok(Journal::new(disk, older))
}

#[test]
fn an_area_in_a_journal(rt: HostRuntime) -> Result<(), Fail> {
    let alloc = rt.alloc();
    let stream = Stream::of_sections(alloc, &[ANNOUNCED, Sent::Block(0, 1, 0, WRITER)])?;
    let mut journal = empty_journal(alloc, 0)?;
    let (status, sink) = replayed_over(alloc, stream.bytes(), b"all\n", &mut journal)?;
    assert_eq!(rt; (status, sink.written()), (Status::Done, LINES));
    let bytes = journal.disk().bytes();
    assert_eq!(rt; bytes.first_chunk::<2>(), Some(&[1, 0]));
    assert!(rt; bytes[2..].starts_with(AREA));
    Ok(())
}

// Whether the next run begins with nothing, or with the area that was stored, whatever a stop
// leaves.
fn begins_well(alloc: Global, disk: &MemoryDisk) -> Result<bool, NoMemory> {
    for pick in 0..16 {
        let disk = MemoryDisk::new(alloc, disk.crashed(alloc, pick)?, Vec::new(alloc), 20)?;
        let older = MemoryKeeper::new(Vec::new(alloc), Vec::new(alloc));
        let mut area = AreaBytes::zeros();
        let loaded = Journal::new(disk, older).load(&mut area);
        if loaded != Ok(0) && !area.bytes().starts_with(AREA) {
            return Ok(false);
        }
    }
    Ok(true)
}

// Where a call fails the run ends without the lines of its turn.
#[test]
fn stops_of_a_run(rt: HostRuntime) -> Result<(), Fail> {
    let alloc = rt.alloc();
    let stream = Stream::of_sections(alloc, &[ANNOUNCED, Sent::Block(0, 1, 0, WRITER)])?;
    for failing in 1..=CALLS {
        let mut journal = empty_journal(alloc, failing)?;
        let (status, sink) = replayed_over(alloc, stream.bytes(), b"all\n", &mut journal)?;
        assert_eq!(rt; status, Status::KeepFault, "for call {failing}");
        assert_eq!(rt; sink.written(), b"".as_slice(), "for call {failing}");
        assert!(rt; begins_well(alloc, journal.disk())?, "for call {failing}");
    }
    Ok(())
}
