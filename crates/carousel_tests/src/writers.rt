//! Tests of `carousel_writer`: what it writes, byte for byte, and what it refuses.

use bml_bytes::{NoMemory, Text};
use carousel_writer::*;
use multipart_entities::entity_parts;
use std::alloc::Global;
use std::test::Fail;
use test_streams::{Entry, Sent, Stream};

// The module 0001 of one version and one block size, on PID 256.
fn files(alloc: Global, bytes: &[u8]) -> Result<Files, NoMemory> {
    let mut modules = Vec::new(alloc);
    modules.push(FileModule {
        id: 1,
        version: 1,
        media: Text::of_bytes(alloc, b"")?,
        bytes: Vec::from_slice(alloc, bytes)?,
    })?;
    Ok(Files {
        pid: 256,
        transaction: 1,
        download: 1,
        block_size: 4,
        rounds: 1,
        modules,
    })
}

fn part(alloc: Global, name: &[u8], media: &[u8], bytes: &[u8]) -> Result<FilePart, NoMemory> {
    Ok(FilePart {
        name: Text::of_bytes(alloc, name)?,
        media: Text::of_bytes(alloc, media)?,
        bytes: Vec::from_slice(alloc, bytes)?,
    })
}

// Whether the two parts `x`, which is empty, and this one are refused.
fn is_refused(
    alloc: Global,
    boundary: &[u8],
    name: &[u8],
    media: &[u8],
    bytes: &[u8],
) -> Result<bool, NoMemory> {
    let boundary = Text::of_bytes(alloc, boundary)?;
    let mut parts = Vec::new(alloc);
    parts.push(part(alloc, b"x", b"", b"")?)?;
    parts.push(part(alloc, name, media, bytes)?)?;
    match write_entity(alloc, &boundary, parts.as_slice()) {
        Ok(_) => Ok(false),
        Err(WriteRefusal::BadFiles) => Ok(true),
        Err(WriteRefusal::NoMemory) => Err(NoMemory),
    }
}

// The sections of a stream with the module of ten bytes, in blocks of four, written out by hand.
const SECTIONS: [&[u8]; 4] = [
    b"\x3B\x80\x33\x00\x00\x00\x00\x00\
        \x11\x03\x10\x02\x00\x00\x00\x01\x00\x00\x00\x1E\
        \x00\x00\x00\x01\x00\x04\x00\x00\x00\x00\x00\x00\x00\x00\x00\x00\x00\x00\
        \x00\x01\x00\x01\x00\x00\x00\x0A\x01\x00\x00\x00\
        \x20\x9B\x0D\x67",
    b"\x3C\x80\x1F\x00\x00\x00\x00\x00\
        \x11\x03\x10\x03\x00\x00\x00\x01\x00\x00\x00\x0A\
        \x00\x01\x01\x00\x00\x00abcd\
        \x37\xB1\x48\x9B",
    b"\x3C\x80\x1F\x00\x00\x00\x00\x00\
        \x11\x03\x10\x03\x00\x00\x00\x01\x00\x00\x00\x0A\
        \x00\x01\x01\x00\x00\x01efgh\
        \x75\x03\x6B\xC2",
    b"\x3C\x80\x1D\x00\x00\x00\x00\x00\
        \x11\x03\x10\x03\x00\x00\x00\x01\x00\x00\x00\x08\
        \x00\x01\x01\x00\x00\x02ij\
        \x77\x39\xBB\xD1",
];

// Appends the packet on PID 256 with this counter that has a section alone, which fits into it.
fn push_packet_by_hand(out: &mut Vec<u8>, counter: u8, section: &[u8]) -> Result<(), NoMemory> {
    out.extend_from_slice(b"\x47\x41\x00")?;
    out.push(0x10 | counter)?;
    out.push(0)?;
    out.extend_from_slice(section)?;
    for _stuffing in section.len()..183 {
        out.push(0xFF)?;
    }
    Ok(())
}

#[test]
fn a_stream_is_written_byte_for_byte(rt: HostRuntime) -> Result<(), Fail> {
    let alloc = rt.alloc();
    let mut wanted = Vec::new(alloc);
    push_packet_by_hand(&mut wanted, 0, SECTIONS[0])?;
    push_packet_by_hand(&mut wanted, 1, SECTIONS[1])?;
    push_packet_by_hand(&mut wanted, 2, SECTIONS[2])?;
    push_packet_by_hand(&mut wanted, 3, SECTIONS[3])?;
    let bytes = write_stream(alloc, &files(alloc, b"abcdefghij")?)?;
    assert!(rt; bytes.as_slice() == wanted.as_slice());
    Ok(())
}

#[test]
fn rounds_and_media_are_sent(rt: HostRuntime) -> Result<(), Fail> {
    let alloc = rt.alloc();
    let mut files = files(alloc, &[b'a'; 450])?;
    files.block_size = 200;
    files.rounds = 2;
    files.modules.push(FileModule {
        id: 2,
        version: 9,
        media: Text::of_bytes(alloc, b"a/b")?,
        bytes: Vec::from_slice(alloc, b"xyz")?,
    })?;
    let mut stream = Stream::new(alloc);
    for _round in 0..2 {
        let entries = &[Entry(1, 1, 450, b""), Entry(2, 9, 3, b"\x01\x03a/b")];
        stream.push_sent(&Sent::Indication(1, 200, entries))?;
        stream.push_sent(&Sent::Block(1, 1, 0, &[b'a'; 200]))?;
        stream.push_sent(&Sent::Block(1, 1, 1, &[b'a'; 200]))?;
        stream.push_sent(&Sent::Block(1, 1, 2, &[b'a'; 50]))?;
        stream.push_sent(&Sent::Block(2, 9, 0, b"xyz"))?;
    }
    let bytes = write_stream(alloc, &files)?;
    assert!(rt; bytes.as_slice() == stream.bytes());
    Ok(())
}

#[test]
fn an_entity_has_its_parts(rt: HostRuntime) -> Result<(), Fail> {
    let alloc = rt.alloc();
    let mut parts = Vec::new(alloc);
    parts.push(part(
        alloc,
        b"startup.bml",
        b"text/X-arib-bml; charset=\"euc-jp\"",
        b"<a>\n</a>",
    )?)?;
    parts.push(part(alloc, b"\xA4\xA2", b"", b"\r\n-\r\n--\r\n--b\r")?)?;
    let boundary = Text::of_bytes(alloc, b"b1")?;
    let bytes = write_entity(alloc, &boundary, parts.as_slice())?;
    let wanted: &[u8] =
        b"Content-Type: multipart/mixed; boundary=\"b1\"\r\n\r\n--b1\r\nContent-Type: text/X-arib-bml; charset=\"euc-jp\"\r\nContent-Location: startup.bml\r\n\r\n<a>\n</a>\r\n--b1\r\nContent-Type: \r\nContent-Location: \xA4\xA2\r\n\r\n\r\n-\r\n--\r\n--b\r\r\n--b1--\r\n";
    assert!(rt; bytes.as_slice() == wanted);
    let found = entity_parts(alloc, bytes.as_slice())?;
    let name = Text::of_bytes(alloc, b"\xA4\xA2")?;
    let (start, end) = found.find(&name).ok_or("no part")?;
    assert!(rt; bytes.as_slice().get(start..end) == Some(b"\r\n-\r\n--\r\n--b\r".as_slice()));
    Ok(())
}

#[test]
fn bad_files_are_refused(rt: HostRuntime) -> Result<(), Fail> {
    let alloc = rt.alloc();
    let mut files = files(alloc, b"abcdefghij")?;
    files.rounds = 0;
    assert!(rt; write_stream(alloc, &files).err() == Some(WriteRefusal::BadFiles));
    files.rounds = 1;
    files.block_size = 0;
    assert!(rt; write_stream(alloc, &files).err() == Some(WriteRefusal::BadFiles));
    files.block_size = 4001;
    assert!(rt; write_stream(alloc, &files).err() == Some(WriteRefusal::BadFiles));
    files.block_size = 4;
    files.pid = 15;
    assert!(rt; write_stream(alloc, &files).err() == Some(WriteRefusal::BadFiles));
    files.pid = 8191;
    assert!(rt; write_stream(alloc, &files).err() == Some(WriteRefusal::BadFiles));
    files.pid = 256;
    files.modules.push(FileModule {
        id: 1,
        version: 1,
        media: Text::of_bytes(alloc, b"")?,
        bytes: Vec::new(alloc),
    })?;
    assert!(rt; write_stream(alloc, &files).err() == Some(WriteRefusal::BadFiles));
    assert!(rt; !is_refused(alloc, b"b1", b"y", b"a b", b"--b")?);
    assert!(rt; is_refused(alloc, b"b1", b"y", b"", b"ab--b1cd")?);
    assert!(rt; is_refused(alloc, b"b1", b"x", b"", b"")?);
    assert!(rt; is_refused(alloc, b"b1", b"a/b", b"", b"")?);
    assert!(rt; is_refused(alloc, b"b-", b"y", b"", b"")?);
    Ok(())
}
