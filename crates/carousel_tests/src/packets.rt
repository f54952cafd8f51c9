//! Tests of `ts_packets`, `ts_sections` and `section_writer`: a packet and a section written out by hand, and a
//! stream of which this page says which packets and sections it has.

use section_writer::{SectionHead, push_section, section_of};
use std::alloc::{AllocError, Global};
use std::test::Fail;
use test_streams::Stream;
use ts_packets::{Cut, Cutter, Packet};
use ts_sections::{is_intact, sections_of};

#[test]
fn reads_the_header(rt: HostRuntime) -> Result<(), Fail> {
    let mut bytes = [0xAA; 188];
    bytes[0] = 0x47;
    bytes[1] = 0x5F;
    bytes[2] = 0xFE;
    bytes[3] = 0x3D;
    bytes[4] = 182;
    let packet = Packet::from_bytes(&bytes);
    assert_eq!(rt; (packet.pid(), packet.counter()), (0x1FFE, 13));
    assert_eq!(rt;
        [
            packet.starts_unit(),
            packet.has_error(),
            packet.is_scrambled(),
            packet.is_readable()
        ],
        [true, false, false, true]
    );
    assert!(rt; packet.payload() == Some([0xAA].as_slice()));
    Ok(())
}

// The packets of a stream of at most 3,904 bytes.
fn packets_of(alloc: Global, stream: &[u8]) -> Result<Vec<Packet>, AllocError> {
    let mut cutter = Cutter::new();
    let _taken = cutter.feed(stream);
    cutter.finish();
    let mut packets = Vec::new(alloc);
    for _ in 0..8 {
        if let Cut::Packet(packet) = cutter.next() {
            packets.push(packet)?;
        }
    }
    Ok(packets)
}

// The sections of a DII and of two blocks, of 519 and of 10 bytes, in five packets: the last one
// begins with the last byte of the fourth packet.
#[test]
fn packets_and_their_sections(rt: HostRuntime) -> Result<(), Fail> {
    let stream = Stream::with_pointer(rt.alloc())?;
    let packets = packets_of(rt.alloc(), stream.bytes())?;
    let sections = sections_of(rt.alloc(), packets.as_slice())?;
    assert_eq!(rt; (packets.len(), sections.len()), (5, 3));
    for section in sections.iter() {
        assert!(rt; is_intact(section.as_slice()));
    }
    Ok(())
}

// A PAT of version 3, in force, with one program; its CRC_32 is from another program.
const ASSOCIATION: [u8; 16] = [
    0x00, 0x80, 0x0D, 0x12, 0x34, 0x07, 0x00, 0x00, 0x00, 0x01, 0xE1, 0xF0, 0xA7, 0xA8, 0x94, 0x60,
];

// The packet behind the one with counter 15 has counter 0.
#[test]
fn a_section_in_its_packet(rt: HostRuntime) -> Result<(), Fail> {
    let alloc = rt.alloc();
    let head = SectionHead {
        table_id: 0,
        extension: 0x1234,
        version: 3,
        is_current: true,
    };
    let section = section_of(alloc, head, &[0x00, 0x01, 0xE1, 0xF0])?;
    assert!(rt; section.as_slice() == ASSOCIATION.as_slice());
    let mut packet = Vec::new(alloc);
    let next = push_section(alloc, &mut packet, 0x1ABC, 15, section.as_slice())?;
    assert!(rt; next == 0 && packet.len() == 188);
    assert!(rt; packet.as_slice().get(..5) == Some([0x47, 0x5A, 0xBC, 0x1F, 0x00].as_slice()));
    assert!(rt; packet.as_slice().get(5..21) == Some(ASSOCIATION.as_slice()));
    assert!(rt; packet.as_slice().get(21) == Some(&0xFF));
    Ok(())
}
