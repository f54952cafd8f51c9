//! Tests of `dsmcc_messages`: messages written out by hand after ISO/IEC 13818-6, 7.2, 7.3 and 9.2.

use dsmcc_messages::*;
use std::test::Fail;

// A DDB with adaptation bytes.
const DDB: [u8; 34] = [
    // the section's header
    0x3C, 0xB0, 0x1F, 0x00, 0x00, 0xC1, 0x00, 0x00,
    // the message's header: 0x11, 0x03, messageId, downloadId, reserved, adaptationLength,
    // messageLength
    0x11, 0x03, 0x10, 0x03, 0x00, 0x00, 0x00, 0x01, 0x00, 0x03, 0x00, 0x0A,
    // adaptation bytes
    0x09, 0x09, 0x09,
    // moduleId, moduleVersion, reserved, blockNumber
    0x01, 0x02, 0x03, 0x00, 0x04, 0x05,
    // the block
    0x7A,
    // CRC_32
    0xF6, 0x81, 0x58, 0xCC,
];

// A DII with adaptation bytes and two entries of module 1.
pub const DII: [u8; 74] = [
    // the section's header
    0x3B, 0xB0, 0x47, 0x00, 0x00, 0xC1, 0x00, 0x00,
    // the message's header, with the transactionId
    0x11, 0x03, 0x10, 0x02, 0x00, 0x00, 0x00, 0x07, 0x00, 0x02, 0x00, 0x32,
    // adaptation bytes
    0x05, 0x05,
    // downloadId, blockSize, windowSize, ackPeriod, tCDownloadWindow, tCDownloadScenario
    0x00, 0x00, 0x00, 0x01, 0x00, 0x04, 0x00, 0x00, 0x00, 0x00, 0x00, 0x00, 0x00, 0x00, 0x00, 0x00,
    // compatibility length, numberOfModules
    0x00, 0x00, 0x00, 0x03,
    // module 1: moduleId, moduleSize, moduleVersion, infoLength, info
    0x00, 0x01, 0x00, 0x00, 0x00, 0x0A, 0x01, 0x02, 0xC2, 0x00,
    // module 1 once more
    0x00, 0x01, 0x00, 0x00, 0x00, 0x14, 0x02, 0x00,
    // module 2
    0x00, 0x02, 0x01, 0x02, 0x03, 0x04, 0x03, 0x00,
    // privateDataLength
    0x00, 0x00,
    // CRC_32
    0x71, 0x31, 0xFB, 0x48,
];

// An entry's size, version and info.
fn fields(entry: Option<&Entry>) -> Option<(u32, u8, &[u8])> {
    match entry {
        Some(entry) => Some((entry.size, entry.version, entry.info.as_slice())),
        None => None,
    }
}

// Of two entries with one number the first is found.
#[test]
fn indications(rt: HostRuntime) -> Result<(), Fail> {
    let dii = read_dii(rt.alloc(), &DII)?;
    assert_eq!(rt; (dii.transaction, dii.download, dii.block_size), (7, 1, 4));
    assert_eq!(rt; dii.entries.as_slice().len(), 3);
    assert!(rt; fields(dii.entry(1)) == Some((10, 1, [0xC2, 0x00].as_slice())));
    assert!(rt; fields(dii.entry(2)) == Some((0x0102_0304, 3, [].as_slice())));
    Ok(())
}

// What stands in a section behind a shorter message is unread.
#[test]
fn blocks_and_descriptors(rt: HostRuntime) -> Result<(), Fail> {
    let block = Ddb {
        download: 1,
        module: 0x0102,
        version: 3,
        number: 0x0405,
        block: b"z",
    };
    assert!(rt; read_ddb(&DDB) == Ok(block));
    let mut shorter = DDB;
    shorter[19] = 9;
    assert!(rt; read_ddb(&shorter)?.block.is_empty());
    let info = b"\x01\x03abc\xC2\x00\x01\x01d";
    assert!(rt; find_descriptor(info, MEDIA_TYPE)? == Some(b"abc".as_slice()));
    Ok(())
}
