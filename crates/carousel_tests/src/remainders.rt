//! Tests of the CRC_32 of `ts_sections`.

use ts_sections::{crc_of, is_intact};

// A program association section with one programme, as it is sent.
const ASSOCIATION: [u8; 16] = [
    0x00, 0xB0, 0x0D, 0x00, 0x01, 0xC1, 0x00, 0x00, 0x00, 0x01, 0xF0, 0x00, 0x2A, 0xB1, 0x04, 0xB2,
];

// The check value of CRC-32/MPEG-2, the start itself, and the section above, as it is sent and with
// a bit flipped.
#[test]
fn remainders(rt: HostRuntime) {
    assert_eq!(rt; crc_of(b"123456789"), 0x0376_E6E7);
    assert_eq!(rt; crc_of(b""), 0xFFFF_FFFF);
    assert_eq!(rt; crc_of(&ASSOCIATION[..12]), 0x2AB1_04B2);
    assert!(rt; is_intact(&ASSOCIATION));
    let mut flipped = ASSOCIATION;
    flipped[11] = 0x01;
    assert!(rt; !is_intact(&flipped));
}
