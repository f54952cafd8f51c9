//! Tests of `psi_tables`: tables written out by hand after ISO/IEC 13818-1, 2.4.4.

use psi_tables::*;
use std::test::Fail;

// A PAT with program 1 on PID 496.
const PAT: [u8; 16] = [
    // the section's header: current_next_indicator 1, section_number 0
    0x00, 0xB0, 0x0D, 0x00, 0x01, 0xC1, 0x00, 0x00,
    // program_number, PID
    0x00, 0x01, 0xE1, 0xF0,
    // room for CRC_32, which isn't read here
    0x00, 0x00, 0x00, 0x00,
];

// The PMT of program 1: one stream of type 0x0D on PID 256 with component_tag 0x40.
const PMT: [u8; 24] = [
    // the section's header, with program_number
    0x02, 0xB0, 0x15, 0x00, 0x01, 0xC1, 0x00, 0x00,
    // PCR_PID, program_info_length
    0xFF, 0xFF, 0xF0, 0x00,
    // stream_type, elementary_PID, ES_info_length
    0x0D, 0xE1, 0x00, 0xF0, 0x03,
    // the stream identifier descriptor
    0x52, 0x01, 0x40,
    // room for CRC_32
    0x00, 0x00, 0x00, 0x00,
];

#[test]
fn one_program_from_its_tables(rt: HostRuntime) -> Result<(), Fail> {
    let entries = read_pat(rt.alloc(), &PAT)?;
    let entry = PatEntry {
        program: 1,
        pid: 496,
    };
    assert!(rt; entries.as_slice() == [entry].as_slice());
    let pmt = read_pmt(rt.alloc(), &PMT)?;
    let stream = PmtStream {
        kind: 0x0D,
        pid: 256,
        component: Some(0x40),
    };
    assert!(rt; pmt.program == 1 && pmt.streams.as_slice() == [stream].as_slice());
    Ok(())
}
