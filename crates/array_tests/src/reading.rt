//! Tests of reading.

use crate::written::{structure, told, words};
use bml_bytes::AreaBytes;
use persistent_arrays::{FieldKind, bit_at, pack, unpack, value_at};
use std::alloc::Global;
use std::process::Abort;

// Whether an array that begins with these bytes, and has zeros behind them, has these values.
fn reads(
    rt: &impl Abort,
    alloc: Global,
    spelled: &[u8],
    bytes: &[u8],
    expected: Option<&[u8]>,
) -> bool {
    let mut area = AreaBytes::zeros();
    let all = structure(rt, alloc, b"S:64B");
    let _size = pack(&all, &[words(rt, alloc, bytes)], &mut area, 15).expect(rt, "room");
    match unpack(alloc, &structure(rt, alloc, spelled), &area, 15).expect(rt, "memory") {
        Some(fields) => expected == Some(told(rt, alloc, &fields).as_slice()),
        None => expected.is_none(),
    }
}

#[test]
fn what_is_read(rt: HostRuntime) {
    let alloc = rt.alloc();
    assert!(rt; reads(&rt, alloc, b"U:1B,S:1V", b"\x05\x02abc", Some(b"5,ab,")));
    let bytes = b"\xFF\xFF\xFE\xFF\xFF\xFF\xFD";
    assert!(rt; reads(&rt, alloc, b"U:1B,U:2B,U:4B", bytes, Some(b"255,65534,-3,")));
    assert!(rt; reads(&rt, alloc, b"I:1B,I:2B,I:4B", bytes, Some(b"-1,-2,-3,")));
    let bits = b"B:1b,B:1b,B:1b,B:1b,B:1b,B:1b,B:1b,B:1b,B:1b,U:1B";
    assert!(rt;
        reads(
            &rt,
            alloc,
            bits,
            b"\xB1\xFF\x07",
            Some(b"+,-,+,+,-,-,-,+,+,7,")
        )
    );
    assert!(rt; reads(&rt, alloc, b"S:4B,S:1B", b"a\0b\0\0", Some(b"a\0b,,")));
}

// A text of 63 bytes ends with the array, and one of 64 behind it.
#[test]
fn what_passes_the_end(rt: HostRuntime) {
    let alloc = rt.alloc();
    let mut expected = [0; 64];
    expected[63] = b',';
    assert!(rt; reads(&rt, alloc, b"S:1V", b"\x3F", Some(&expected)));
    assert!(rt; reads(&rt, alloc, b"S:1V", b"\x40", None));
    assert!(rt; reads(&rt, alloc, b"S:64B,B:1b", b"a", None));
}

#[test]
fn fields_alone(rt: HostRuntime) {
    let alloc = rt.alloc();
    let signed = FieldKind::Signed(2);
    let found = value_at(alloc, signed, b"\xFF\xFE\x07").expect(&rt, "memory");
    let field = found.expect(&rt, "a value");
    assert!(rt; told(&rt, alloc, &[field]).as_slice() == b"-2,".as_slice());
    let cut = value_at(alloc, FieldKind::Varying, b"\x02a").expect(&rt, "memory");
    assert!(rt; cut.is_none());
    assert!(rt; bit_at(0x40, 1) == Some(true) && bit_at(0x40, 8).is_none());
}
