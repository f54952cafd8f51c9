//! Tests of packing.

use crate::written::{structure, words};
use bml_bytes::AreaBytes;
use persistent_arrays::{Field, pack};
use std::alloc::Global;
use std::process::Abort;

// Whether these bytes are written to the array 1 of an area of zeros, and nothing else is.
fn writes(
    rt: &impl Abort,
    alloc: Global,
    spelled: &[u8],
    fields: &[Field],
    expected: &[u8],
) -> bool {
    let structure = structure(rt, alloc, spelled);
    let mut area = AreaBytes::zeros();
    let Some(size) = pack(&structure, fields, &mut area, 1) else {
        return false;
    };
    let (before, array) = area.bytes().split_at(64);
    usize::from(size) == expected.len()
        && array.starts_with(expected)
        && is_zero(before)
        && is_zero(&array[expected.len()..])
}

// Whether nothing is written.
fn refuses(rt: &impl Abort, alloc: Global, spelled: &[u8], fields: &[Field]) -> bool {
    let structure = structure(rt, alloc, spelled);
    let mut area = AreaBytes::zeros();
    pack(&structure, fields, &mut area, 1).is_none() && is_zero(area.bytes())
}

fn is_zero(bytes: &[u8]) -> bool {
    bytes.iter().all(|byte| *byte == 0)
}

#[test]
fn what_is_written(rt: HostRuntime) {
    let alloc = rt.alloc();
    let row = [Field::Whole(5), words(&rt, alloc, b"ab")];
    assert!(rt; writes(&rt, alloc, b"U:1B,S:1V", &row, b"\x05\x02ab"));
    let low = [Field::Bit(true), Field::Whole(300), Field::Bit(true)];
    assert!(rt; writes(&rt, alloc, b"B:1b,U:1B,B:1b", &low, b"\x80\x2C\x80"));
    let signed = [Field::Whole(-1), Field::Whole(-2), Field::Whole(-3)];
    assert!(rt;
        writes(
            &rt,
            alloc,
            b"I:1B,I:2B,I:4B",
            &signed,
            b"\xFF\xFF\xFE\xFF\xFF\xFF\xFD"
        )
    );
    let filled = [
        words(&rt, alloc, b"ab"),
        words(&rt, alloc, b"\xA4\xA2"),
        words(&rt, alloc, b""),
    ];
    assert!(rt; writes(&rt, alloc, b"S:4B,S:2B,S:1V", &filled, b"ab\0\0\xA4\xA2\0"));
}

// Nine bits take two bytes, and what follows them begins a byte.
#[test]
fn nine_bits(rt: HostRuntime) {
    let fields = [
        Field::Bit(true),
        Field::Bit(false),
        Field::Bit(true),
        Field::Bit(true),
        Field::Bit(false),
        Field::Bit(false),
        Field::Bit(false),
        Field::Bit(true),
        Field::Bit(true),
        Field::Whole(0x1234),
    ];
    let spelled = b"B:1b,B:1b,B:1b,B:1b,B:1b,B:1b,B:1b,B:1b,B:1b,U:2B";
    assert!(rt; writes(&rt, rt.alloc(), spelled, &fields, b"\xB1\x80\x12\x34"));
}

#[test]
fn what_does_not_fit(rt: HostRuntime) {
    let alloc = rt.alloc();
    let three = [words(&rt, alloc, b"abc")];
    assert!(rt; refuses(&rt, alloc, b"S:2B", &three) && refuses(&rt, alloc, b"U:4B", &three));
    assert!(rt; refuses(&rt, alloc, b"S:1B", &[words(&rt, alloc, b"\xA4\xA2")]));
    let one = [Field::Whole(1)];
    assert!(rt; refuses(&rt, alloc, b"B:1b", &one) && refuses(&rt, alloc, b"S:1V", &one));
    assert!(rt; refuses(&rt, alloc, b"U:1B,U:1B", &one) && refuses(&rt, alloc, b"U:1B", &[]));
    assert!(rt; refuses(&rt, alloc, b"U:1B", &[Field::Whole(1), Field::Whole(2)]));
    let most = [
        words(&rt, alloc, &[b'a'; 63]),
        Field::Bit(true),
        Field::Whole(1),
    ];
    assert!(rt; refuses(&rt, alloc, b"S:63B,B:1b,U:1B", &most));
    assert!(rt; refuses(&rt, alloc, b"S:1V", &[words(&rt, alloc, &[b'a'; 64])]));
}
