//! Tests of `bml_bytes`: EUC-JP as its tables have it, numbers as printf writes them.

use bml_bytes::*;
use std::test::Fail;

// Letters, characters of two bytes, and bytes that are none with the next one.
const BYTES: &[u8] = b"bm\xA4\xA2!\x8E\xB1\xA0\xFE\xFF\xA1\xA0\xA4\x8E\xB1\x8EA\x8E";

const CODES: &[u16] = &[
    0x62, 0x6D, 0xA4A2, 0x21, 0x8EB1, 0xA0, 0xFE, 0xFF, 0xA1, 0xA0, 0xA4, 0x8EB1, 0x8E, 0x41, 0x8E,
];

// Signs beside letters have no case.
#[test]
fn texts(rt: HostRuntime) -> Result<(), Fail> {
    let text = Text::of_bytes(rt.alloc(), BYTES)?;
    assert!(rt; text.codes() == CODES);
    assert!(rt; Text::of_codes(rt.alloc(), CODES)? == text.share()?);
    let mut out = Vec::new(rt.alloc());
    text.push_bytes(&mut out)?;
    assert!(rt; out.as_slice() == BYTES);
    let word = Text::of_bytes(rt.alloc(), b"[@z`{")?;
    assert!(rt; word.is_word_in_any_case("[@Z`{") && !word.is_word("[@Z`{"));
    Ok(())
}

#[test]
fn what_is_printed(rt: HostRuntime) -> Result<(), Fail> {
    let mut out = Vec::new(rt.alloc());
    for value in [0, 1024, -20, i64::MAX, i64::MIN] {
        push_decimal(value, &mut out)?;
        out.push(b' ')?;
    }
    push_hex(0xABC, 4, &mut out)?;
    push_count(u64::MAX, &mut out)?;
    push_line_end(&mut out)?;
    let text = Text::of_bytes(rt.alloc(), b"\x1F !~\x7F\x80%\xA4\xA2\n")?;
    Escapes::Controls.push(&text, &mut out)?;
    Escapes::ControlsAndSpace.push(&text, &mut out)?;
    let expected: &[u8] = b"0 1024 -20 9223372036854775807 -9223372036854775808 \
        0abc18446744073709551615\n\
        %1F !~%7F\x80%25\xA4\xA2%0A%1F%20!~%7F\x80%25\xA4\xA2%0A";
    assert!(rt; out.as_slice() == expected);
    Ok(())
}

#[test]
fn what_is_read(rt: HostRuntime) {
    assert!(rt; read_decimal(b"0000000012") == Some(12));
    assert!(rt; read_decimal(b"00000000012").is_none());
    assert!(rt; read_decimal(b"4294967295") == Some(u32::MAX));
    assert!(rt; read_decimal(b"4294967296").is_none());
    assert!(rt; read_decimal(b"").is_none() && read_decimal(b"1/:").is_none());
}

#[test]
fn what_is_read_of_fields(rt: HostRuntime) {
    let mut cursor = Cursor::new(b"\x47\x01\xFF\x00\x10\x20\x80\x00\x00\x01\xAB\xCD");
    assert!(rt; cursor.u8() == Some(0x47) && cursor.u16() == Some(0x01FF));
    assert!(rt; cursor.u24() == Some(0x1020) && cursor.u32() == Some(0x8000_0001));
    assert!(rt; cursor.take(3).is_none() && cursor.left() == b"\xAB\xCD".as_slice());
    assert!(rt; cursor.take(2) == Some(b"\xAB\xCD".as_slice()));
}
