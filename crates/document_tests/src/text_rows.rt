//! Tests of `text_lines`: the rows of lines as a display list has them, each worked out by hand.

use crate::small_documents::word;
use std::alloc::Global;
use std::process::Abort;
use text_lines::*;

// Whether the lines come to these lines with their rows.
fn come_to(
    rt: &impl Abort,
    alloc: Global,
    lines: &[u8],
    spacing: u32,
    align: Align,
    with_rows: &[u8],
) -> bool {
    let mut out = Vec::new(alloc);
    let added = add_rows(lines, spacing, align, &mut out);
    assert!(rt; added.is_ok());
    out.as_slice() == with_rows
}

#[test]
fn rows_of_lines(rt: HostRuntime) {
    let alloc = rt.alloc();
    // as many codes as fit with the space between them, and none behind the last
    let rows: &[u8] = b"text 10 0 26 0 7 24 abcd\nrow 10 0 ab\nrow 10 24 cd\n";
    let lines: &[u8] = b"text 10 0 26 0 7 24 abcd\n";
    assert!(rt; come_to(&rt, alloc, lines, 2, Align::Right, rows));
    // a code 10 ends a row and is in none, and rows are counted on over it
    let rows: &[u8] =
        b"text 10 0 30 0 7 24 \xA4\xA2a%0Ab\nrow 10 0 \xA4\xA2\nrow 10 24 a\nrow 10 48 b\n";
    let lines: &[u8] = b"text 10 0 30 0 7 24 \xA4\xA2a%0Ab\n";
    assert!(rt; come_to(&rt, alloc, lines, 0, Align::Left, rows));
    // in a box without width each code is a row
    let rows: &[u8] = b"text 0 0 0 0 7 24 ab\nrow 0 0 a\nrow 0 24 b\n";
    assert!(rt; come_to(&rt, alloc, b"text 0 0 0 0 7 24 ab\n", 0, Align::Right, rows));
    // characters without size, with space between them
    let rows: &[u8] = b"text 0 5 4 0 7 0 abcd\nrow 0 5 abc\nrow 2 5 d\n";
    assert!(rt;
        come_to(
            &rt,
            alloc,
            b"text 0 5 4 0 7 0 abcd\n",
            2,
            Align::Center,
            rows
        )
    );
    // a code that is wider than the box is a row, also before codes without width
    let rows: &[u8] = b"text 0 0 0 0 7 1 \xA4\xA2ab\nrow 0 0 \xA4\xA2\nrow 0 1 ab\n";
    assert!(rt;
        come_to(
            &rt,
            alloc,
            b"text 0 0 0 0 7 1 \xA4\xA2ab\n",
            0,
            Align::Right,
            rows
        )
    );
    // a line feed alone are two empty rows, and no bytes are one
    let rows: &[u8] = b"text 10 0 30 0 7 24 %0A\nrow 25 0 \nrow 25 24 \n";
    let lines: &[u8] = b"text 10 0 30 0 7 24 %0A\n";
    assert!(rt; come_to(&rt, alloc, lines, 0, Align::Center, rows));
    let rows: &[u8] = b"text 10 0 30 0 7 24 \nrow 40 0 \n";
    assert!(rt;
        come_to(
            &rt,
            alloc,
            b"text 10 0 30 0 7 24 \n",
            64,
            Align::Right,
            rows
        )
    );
}

#[test]
fn rows_among_other_lines(rt: HostRuntime) {
    let alloc = rt.alloc();
    // numbers below 0, bytes with spaces and escapes, half of an odd rest; and lines without a text
    let lines: &[u8] =
        b"show 0\nbox 0 0 9 0 8 0 7\ntext -5 -30 37 0 7 24 a %25\npicture 0 0 9 9 - text\n";
    let rows: &[u8] = b"show 0\nbox 0 0 9 0 8 0 7\ntext -5 -30 37 0 7 24 a %25\nrow -5 -30 a %25\n\
        picture 0 0 9 9 - text\n";
    assert!(rt; come_to(&rt, alloc, lines, 0, Align::Center, rows));
    let rows: &[u8] = b"text -5 -30 25 0 7 24 a\nrow 1 -30 a\n";
    assert!(rt;
        come_to(
            &rt,
            alloc,
            b"text -5 -30 25 0 7 24 a\n",
            0,
            Align::Center,
            rows
        )
    );
}

#[test]
fn places_of_rows(rt: HostRuntime) {
    let alloc = rt.alloc();
    let text = word(&rt, alloc, b"abc");
    let found = row_places(alloc, &text, 26, 24, 2);
    assert!(rt; found.is_ok());
    if let Ok(rows) = found {
        let wanted = [
            Row {
                start: 0,
                end: 2,
                used: 26,
            },
            Row {
                start: 2,
                end: 3,
                used: 12,
            },
        ];
        assert!(rt; rows.as_slice() == wanted.as_slice());
    }
}
