//! What is told of the rows of a file.

use crate::kinds::push_line;
use crate::lines::Line;
use crate::rows::words_of;
use bml_bytes::NoMemory;
use std::alloc::Global;

/// Appends what is told of the rows of a file: of each section how many are as expected, and each
/// row that isn't. Answers whether all are.
pub fn push_report(alloc: Global, name: &str, bytes: &[u8], out: &mut Line) -> bool {
    let mut all = true;
    let mut title = name.as_bytes();
    let mut count = 0_u64;
    for (place, line) in bytes.split(|byte| *byte == b'\n').enumerate() {
        match line {
            [] | [b'#', ..] => {}
            [b'=', b'=', b' ', next @ ..] => {
                push_section(title, count, out);
                title = next;
                count = 0;
            }
            row => {
                if is_expected(alloc, name, place, row, out) {
                    count = count.saturating_add(1);
                } else {
                    all = false;
                }
            }
        }
    }
    push_section(title, count, out);
    all
}

// Appends how many rows of a section are as expected, where there are some.
fn push_section(title: &[u8], count: u64, out: &mut Line) {
    if 0 < count {
        out.word(title);
        out.word(b": ");
        out.count(count);
        out.word(b" as expected\n");
    }
}

// Whether a row is as expected. Appends one that isn't, with the number of its line.
fn is_expected(alloc: Global, name: &str, place: usize, row: &[u8], out: &mut Line) -> bool {
    let Ok(words) = words_of(alloc, row) else {
        out.fail();
        return false;
    };
    match words.as_slice() {
        [kind, fields @ .., expected] => {
            let mut line = Line::new(alloc);
            if push_line(alloc, kind, fields, &mut line).is_err() || !line.is_whole() {
                out.fail();
            }
            let same = line.told() == expected.as_slice();
            if !same {
                push_place(name, place, out);
                push_difference(kind, line.told(), expected, out);
            }
            same
        }
        _ => {
            push_place(name, place, out);
            out.word(b"no row\n");
            false
        }
    }
}

// Appends the number of a line.
fn push_place(name: &str, place: usize, out: &mut Line) {
    out.word(name.as_bytes());
    out.byte(b':');
    out.count((place as u64).saturating_add(1));
    out.word(b": ");
}

// Appends what a row gives, and what was expected.
fn push_difference(kind: &[u8], line: &[u8], expected: &[u8], out: &mut Line) {
    out.word(kind);
    out.word(b" gives: ");
    out.word(line);
    out.word(b", and not: ");
    out.word(expected);
    out.byte(b'\n');
}
