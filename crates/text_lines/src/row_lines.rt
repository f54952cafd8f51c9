//! The lines of a display list with the rows of its texts.

ghost use Rattle.std.specs.Prelude.{◌≡◌, ◌≤◌, ◌+◌, ◌++◌, ◌∷◌, pos, ◌*◌, ◌+ℤ◌, codes, length, OnOk};
ghost use Rattle.std.specs.Io.{StartsWith};
ghost use Rattle.std.specs.List.{join_with_byte};
ghost use Rattle.bml_bytes.specs.Numerals.{signed_decimal_digits};
ghost use Rattle.text_lines.specs.RowLines.{indent, line_with_rows, lines_of_text, row_line, with_rows};
ghost use Rattle.text_lines.specs.devices.Printed.{ended_before};

use crate::cuts::cut_at;
use crate::laws::law_of_rows;
use crate::read_back::{ShownText, text_in};
use crate::rows::{Row, row_places};
use bml_bytes::{Escapes, NoMemory, Text, law_of_fronts, push_line_end, push_word};

/// Where the rows of a text stand in the width of its box.
#[derive(Clone, Copy, Debug, PartialEq, Eq)]
pub enum Align {
    /// At its left end.
    Left,
    /// In its middle, half a pixel to the left where the rest is odd.
    Center,
    /// At its right end.
    Right,
}

/// Appends the lines of a display list. Behind the line of each text stand the lines of its rows,
/// `row X Y BYTES`, with so much space between two codes. `out` begins with what it held, and what stands behind
/// that after `NoMemory` isn't to be written.
pub fn add_rows(lines: &[u8], spacing: u32, align: Align, out: &mut Vec<u8>) -> Result<(), NoMemory>
    ensures rows { OnOk result
        (out.new.items ≡ out.old.items ++ with_rows spacing align lines.now) }
    ensures grows { StartsWith out.new.items out.old.items }
{
    law_of_fronts();
    let mut rest = lines;
    'lines: while let Some((line, behind)) = cut_at(b'\n', rest) {
        push_with_rows(line, spacing, align, out)?;
        push_line_end(out)?;
        rest = behind;
    }
    push_with_rows(rest, spacing, align, out)
}

// Appends a line and the lines of its rows, with a line feed between two lines.
fn push_with_rows(
    line: &[u8],
    spacing: u32,
    align: Align,
    out: &mut Vec<u8>,
) -> Result<(), NoMemory>
    ensures rows { OnOk result (out.new.items
        ≡ out.old.items ++ join_with_byte 10 (line_with_rows spacing align line.now)) }
    ensures grows { StartsWith out.new.items out.old.items }
{
    law_of_fronts();
    out.extend_from_slice(line)?;
    match text_in(*out.allocator(), line)? {
        Some(shown) => push_rows(&shown, spacing, align, out),
        None => Ok(()),
    }
}

// Appends the lines of a text's rows, each behind a line feed.
fn push_rows(
    shown: &ShownText,
    spacing: u32,
    align: Align,
    out: &mut Vec<u8>,
) -> Result<(), NoMemory>
    ensures rows { OnOk result (out.new.items
        ≡ out.old.items ++ ended_before (lines_of_text spacing align shown.now)) }
    ensures grows { StartsWith out.new.items out.old.items }
{
    law_of_rows();
    law_of_fronts();
    let alloc = *out.allocator();
    let rows = row_places(alloc, &shown.text, shown.width, shown.size, spacing)?;
    'rows: for (number, row) in rows.iter().enumerate() {
        push_line_end(out)?;
        push_row(shown, align, number, *row, out)?;
    }
    Ok(())
}

// Appends the line of a row.
#[tactic(auto, unfolding(crate::specs::RowLines::row_line))]
fn push_row(
    shown: &ShownText,
    align: Align,
    number: usize,
    row: Row,
    out: &mut Vec<u8>,
) -> Result<(), NoMemory>
    requires start { row.start ≤ row.end }
    requires end { row.end ≤ length shown.now.text }
    ensures line { OnOk result
        (out.new.items ≡ out.old.items ++ row_line align shown.now number row) }
    ensures grows { StartsWith out.new.items out.old.items }
{
    law_of_fronts();
    let alloc = *out.allocator();
    push_word("row ", out)?;
    push_place(
        row_left(shown, align, row.used),
        row_top(shown, number),
        out,
    )?;
    let codes = Text::of_codes(alloc, &shown.text.codes()[row.start..row.end])?;
    Escapes::Controls.push(&codes, out)?;
    Ok(())
}

// Appends two numbers, each with a space behind it.
fn push_place(x: i128, y: i128, out: &mut Vec<u8>) -> Result<(), NoMemory>
    ensures place { OnOk result (out.new.items ≡ out.old.items
        ++ (signed_decimal_digits x ++ codes " " ++ signed_decimal_digits y ++ codes " ")) }
    ensures grows { StartsWith out.new.items out.old.items }
{
    law_of_fronts();
    push_number(x, out)?;
    push_word(" ", out)?;
    push_number(y, out)?;
    push_word(" ", out)?;
    Ok(())
}

// Where a row stands, in pixels from the left of the screen.
fn row_left(shown: &ShownText, align: Align, used: u64) -> i128
    ensures { result ≡ shown.now.x +ℤ pos (indent align shown.now.width used) }
{
    let left = u64::from(shown.width).saturating_sub(used);
    let indent = match align {
        Align::Left => 0,
        Align::Center => left / 2,
        Align::Right => left,
    };
    i128::from(shown.x) + i128::from(indent)
}

// Where a row stands, in pixels from the top of the screen.
fn row_top(shown: &ShownText, number: usize) -> i128
    ensures { result ≡ shown.now.y +ℤ pos (shown.now.size * number) }
{
    i128::from(shown.y) + i128::from(shown.size) * (number as i128)
}

// Appends a number in base ten, with a minus sign before a negative one.
fn push_number(number: i128, out: &mut Vec<u8>) -> Result<(), NoMemory>
    ensures ok { OnOk result
        (out.new.items ≡ out.old.items ++ signed_decimal_digits number) }
    ensures grows { StartsWith out.new.items out.old.items }
{
    let mut buffer = itoa::Buffer::new();
    out.extend_from_slice(buffer.format(number).as_bytes())?;
    Ok(())
}
