//! Where the rows of a text begin and end.
ghost use Rattle.std.specs.Prelude.{◌≡◌, ◌≤◌, ◌<◌, ◌+◌, ◌^◌, ◌∷◌, ℕ, List, All, IfOk, length};
ghost use Rattle.text_lines.specs.Measures.{measures, code_width};
ghost use Rattle.text_lines.specs.Breaking.{AreRows, IsWithin};
ghost use Rattle.text_lines.specs.devices.RowsAhead.{rows_ahead};

use bml_bytes::{NoMemory, Text};
use std::alloc::Global;

/// A row: its codes stand from one place of the text up to another, counted from 0 and the end left out, and use so
/// many pixels of the width.
#[derive(Clone, Copy, Debug, PartialEq, Eq)]
pub struct Row {
    pub start: usize,
    pub end: usize,
    pub used: u64,
}

/// The rows of a text in a box of that width, in order, where its characters have that size and so much space stands
/// between two codes, all in pixels. A code above 255 is as wide as the size, and every other half as wide.
#[tactic(auto, unfolding(crate::specs::devices::RowsAhead::ahead))]
pub fn row_places(
    alloc: Global,
    text: &Text,
    width: u32,
    size: u32,
    spacing: u32,
) -> Result<Vec<Row>, NoMemory>
    ensures rows { IfOk result
        (λ rows. AreRows (measures width size spacing) text.now rows.items) }
    ensures only { IfOk result (λ rows. (other : List Row)
        → AreRows (measures width size spacing) text.now other → other ≡ rows.items) }
    ensures within { IfOk result (λ rows. All (IsWithin (length text.now)) rows.items) }
{
    let mut rows = Vec::new(alloc);
    let mut row = empty_row(0);
    for code in text.codes() {
        let next = next_row(row, *code, width, size, spacing);
        if row.start < next.start {
            rows.push(row)?;
        }
        row = next;
    }
    rows.push(row)?;
    Ok(rows)
}

// The row that a code behind an open row leaves open: the same with the code in it, or one that starts
// behind it.
#[tactic(auto, unfolding(crate::specs::devices::RowsAhead::ahead))]
fn next_row(row: Row, code: u16, width: u32, size: u32, spacing: u32) -> Row
    requires place { row.start ≤ row.end }
    requires room { row.end + 1 < 2 ^ 64 }
    requires used { row.used < 2 ^ 32 }
    ensures start { row.start ≤ result.start }
    ensures place { result.start ≤ result.end }
    ensures end { result.end ≡ row.end + 1 }
    ensures used { result.used < 2 ^ 32 }
    ensures longer { row.start ≡ result.start → (codes : List ℕ)
        → rows_ahead (measures width size spacing) row (code ∷ codes)
        ≡ rows_ahead (measures width size spacing) result codes }
    ensures ended { row.start < result.start → (codes : List ℕ)
        → rows_ahead (measures width size spacing) row (code ∷ codes)
        ≡ row ∷ rows_ahead (measures width size spacing) result codes }
{
    if code == 10 {
        return empty_row(row.end + 1);
    }
    let wide = width_of(code, size);
    if row.start == row.end {
        return first_code(row.end, wide);
    }
    let used = row.used + u64::from(spacing) + wide;
    if used > u64::from(width) {
        return first_code(row.end, wide);
    }
    Row {
        start: row.start,
        end: row.end + 1,
        used,
    }
}

// How wide a code is.
fn width_of(code: u16, size: u32) -> u64
    ensures width { result ≡ code_width size code }
    ensures bound { result ≤ size }
{
    if code > 255 {
        u64::from(size)
    } else {
        u64::from(size / 2)
    }
}

// A row without a code.
fn empty_row(place: usize) -> Row
    ensures start { result.start ≡ place }
    ensures end { result.end ≡ place }
    ensures used { result.used ≡ 0 }
{
    Row {
        start: place,
        end: place,
        used: 0,
    }
}

// A row with one code.
fn first_code(place: usize, wide: u64) -> Row
    requires { place + 1 < 2 ^ 64 }
    ensures start { result.start ≡ place }
    ensures end { result.end ≡ place + 1 }
    ensures used { result.used ≡ wide }
{
    Row {
        start: place,
        end: place + 1,
        used: wide,
    }
}
