//! Tables of rows of fields.

ghost use Rattle.std.specs.Prelude.{◌≡◌, ◌<◌, ◌≤◌, All, List, length, IfOk, IfSome, MatchOption, option_map, slice_get};
ghost use Rattle.persistent_arrays.specs.declared.fields.Field.{Field};
ghost use Rattle.binary_table.specs.Tables.{Search, Table, cell_of, has_value, is_value as is_value_of, most_rows, table_rows};

use crate::columns::Column;
use crate::layouts::{Layout, Row};
use bml_bytes::NoMemory;
use persistent_arrays::{Field, FieldKind, Structure, law_of_runs};
use std::alloc::Global;
use std::marker::Model;

// How many rows a table may have.
const MOST_ROWS: usize = 4096;

/// Rows of fields. Contracts see the kinds of the columns, and the rows.
#[derive(Drop)]
pub struct BinaryTable {
    columns: Vec<Column>,
    bytes: Vec<u8>,
    rows: Vec<Row>,
}

impl Model for BinaryTable {
    ghost use Rattle.binary_table.specs.Tables.{TableState};
    ghost use Rattle.binary_table.specs.devices.Shown.{IsWhole, kinds_of, rows_of};

    ghost Value = { TableState };

    ghost view = { λ table. record {
      kinds = kinds_of table.columns.items;
      rows = rows_of table.columns.items table.bytes.items;
    } };

    ghost invariant = { λ table.
        IsWhole table.columns.items table.bytes.items table.rows.items };
}

impl BinaryTable {
    /// The table of some bytes, and None exactly where they aren't whole rows or are more than 4,096 rows.
    pub fn read(
        alloc: Global,
        bytes: &[u8],
        structure: &Structure,
    ) -> Result<Option<BinaryTable>, NoMemory>
        ensures rows { IfOk result (λ found. MatchOption found
            ((rows : List (List Field)) → Table bytes.now structure.now rows
            → most_rows < length rows)
            (λ table. Table bytes.now structure.now table.rows
            × (length table.rows ≤ most_rows))) }
        ensures worked_out { IfOk result (λ found.
            option_map (λ table. table.rows) found ≡ table_rows bytes.now structure.now) }
        ensures kinds { IfOk result (λ found. IfSome found
            (λ table. table.kinds ≡ structure.now)) }
    {
        law_of_runs();
        let kept = copied(alloc, bytes)?;
        let layout = Layout::of(alloc, structure.kinds())?;
        let Some(rows) = layout.rows(alloc, bytes, MOST_ROWS)? else {
            return Ok(None);
        };
        Ok(Some(BinaryTable {
            columns: layout.into_columns(),
            bytes: kept,
            rows,
        }))
    }

    /// How many rows it has, at most 4,096. This takes no memory.
    pub fn rows(&self) -> u32
        ensures rows { result ≡ length self.now.rows }
        ensures few { result ≤ most_rows }
    {
        self.rows.len() as u32
    }

    /// The value in a row and a column, counted from 0, and None exactly where there is no such row or column.
    pub fn cell(&self, row: u32, column: u32) -> Result<Option<Field>, NoMemory>
        ensures { IfOk result (λ found. found ≡ cell_of self.now.rows row column) }
    {
        let Some(row) = self.rows.as_slice().get(row as usize) else {
            return Ok(None);
        };
        let Some(column) = self.columns.as_slice().get(column as usize) else {
            return Ok(None);
        };
        column.value(*self.bytes.allocator(), &self.bytes, &row.places)
    }

    /// How many columns it has. This takes no memory.
    pub fn columns(&self) -> u32
        ensures { result ≡ length self.now.kinds }
    {
        self.columns.len() as u32
    }

    /// The kind of the fields in a column, counted from 0, and None exactly where there is no such column. This takes no
    /// memory.
    pub fn kind(&self, column: u32) -> Option<FieldKind>
        ensures { result ≡ slice_get self.now.kinds column }
    {
        self.columns
            .as_slice()
            .get(column as usize)
            .map(|column| column.kind)
    }

    /// The numbers of the first rows at or after one whose value in a column is the one that is wanted, at most so many, in
    /// ascending order. Each row is read in that column alone.
    pub fn search(
        &self,
        from: u32,
        column: u32,
        wanted: &Field,
        limit: u32,
    ) -> Result<Vec<u32>, NoMemory>
        ensures found { IfOk result (λ found.
            found.items ≡ Search self.now.rows from column wanted.now limit) }
        ensures within { IfOk result (λ found. All (λ row. row < most_rows) found.items) }
    {
        let mut found = Vec::new(*self.bytes.allocator());
        let most = limit as usize;
        let mut row = from;
        'rows: while row < self.rows() {
            if found.len() == most {
                return Ok(found);
            }
            if self.has(row, column, wanted)? {
                found.push(row)?;
            }
            row += 1;
        }
        Ok(found)
    }

    // Whether the value in a row and a column is the one that is wanted.
    fn has(&self, row: u32, column: u32, wanted: &Field) -> Result<bool, NoMemory>
        ensures { IfOk result (λ same.
            same ≡ has_value (cell_of self.now.rows row column) wanted.now) }
    {
        match self.cell(row, column)? {
            Some(value) => Ok(is_value(&value, wanted)),
            None => Ok(false),
        }
    }
}

// A copy of some bytes.
fn copied(alloc: Global, bytes: &[u8]) -> Result<Vec<u8>, NoMemory>
    ensures { IfOk result (λ copy. copy.items ≡ bytes.now) }
{
    let mut copy = Vec::new(alloc);
    copy.extend_from_slice(bytes)?;
    Ok(copy)
}

// Whether two values are the same.
fn is_value(value: &Field, wanted: &Field) -> bool
    ensures { result ≡ is_value_of value.now wanted.now }
{
    match (value, wanted) {
        (Field::Bit(bit), Field::Bit(other)) => *bit == *other,
        (Field::Whole(number), Field::Whole(other)) => *number == *other,
        (Field::Words(text), Field::Words(other)) => *text == *other,
        _ => false,
    }
}
