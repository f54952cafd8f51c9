//! Calls that open binary tables and read them.

ghost use Rattle.std.specs.Prelude.{◌≡◌, ◌<◌, All, IfOk, OnErr, OnOk, Some, map};
ghost use Rattle.std.specs.Prelude.{option_and_then, option_copied};
ghost use Rattle.binary_table.specs.Tables.{most_rows};
ghost use Rattle.es_values.specs.Heaps.{IsLive};
ghost use Rattle.browser_objects.specs.ArrayCalls.{value_of_field};
ghost use Rattle.browser_objects.specs.Calls.{Answers, BrowserParts, argument, give_array};
ghost use Rattle.browser_objects.specs.Calls.{count_rows as spec_count_rows, open_table};
ghost use Rattle.browser_objects.specs.Calls.{read_cell as spec_read_cell, search_rows as spec_search_rows, table_cell as spec_table_cell};
ghost use Rattle.browser_objects.specs.Calls.{table_search as spec_table_search};
ghost use Rattle.browser_objects.specs.OpenTables.{cell_at as spec_cell_at, limit_of as spec_limit_of};
ghost use Rattle.browser_objects.specs.OpenTables.{row_numbers, rows_found as spec_rows_found};
ghost use Rattle.browser_objects.specs.OpenTables.{table_numbered as spec_numbered};

use crate::arguments::{count_argument, whole_argument};
use crate::array_calls::structure_argument;
use crate::array_fields::{field_of, value_of};
use crate::effects::{Effect, refusal, whole};
use crate::page_calls::path_argument;
use crate::states::BrowserState;
use binary_table::BinaryTable;
use bml_bytes::NoMemory;
use es_values::{Heap, Value};
use multipart_entities::Path;
use persistent_arrays::Field;
use std::alloc::Global;

// The greatest limit of a search.
const MOST_ROWS: u32 = 4096;

/// `openTable(path, structure)`: the page looks the resource up, and then tries to open it.
pub fn ask_for_table(
    alloc: Global,
    base: &Path,
    args: &[Value],
    heap: &Heap,
) -> Result<(Value, Effect), NoMemory>
    requires { All (IsLive heap.now) args.now }
    ensures { (s : BrowserParts) → IfOk result (λ answer. Answers
        (open_table base.now args.now heap.now s) answer s) }
{
    let Some(path) = path_argument(alloc, base, args, heap)? else {
        return Ok(refusal());
    };
    match structure_argument(alloc, args, heap)? {
        None => Ok(refusal()),
        Some(structure) => Ok((Value::Undefined, Effect::Table(path, structure))),
    }
}

/// `tableRows(t)`: how many rows the table has.
pub fn count_rows(
    state: &BrowserState,
    args: &[Value],
    heap: &Heap,
) -> Result<(Value, Effect), NoMemory>
    requires { All (IsLive heap.now) args.now }
    ensures { IfOk result (λ answer. Answers
        (spec_count_rows args.now heap.now state.now) answer state.now) }
{
    let number = count_argument(heap, args, 0)?;
    Ok(match table_numbered(state, number) {
        None => refusal(),
        Some(table) => (whole(table.rows()), Effect::Nothing),
    })
}

/// `tableCell(t, row, column)`: the value of a field, and Null where there is no such row or column.
pub fn table_cell(
    state: &BrowserState,
    args: &[Value],
    heap: &Heap,
) -> Result<(Value, Effect), NoMemory>
    requires { All (IsLive heap.now) args.now }
    ensures { IfOk result (λ answer. Answers
        (spec_table_cell args.now heap.now state.now) answer state.now) }
{
    let number = count_argument(heap, args, 0)?;
    let row = whole_argument(heap, args, 1)?;
    let column = whole_argument(heap, args, 2)?;
    read_cell(table_numbered(state, number), row, column)
}

/// `tableSearch(t, from, column, x, limit)`: a new array of the numbers of the first rows, at or after
/// one, whose value in the column is x.
pub fn table_search(
    alloc: Global,
    state: &BrowserState,
    args: &[Value],
    heap: &mut Heap,
) -> Result<(Value, Effect), NoMemory>
    requires { All (IsLive heap.old) args.now }
    ensures answers { IfOk result (λ answer. Answers
        (spec_table_search args.now heap.old state.now).called answer state.now) }
    ensures objects { OnOk result
        (heap.new ≡ (spec_table_search args.now heap.old state.now).heap) }
    ensures err { OnErr result (heap.new ≡ heap.old) }
{
    let number = count_argument(&*heap, args, 0)?;
    let from = count_argument(&*heap, args, 1)?;
    let column = count_argument(&*heap, args, 2)?;
    let limit = count_argument(&*heap, args, 4)?.and_then(limit_of);
    let table = table_numbered(state, number);
    search_rows(alloc, table, from, column, limit, args, heap)
}

// The open table of a number, where there is one.
fn table_numbered(state: &BrowserState, number: Option<u32>) -> Option<&BinaryTable>
    ensures { option_copied result ≡ option_and_then (spec_numbered state.now.tables) number }
{
    match number {
        None => None,
        Some(number) => state.tables.numbered(number),
    }
}

// The value of a cell, where its table, its row and its column are numbers.
fn read_cell(
    table: Option<&BinaryTable>,
    row: Option<i32>,
    column: Option<i32>,
) -> Result<(Value, Effect), NoMemory>
    ensures { (s : BrowserParts) → IfOk result (λ answer. Answers
        (spec_read_cell (option_copied table.entry) row column s) answer s) }
{
    match (table, row, column) {
        (Some(table), Some(row), Some(column)) => Ok((
            match cell_at(table, row, column)? {
                None => Value::Null,
                Some(field) => value_of(field),
            },
            Effect::Nothing,
        )),
        _ => Ok(refusal()),
    }
}

// The value in a row and a column, where neither number is below 0.
fn cell_at(table: &BinaryTable, row: i32, column: i32) -> Result<Option<Field>, NoMemory>
    ensures { IfOk result (λ field. field ≡ spec_cell_at table.now row column) }
{
    match (u32::try_from(row), u32::try_from(column)) {
        (Ok(row), Ok(column)) => table.cell(row, column),
        _ => Ok(None),
    }
}

// A new array of the rows that a search finds, where its table and all of its numbers are there.
fn search_rows(
    alloc: Global,
    table: Option<&BinaryTable>,
    from: Option<u32>,
    column: Option<u32>,
    limit: Option<u32>,
    args: &[Value],
    heap: &mut Heap,
) -> Result<(Value, Effect), NoMemory>
    requires { All (IsLive heap.old) args.now }
    ensures answers { (s : BrowserParts) → IfOk result (λ answer. Answers
        (spec_search_rows (option_copied table.entry) from column limit (argument args.now 3)
        heap.old s).called answer s) }
    ensures objects { (s : BrowserParts) → OnOk result (heap.new
        ≡ (spec_search_rows (option_copied table.entry) from column limit (argument args.now 3)
        heap.old s).heap) }
    ensures err { OnErr result (heap.new ≡ heap.old) }
{
    match (table, from, column, limit) {
        (Some(table), Some(from), Some(column), Some(limit)) => {
            let rows = rows_found(alloc, table, from, column, limit, args, &*heap)?;
            give_rows(alloc, rows, heap)
        }
        _ => Ok(refusal()),
    }
}

// A limit, where it is one.
fn limit_of(limit: u32) -> Option<u32>
    ensures { result ≡ spec_limit_of limit }
{
    (1 <= limit && limit <= MOST_ROWS).then_some(limit)
}

// The rows whose value in a column is the fourth argument, as a field of that column has it.
fn rows_found(
    alloc: Global,
    table: &BinaryTable,
    from: u32,
    column: u32,
    limit: u32,
    args: &[Value],
    heap: &Heap,
) -> Result<Vec<u32>, NoMemory>
    requires { All (IsLive heap.now) args.now }
    ensures rows { IfOk result (λ rows. rows.items
        ≡ spec_rows_found table.now from column limit heap.now (argument args.now 3)) }
    ensures few { IfOk result (λ rows. All (λ row. row < most_rows) rows.items) }
{
    let Some(kind) = table.kind(column) else {
        return Ok(Vec::new(alloc));
    };
    let wanted = match args.get(3) {
        Some(value) => field_of(kind, value, heap)?,
        None => field_of(kind, &Value::Undefined, heap)?,
    };
    match wanted {
        None => Ok(Vec::new(alloc)),
        Some(wanted) => table.search(from, column, &wanted, limit),
    }
}

// A new array of the numbers of rows.
fn give_rows(alloc: Global, rows: Vec<u32>, heap: &mut Heap) -> Result<(Value, Effect), NoMemory>
    requires { All (λ row. row < most_rows) rows.items }
    ensures answers { (s : BrowserParts) → IfOk result (λ answer. Answers
        (give_array (Some (row_numbers rows.items)) heap.old s).called answer s) }
    ensures objects { (s : BrowserParts) → OnOk result
        (heap.new ≡ (give_array (Some (row_numbers rows.items)) heap.old s).heap) }
    ensures err { OnErr result (heap.new ≡ heap.old) }
{
    let values = row_values(alloc, rows)?;
    let array = heap.add_array(values)?;
    Ok((Value::Object(array), Effect::Nothing))
}

// The numbers of rows as values of scripts.
fn row_values(alloc: Global, rows: Vec<u32>) -> Result<Vec<Value>, NoMemory>
    requires { All (λ row. row < most_rows) rows.items }
    ensures { IfOk result (λ values.
        values.items ≡ map value_of_field (row_numbers rows.items)) }
{
    let mut values = Vec::with_capacity(alloc, rows.len())?;
    'rows: for row in rows {
        values.push(whole(row))?;
    }
    Ok(values)
}
