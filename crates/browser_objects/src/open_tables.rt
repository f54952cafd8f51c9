//! The binary tables that a document has open.

ghost use Rattle.std.specs.Prelude.{◌≡◌, ◌<◌, nat_lt, IfOk, OnErr, OnOk, option_and_then, option_copied};
ghost use Rattle.browser_objects.specs.Calls.{table_opened as spec_table_opened};
ghost use Rattle.browser_objects.specs.OpenTables.{after_try, answer_of_try, most_tries};
ghost use Rattle.browser_objects.specs.OpenTables.{no_tables, table_numbered};
ghost use Rattle.browser_objects.specs.OpenTables.{table_of as spec_table_of};

use crate::effects::whole;
use crate::states::BrowserState;
use binary_table::BinaryTable;
use bml_bytes::NoMemory;
use es_values::{Num, Value};
use persistent_arrays::Structure;
use std::alloc::Global;
use std::marker::Model;

// How many tries to open a table a document has.
const MOST_TRIES: u32 = 16;

/// The tables that a document has open, and how many tries it made to open one, of which it has 16.
#[derive(Drop)]
pub struct OpenTables {
    tables: Vec<BinaryTable>,
    tries: u32,
}

impl Model for OpenTables {
    ghost use Rattle.std.specs.Prelude.{◌≤◌, length};
    ghost use Rattle.browser_objects.specs.OpenTables.{TablesState, most_tries};

    ghost Value = { TablesState };

    ghost view = { λ state. record { tables = state.tables.items; tries = state.tries } };

    ghost invariant = { λ state.
        (length state.tables.items ≤ state.tries) × (state.tries ≤ most_tries) };
}

impl OpenTables {
    /// No table, and no try. This takes no memory.
    pub fn new(alloc: Global) -> OpenTables
        ensures { result ≡ no_tables }
    {
        OpenTables {
            tables: Vec::new(alloc),
            tries: 0,
        }
    }

    // The table of a number; the first has the number 1.
    pub(crate) fn numbered(&self, number: u32) -> Option<&BinaryTable>
        ensures { option_copied result ≡ table_numbered self.now number }
    {
        let before = number.checked_sub(1)?;
        self.tables.as_slice().get(before as usize)
    }

    // Whether a try is left.
    fn has_try(&self) -> bool
        ensures { result ≡ nat_lt self.now.tries most_tries }
    {
        self.tries < MOST_TRIES
    }

    // Counts a try, which opened this table or none, and gives what it answers.
    fn count_try(&mut self, table: Option<BinaryTable>) -> Result<Value, NoMemory>
        requires { self.old.tries < most_tries }
        ensures answer { IfOk result (λ answer. answer ≡ answer_of_try table self.old) }
        ensures counted { OnOk result (self.new ≡ after_try table self.old) }
        ensures err { OnErr result (self.new ≡ self.old) }
    {
        let answer = match table {
            None => Value::Number(Num::NotANumber),
            Some(table) => {
                self.tables.push(table)?;
                whole(self.tables.len() as u32)
            }
        };
        self.tries += 1;
        Ok(answer)
    }
}

/// What a call of `openTable` comes to, once the page has looked its resource up: these bytes were
/// found, or none. The table's number, counted from 1; NaN where nothing was found, where the bytes
/// aren't whole rows or are more than 4,096, and after 16 tries. After `NoMemory` the state is as it
/// was.
pub fn open_table(
    alloc: Global,
    state: &mut BrowserState,
    found: Option<&[u8]>,
    structure: &Structure,
) -> Result<Value, NoMemory>
    ensures value { IfOk result (λ value. value
        ≡ (spec_table_opened (option_copied found.entry) structure.now state.old).value) }
    ensures state { OnOk result (state.new
        ≡ (spec_table_opened (option_copied found.entry) structure.now state.old).state) }
    ensures err { OnErr result (state.new ≡ state.old) }
{
    if !state.tables.has_try() {
        return Ok(Value::Number(Num::NotANumber));
    }
    let table = table_of(alloc, found, structure)?;
    state.tables.count_try(table)
}

// The table of the bytes that were found.
fn table_of(
    alloc: Global,
    found: Option<&[u8]>,
    structure: &Structure,
) -> Result<Option<BinaryTable>, NoMemory>
    ensures { IfOk result (λ table. table ≡ option_and_then
        (λ bytes. spec_table_of bytes structure.now) (option_copied found.entry)) }
{
    match found {
        None => Ok(None),
        Some(bytes) => BinaryTable::read(alloc, bytes, structure),
    }
}
