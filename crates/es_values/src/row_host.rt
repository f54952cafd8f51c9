//! A host for tests.

ghost use Rattle.std.specs.Prelude.{◌≡◌, ℕ, List, [], true, All, IfOk, OnOk, OnErr};
ghost use Rattle.es_values.specs.Hosts.{IsAnswer, KeepsHeap, row_answer as spec_row_answer, row_value as spec_row_value};
ghost use Rattle.es_values.specs.Heaps.{value_in, with_value};
ghost use Rattle.es_values.specs.Values.{is_plain};

use crate::heaps::Heap;
use crate::hosts::{Host, HostAnswer};
use crate::properties::property_value;
use crate::property_map::Properties;
use crate::values::{HostRef, Value};
use bml_bytes::{NoMemory, Text};
use std::alloc::Global;
use std::marker::Model;

/// A host that keeps values by name, whichever the reference. A read gives the value of the name, and
/// Undefined where it has none; a write sets it, with Null in place of an object or a function. The call
/// `end` ends the script, and no other name can be called.
#[derive(Drop)]
pub struct RowHost {
    values: Properties,
}

impl Model for RowHost {
    ghost use Rattle.std.specs.Prelude.{◌≡◌, ℕ, List, All, true};
    ghost use Rattle.es_values.specs.declared.values.Value.{Value as ScriptValue};
    ghost use Rattle.es_values.specs.Values.{is_plain};

    ghost Value = { List (List ℕ × ScriptValue) };

    ghost view = { λ host. host.values };

    ghost invariant = { λ host. All (λ entry. is_plain entry.1 ≡ true) host.values };
}

impl RowHost {
    /// A host without values.
    pub fn new(alloc: Global) -> RowHost
        ensures { result ≡ [] }
    {
        RowHost {
            values: Properties::new(alloc),
        }
    }
}

impl Host for RowHost {
    ghost reads = { λ old base name value new. (value ≡ value_in old name) × (new ≡ old) };

    ghost writes = { λ old base name value heap new.
        new ≡ with_value old name (spec_row_value value) };

    ghost calls = { λ old base name arguments heap answer new after.
        (answer ≡ spec_row_answer name) × (new ≡ old) × (after ≡ heap) };

    fn get(&mut self, _base: HostRef, name: &Text) -> Result<Value, NoMemory> {
        property_value(&self.values, name)
    }

    fn set(
        &mut self,
        _base: HostRef,
        name: &Text,
        value: &Value,
        _heap: &Heap,
    ) -> Result<(), NoMemory> {
        let name = name.share()?;
        let value = row_value(value)?;
        self.values.put(name, value)?;
        Ok(())
    }

    fn call(
        &mut self,
        _base: HostRef,
        name: &Text,
        _args: &[Value],
        _heap: &mut Heap,
    ) -> Result<HostAnswer, NoMemory> {
        Ok(row_answer(name))
    }
}

// What is kept of a value.
fn row_value(value: &Value) -> Result<Value, NoMemory>
    ensures value { IfOk result (λ kept. kept ≡ spec_row_value value.now) }
    ensures plain { IfOk result (λ kept. is_plain kept ≡ true) }
{
    match value {
        Value::Object(_) | Value::Function(_) => Ok(Value::Null),
        _ => value.share(),
    }
}

fn row_answer(name: &Text) -> HostAnswer
    ensures { result ≡ spec_row_answer name.now }
{
    if name.is_word("end") {
        HostAnswer::Ended
    } else {
        HostAnswer::NotCallable
    }
}
