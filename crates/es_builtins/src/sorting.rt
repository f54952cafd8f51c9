//! The order of `sort` (ECMA-262 second edition, 15.4.4.5, in this profile).

ghost use Rattle.std.specs.Prelude.{◌≡◌, ◌++◌, map, filter, not, All, IfOk, OnOk};
ghost use Rattle.es_values.specs.declared.values.Value.{Value};
ghost use Rattle.es_values.specs.Conversions.{text_of};
ghost use Rattle.es_values.specs.Heaps.{IsLive};
ghost use Rattle.es_builtins.specs.Arrays.{is_undefined, sorted as spec_sorted};
ghost use Rattle.es_builtins.specs.declared.sorting.Keyed.{Keyed};

use bml_bytes::{NoMemory, Text};
use es_values::{Heap, Value};

/// A value with its text.
#[derive(Drop)]
struct Keyed {
    text: Text,
    value: Value,
}

/// Values by the codes of their texts, those of equal text in the order in which they stand, and
/// Undefined behind all others. Each value becomes a text once.
pub fn sorted(heap: &Heap, values: &[Value]) -> Result<Vec<Value>, NoMemory>
    requires { All (IsLive heap.now) values.now }
    ensures sorted { IfOk result
        (λ sorted. sorted.items ≡ spec_sorted heap.now values.now) }
    ensures live { IfOk result (λ sorted. All (IsLive heap.now) sorted.items) }
{
    let mut keyed = with_texts(heap, values)?;
    keyed.sort_by(|one, other| one.text.order(&other.text))?;
    let mut sorted = Vec::with_capacity(heap.allocator(), values.len())?;
    push_values(keyed, &mut sorted)?;
    push_undefined(values, &mut sorted)?;
    Ok(sorted)
}

// The values but Undefined, each with its text.
fn with_texts(heap: &Heap, values: &[Value]) -> Result<Vec<Keyed>, NoMemory>
    requires { All (IsLive heap.now) values.now }
    ensures { IfOk result (λ keyed. keyed.items
        ≡ map (λ value. record { text = text_of heap.now value; value = value })
        (filter (λ value. not (is_undefined value)) values.now)) }
{
    let mut keyed = Vec::new(heap.allocator());
    for value in values {
        if !is_undefined(value) {
            let text = heap.to_text(value)?;
            let value = value.share()?;
            keyed.push(Keyed { text, value })?;
        }
    }
    Ok(keyed)
}

// Appends the values.
fn push_values(keyed: Vec<Keyed>, out: &mut Vec<Value>) -> Result<(), NoMemory>
    ensures { OnOk result (out.new.items
        ≡ out.old.items ++ map (λ (keyed : Keyed). keyed.value) keyed.items) }
{
    for keyed in keyed {
        out.push(keyed.value)?;
    }
    Ok(())
}

// Appends as many Undefined as there are among the values.
fn push_undefined(values: &[Value], out: &mut Vec<Value>) -> Result<(), NoMemory>
    ensures { OnOk result (out.new.items ≡ out.old.items ++ filter is_undefined values.now) }
{
    for value in values {
        if is_undefined(value) {
            out.push(Value::Undefined)?;
        }
    }
    Ok(())
}

fn is_undefined(value: &Value) -> bool
    ensures { result ≡ is_undefined value.now }
{
    matches!(value, Value::Undefined)
}
