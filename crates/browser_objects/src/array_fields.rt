//! Values of scripts as those of fields of persistent arrays, and back.

ghost use Rattle.std.specs.Prelude.{◌≡◌, ◌<◌, ◌^◌, true, All, IfOk, IfSome, MatchOption, Some};
ghost use Rattle.std.specs.Prelude.{None, length, map, option_and_then, option_map};
ghost use Rattle.bml_bytes.specs.Numerals.{decimal_digits};
ghost use Rattle.es_values.specs.Conversions.{number_of, text_of};
ghost use Rattle.es_values.specs.Heaps.{IsLive, object_at, value_in};
ghost use Rattle.es_values.specs.declared.numbers.Num.TheVariants.{NotANumber};
ghost use Rattle.browser_objects.specs.ArrayCalls.{field_of as spec_field_of};
ghost use Rattle.browser_objects.specs.ArrayCalls.{field_of_number as spec_field_of_number};
ghost use Rattle.browser_objects.specs.ArrayCalls.{field_of_text as spec_field_of_text};
ghost use Rattle.browser_objects.specs.ArrayCalls.{fields_of as spec_fields_of, value_of_field};
ghost use Rattle.browser_objects.specs.ArrayCalls.{values_at_places, values_of_array};
ghost use Rattle.browser_objects.specs.Calls.{argument};

use bml_bytes::{NoMemory, Text};
use es_values::{Budget, Heap, Num, Value, index_name, law_of_indices};
use persistent_arrays::{Field, FieldKind};
use std::alloc::Global;

// The most codes that the text of a field has.
const MOST_CODES: usize = 255;

// An array that takes more steps has a text of more than MOST_CODES codes: a step is for sixteen
// elements and codes, and a comma stands between each two elements.
const MOST_STEPS: u32 = 32;

/// The values of fields as those of scripts.
pub fn values_of(alloc: Global, fields: Vec<Field>) -> Result<Vec<Value>, NoMemory>
    ensures { IfOk result (λ values. values.items ≡ map value_of_field fields.items) }
{
    let mut values = Vec::with_capacity(alloc, fields.len())?;
    'fields: for field in fields {
        values.push(value_of(field))?;
    }
    Ok(values)
}

pub fn value_of(field: Field) -> Value
    ensures { result ≡ value_of_field field }
{
    match field {
        Field::Bit(bit) => Value::Bool(bit),
        Field::Whole(number) => Value::Number(Num::Whole(number)),
        Field::Words(text) => Value::Str(text),
    }
}

/// The values of the array that the third argument is, one for each field. None where it is no
/// array, has more values or fewer, or one that is of no field.
pub fn fields_argument(
    alloc: Global,
    kinds: &[FieldKind],
    args: &[Value],
    heap: &Heap,
) -> Result<Option<Vec<Field>>, NoMemory>
    requires { All (IsLive heap.now) args.now }
    ensures { IfOk result (λ found. option_map (λ fields. fields.items) found
        ≡ option_and_then (spec_fields_of heap.now kinds.now)
        (values_of_array heap.now (argument args.now 2))) }
{
    match array_argument(args, heap) {
        Some((array, size)) if size as usize == kinds.len() => {
            fields_of(alloc, kinds, array, heap)
        }
        _ => Ok(None),
    }
}

// The array that the third argument is, with its length.
fn array_argument(args: &[Value], heap: &Heap) -> Option<(u64, u32)>
    requires { All (IsLive heap.now) args.now }
    ensures values { MatchOption result (values_of_array heap.now (argument args.now 2) ≡ None)
        (λ array. values_of_array heap.now (argument args.now 2)
        ≡ Some (values_at_places (object_at heap.now array.0) array.1)) }
    ensures live { IfSome result (λ array. array.0 < length heap.now) }
{
    match args.get(2) {
        Some(Value::Object(object)) => {
            let size = heap.array_length(*object)?;
            Some((*object, size))
        }
        _ => None,
    }
}

// The first values of an array as those of fields.
fn fields_of(
    alloc: Global,
    kinds: &[FieldKind],
    array: u64,
    heap: &Heap,
) -> Result<Option<Vec<Field>>, NoMemory>
    requires array { array < length heap.now }
    requires count { length kinds.now < 2 ^ 32 }
    ensures { IfOk result (λ found. option_map (λ fields. fields.items) found
        ≡ spec_fields_of heap.now kinds.now
        (values_at_places (object_at heap.now array) (length kinds.now))) }
{
    let mut fields = Vec::new(alloc);
    'fields: for (place, kind) in kinds.iter().enumerate() {
        let Some(field) = field_at(alloc, *kind, array, place as u32, heap)? else {
            return Ok(None);
        };
        fields.push(field)?;
    }
    Ok(Some(fields))
}

// The value at a place of an array as that of a field.
fn field_at(
    alloc: Global,
    kind: FieldKind,
    array: u64,
    place: u32,
    heap: &Heap,
) -> Result<Option<Field>, NoMemory>
    requires { array < length heap.now }
    ensures { IfOk result (λ field. field ≡ spec_field_of heap.now kind
        (value_in (object_at heap.now array).properties (decimal_digits place))) }
{
    let value = element(alloc, array, place, heap)?;
    field_of(kind, &value, heap)
}

// The value at a place of an array, where a missing one is Undefined.
fn element(alloc: Global, array: u64, place: u32, heap: &Heap) -> Result<Value, NoMemory>
    requires { array < length heap.now }
    ensures value { IfOk result (λ value. value
        ≡ value_in (object_at heap.now array).properties (decimal_digits place)) }
    ensures live { IfOk result (λ value. IsLive heap.now value) }
{
    law_of_indices();
    let name = index_name(alloc, place)?;
    heap.get(array, &name)
}

// A value as that of a field of this kind.
pub fn field_of(kind: FieldKind, value: &Value, heap: &Heap) -> Result<Option<Field>, NoMemory>
    requires { IsLive heap.now value.now }
    ensures { IfOk result (λ field. field ≡ spec_field_of heap.now kind value.now) }
{
    match kind {
        FieldKind::Bit => Ok(Some(Field::Bit(value.truth()))),
        FieldKind::Unsigned(_) | FieldKind::Signed(_) => number_field(value, heap),
        FieldKind::Fixed(_) | FieldKind::Varying => text_field(value, heap),
    }
}

// A value as the number of a field. An array of two elements or more is none, and isn't converted.
fn number_field(value: &Value, heap: &Heap) -> Result<Option<Field>, NoMemory>
    requires { IsLive heap.now value.now }
    ensures { IfOk result
        (λ field. field ≡ spec_field_of_number (number_of heap.now value.now)) }
{
    if has_comma(value, heap) {
        return Ok(None);
    }
    let number = heap.to_number(value)?;
    Ok(field_of_number(number))
}

// Whether a value is an array of two elements or more: its text has a comma in it, which no number
// has.
fn has_comma(value: &Value, heap: &Heap) -> bool
    requires { IsLive heap.now value.now }
    ensures { result ≡ true → number_of heap.now value.now ≡ NotANumber }
{
    let Value::Object(object) = value else {
        return false;
    };
    match heap.array_length(*object) {
        None => false,
        Some(size) => size >= 2,
    }
}

fn field_of_number(number: Num) -> Option<Field>
    ensures { result ≡ spec_field_of_number number }
{
    match number {
        Num::NotANumber => None,
        Num::Whole(whole) => Some(Field::Whole(whole)),
    }
}

// A value as the text of a field. That of an array is made only where it is short.
fn text_field(value: &Value, heap: &Heap) -> Result<Option<Field>, NoMemory>
    requires { IsLive heap.now value.now }
    ensures { IfOk result (λ field. field ≡ spec_field_of_text (text_of heap.now value.now)) }
{
    if is_long(value, heap) {
        return Ok(None);
    }
    let text = heap.to_text(value)?;
    Ok(field_of_text(text))
}

// Whether a value is an array whose text is far too long for a field. The text of every other array
// has 512 codes at most.
fn is_long(value: &Value, heap: &Heap) -> bool
    requires { IsLive heap.now value.now }
    ensures { result ≡ true → spec_field_of_text (text_of heap.now value.now) ≡ None }
{
    let mut budget = Budget { left: MOST_STEPS };
    !budget.charge_conversion(heap, value)
}

fn field_of_text(text: Text) -> Option<Field>
    ensures { result ≡ spec_field_of_text text }
{
    if text.len() > MOST_CODES {
        return None;
    }
    Some(Field::Words(text))
}
