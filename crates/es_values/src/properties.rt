//! The properties of an object: names with values, in order of insertion.

ghost use Rattle.std.specs.Prelude.{◌≡◌, ◌<◌, ◌≤◌, ◌+◌, ◌-◌, ◌^◌, ◌++◌, ℕ, List, Some, length, map, min, option_to_list, IfOk, OnOk};
ghost use Rattle.bml_bytes.specs.Numerals.{decimal_digits};
ghost use Rattle.es_values.specs.declared.values.Value.{Value};
ghost use Rattle.es_values.specs.Heaps.{value_in};
ghost use Rattle.es_values.specs.Capped.{capped};
ghost use Rattle.es_values.specs.Charges.{begun_sixteens as spec_begun_sixteens};
ghost use Rattle.es_values.specs.Conversions.{joined, separator_at, text_at};
ghost use Rattle.es_values.specs.Lengths.{element_codes, elements_codes, texts_length};

use crate::charges::begun_sixteens;
use crate::property_map::Properties;
use crate::texts::{element_length, index_name, index_of_name, push_codes, push_element_text};
use crate::values::Value;
use bml_bytes::{NoMemory, Text, law_of_decimals};

// The value of the property of this name, and Undefined where there is none.
pub fn property_value(properties: &Properties, name: &Text) -> Result<Value, NoMemory>
    ensures { IfOk result (λ value. value ≡ value_in properties.now name.now) }
{
    match properties.get(name) {
        Some(value) => value.share(),
        None => Ok(Value::Undefined),
    }
}

pub fn names(properties: &Properties) -> Result<Vec<Text>, NoMemory>
    ensures { IfOk result
        (λ names. names.items ≡ map (λ property. property.0) properties.now) }
{
    let mut names = Vec::new(properties.allocator());
    for slot in properties.slots() {
        push_name(slot, &mut names)?;
    }
    Ok(names)
}

// Appends the name of a slot's property.
fn push_name(slot: &Option<(Text, Value)>, names: &mut Vec<Text>) -> Result<(), NoMemory>
    ensures { OnOk result (names.new.items
        ≡ names.old.items ++ map (λ property. property.0) (option_to_list slot.now)) }
{
    if let Some((name, _)) = slot {
        names.push(name.share()?)?;
    }
    Ok(())
}

// Appends the texts of the first elements, with the separator between them.
pub fn push_elements(
    properties: &Properties,
    count: u32,
    separator: &[u16],
    out: &mut Vec<u16>,
) -> Result<(), NoMemory>
    ensures { OnOk result (out.new.items
        ≡ out.old.items ++ joined properties.now separator.now count) }
{
    for place in 0..count {
        push_element(properties, place, separator, out)?;
    }
    Ok(())
}

// How many codes that appends with a separator of so many, or the greatest number of 64 bits where
// there are more.
pub fn joined_length(properties: &Properties, count: u32, separator: usize) -> u64
    requires { count ≤ 2147483647 }
    ensures { (text : List ℕ) → length text ≡ separator
        → result ≡ min (length (joined properties.now text count)) (2 ^ 64 - 1) }
{
    let separators = u64::from(count.saturating_sub(1));
    separators
        .saturating_mul(separator as u64)
        .saturating_add(elements_length(properties, count))
}

// What appending that is charged, as far as a budget goes.
pub fn joined_charge(properties: &Properties, count: u32, separator: usize) -> u64
    requires { count ≤ 2147483647 }
    ensures charge { (text : List ℕ) → length text ≡ separator → capped result
        ≡ capped (spec_begun_sixteens
        (count + length (joined properties.now text count))) }
    ensures small { result ≤ 2 ^ 60 }
{
    let codes = joined_length(properties, count, separator);
    begun_sixteens(codes.saturating_add(u64::from(count)))
}

// How many codes the texts of the first elements have. This reads whichever are fewer, the places or
// the slots, and the slots too where there is no memory for the names of places.
fn elements_length(properties: &Properties, count: u32) -> u64
    requires { count ≤ 2147483647 }
    ensures { result ≡ min (texts_length properties.now count) (2 ^ 64 - 1) }
{
    if count as usize <= properties.slots().len() {
        if let Ok(length) = length_by_places(properties, count) {
            return length;
        }
    }
    length_by_slots(properties, count)
}

fn length_by_places(properties: &Properties, count: u32) -> Result<u64, NoMemory>
    ensures { IfOk result
        (λ total. total ≡ min (texts_length properties.now count) (2 ^ 64 - 1)) }
{
    let mut total: u64 = 0;
    for place in 0..count {
        total = total.saturating_add(length_at(properties, place)?);
    }
    Ok(total)
}

// How many codes the text of the element at a place has.
fn length_at(properties: &Properties, place: u32) -> Result<u64, NoMemory>
    ensures { IfOk result (λ count. count ≡ length (text_at properties.now place)) }
{
    if properties.lacks(place) {
        return Ok(0);
    }
    let name = index_name(properties.allocator(), place)?;
    match properties.get(&name) {
        Some(value) => Ok(element_length(value) as u64),
        None => Ok(0),
    }
}

fn length_by_slots(properties: &Properties, count: u32) -> u64
    requires { count ≤ 2147483647 }
    ensures { result ≡ min (texts_length properties.now count) (2 ^ 64 - 1) }
{
    law_of_decimals();
    let mut total: u64 = 0;
    for slot in properties.slots() {
        total = total.saturating_add(codes_of_slot(slot, count));
    }
    total
}

// How many codes a slot adds to the text of an array of so many elements.
fn codes_of_slot(slot: &Option<(Text, Value)>, count: u32) -> u64
    ensures { result ≡ elements_codes count (option_to_list slot.now) }
{
    match slot {
        Some((name, value)) => codes_of_element(name, value, count),
        None => 0,
    }
}

// How many codes a property adds to the text of an array of so many elements.
fn codes_of_element(name: &Text, value: &Value, count: u32) -> u64
    ensures { result ≡ element_codes count (name.now, value.now) }
{
    match index_of_name(name) {
        Some(index) => {
            if index < count {
                element_length(value) as u64
            } else {
                0
            }
        }
        None => 0,
    }
}

// Appends the text of an element, with the separator in front of it where it isn't the first.
fn push_element(
    properties: &Properties,
    place: u32,
    separator: &[u16],
    out: &mut Vec<u16>,
) -> Result<(), NoMemory>
    ensures { OnOk result (out.new.items
        ≡ out.old.items
        ++ (separator_at separator.now place ++ text_at properties.now place)) }
{
    let value = value_at(properties, place)?;
    push_separator(place, separator, out)?;
    push_element_text(&value, out)
}

// The value of the element at a place, and Undefined where there is none.
fn value_at(properties: &Properties, place: u32) -> Result<Value, NoMemory>
    ensures { IfOk result (λ value. value ≡ value_in properties.now (decimal_digits place)) }
{
    if properties.lacks(place) {
        return Ok(Value::Undefined);
    }
    let name = index_name(properties.allocator(), place)?;
    property_value(properties, &name)
}

fn push_separator(place: u32, separator: &[u16], out: &mut Vec<u16>) -> Result<(), NoMemory>
    ensures { OnOk result (out.new.items ≡ out.old.items ++ separator_at separator.now place) }
{
    if place == 0 {
        Ok(())
    } else {
        push_codes(separator, out)
    }
}
