//! The elements of an array as a list, and their order turned round, both in a time for its places.

ghost use Rattle.std.specs.Prelude.{◌≡◌, ◌<◌, ◌≤◌, ◌/◌, ◌++◌, option_to_list, IfOk, OnOk, OnErr};
ghost use Rattle.std.specs.List.{flat_map, range_with_len};
ghost use Rattle.es_values.specs.Arrays.{element_at as spec_element_at, elements_below, new_element, new_elements, turned_properties};
ghost use Rattle.es_values.specs.devices.Turning.{all_changed, change_at, changed, changes_below};

use crate::property_map::{Properties, Property};
use crate::texts::index_name;
use crate::values::Value;
use bml_bytes::{NoMemory, Text, law_of_decimals};

/// The greatest length of an array.
pub const MOST_ELEMENTS: usize = 2_147_483_647;

// The name of an element, and the value that it gets, if it stays.
type Change = (Text, Option<Value>);

// The elements below a place, in ascending place.
pub fn elements(properties: &Properties, count: u32) -> Result<Vec<Value>, NoMemory>
    ensures { IfOk result
        (λ elements. elements.items ≡ elements_below count properties.now) }
{
    let mut elements = Vec::new(properties.allocator());
    for place in 0..count {
        push_element_at(properties, place, &mut elements)?;
    }
    Ok(elements)
}

// Turns the elements of an array of so many round: first those that stand, in their order, and then the new
// ones. Properties that are no elements aren't looked at.
pub fn turn(properties: &mut Properties, count: u32) -> Result<(), NoMemory>
    requires { count ≤ 2147483647 }
    ensures ok { OnOk result (properties.new ≡ turned_properties count properties.old) }
    ensures err { OnErr result (properties.new ≡ properties.old) }
{
    law_of_decimals();
    properties.is_distinct();
    let changes = changes(properties, count)?;
    let added = added(properties, count)?;
    properties.put_all(added)?;
    change_all(properties, changes);
    Ok(())
}

// What becomes of the elements that stand: of each its name, and the value that it gets, if there is one.
fn changes(properties: &Properties, count: u32) -> Result<Vec<Change>, NoMemory>
    ensures { IfOk result (λ changes. changes.items ≡ changes_below count count properties.now) }
{
    let mut changes = Vec::new(properties.allocator());
    for place in 0..count {
        push_change(properties, count, place, &mut changes)?;
    }
    Ok(changes)
}

fn push_change(
    properties: &Properties,
    count: u32,
    place: u32,
    changes: &mut Vec<Change>,
) -> Result<(), NoMemory>
    requires { place < count }
    ensures { OnOk result (changes.new.items
        ≡ changes.old.items ++ option_to_list (change_at count properties.now place)) }
{
    if properties.lacks(place) {
        return Ok(());
    }
    let name = index_name(properties.allocator(), place)?;
    if properties.has(&name) {
        let value = element_at(properties, count - 1 - place)?;
        changes.push((name, value))?;
    }
    Ok(())
}

fn change_all(properties: &mut Properties, changes: Vec<Change>)
    ensures { properties.new ≡ all_changed properties.old changes.items }
{
    for change in changes {
        make_change(properties, change);
    }
}

fn make_change(properties: &mut Properties, change: Change)
    ensures { properties.new ≡ changed properties.old change }
{
    let (name, value) = change;
    match value {
        Some(value) => properties.replace(name, value),
        None => {
            properties.remove(&name);
        }
    }
}

// The elements that are new, from the ends of the array to its middle.
fn added(properties: &Properties, count: u32) -> Result<Vec<Property>, NoMemory>
    ensures { IfOk result (λ added. added.items
        ≡ flat_map (new_elements count properties.now) (range_with_len 0 (count / 2))) }
{
    let mut added = Vec::new(properties.allocator());
    for place in 0..count / 2 {
        let other = count - 1 - place;
        push_new_element(properties, place, other, &mut added)?;
        push_new_element(properties, other, place, &mut added)?;
    }
    Ok(added)
}

// Appends an element at a place that has none, with the value of the other place, if there is one.
fn push_new_element(
    properties: &Properties,
    place: u32,
    other: u32,
    added: &mut Vec<Property>,
) -> Result<(), NoMemory>
    ensures { OnOk result (added.new.items
        ≡ added.old.items ++ new_element properties.now place other) }
{
    if properties.lacks(other) {
        return Ok(());
    }
    let name = index_name(properties.allocator(), place)?;
    if properties.has(&name) {
        return Ok(());
    }
    if let Some(value) = element_at(properties, other)? {
        added.push(Property::new(name, value)?)?;
    }
    Ok(())
}

// Appends the element at a place, where there is one.
fn push_element_at(
    properties: &Properties,
    place: u32,
    out: &mut Vec<Value>,
) -> Result<(), NoMemory>
    ensures { OnOk result (out.new.items
        ≡ out.old.items ++ option_to_list (spec_element_at properties.now place)) }
{
    if let Some(element) = element_at(properties, place)? {
        out.push(element)?;
    }
    Ok(())
}

// The element at a place, where there is one.
fn element_at(properties: &Properties, place: u32) -> Result<Option<Value>, NoMemory>
    ensures { IfOk result
        (λ element. element ≡ spec_element_at properties.now place) }
{
    if properties.lacks(place) {
        return Ok(None);
    }
    let name = index_name(properties.allocator(), place)?;
    match properties.get(&name) {
        Some(value) => Ok(Some(value.share()?)),
        None => Ok(None),
    }
}
