//! The properties of an object: a list in order of insertion, with an index of the names.

ghost use Rattle.std.specs.Prelude.{◌≡◌, ◌≤◌, ◌<◌, ◌+◌, ◌++◌, ◌∷◌, [], ℕ, List, Some, None, slice_set, true, false, is_some, not, count_by, length, option_to_list, IfOk, IfSome, OnOk, OnErr};
ghost use Rattle.std.specs.Map.{lookup, remove_entry, set_value};
ghost use Rattle.std.specs.Option.{option_copied, option_map_or};
ghost use Rattle.std.specs.Vec.{vec_capacity, vec_len};
ghost use Rattle.indexmap.specs.IndexMap.{insert_all, insert_entry, spare};
ghost use Rattle.bml_bytes.specs.Words.{is_same};
ghost use Rattle.es_values.specs.Arrays.{element_at};
ghost use Rattle.es_values.specs.Heaps.{cut_at, is_element_from as spec_is_element_from};
ghost use Rattle.es_values.specs.Slots.{HaveOwnNames, Indexes, IsIndexOfNames, is_element_name, placed, standing};
ghost use Rattle.es_values.specs.devices.Indices.{AreKept, indices_of};

use crate::indices::{Indices, greatest, indices_from, lacks, with_name, without_name};
use crate::texts::{index_name, is_element_from};
use crate::values::Value;
use bml_bytes::{NoMemory, Text, law_of_decimals};
use indexmap::IndexMap;
use std::alloc::Global;
use std::collections::BTreeSet;
use std::marker::Model;

/// Properties, each a name with a value, in order of insertion and found by name in constant time.
/// Contracts see their list. A property stands in a slot, and a removed one leaves its slot empty:
/// where more than half of the slots are empty they are closed up, so that a removal takes constant
/// time on average. The indices of elements are kept in order beside them, so that those at a place and
/// behind it are found without a look at the others. (This project's own.)
#[derive(Drop)]
pub struct Properties {
    places: IndexMap<Text, usize>,
    slots: Vec<Option<(Text, Value)>>,
    indices: Indices,
}

impl Model for Properties {
    ghost use Rattle.std.specs.Prelude.{List, ℕ};
    ghost use Rattle.es_values.specs.declared.values.Value.{Value as ScriptValue};
    ghost use Rattle.es_values.specs.Slots.{Indexes, standing};
    ghost use Rattle.es_values.specs.devices.Indices.{AreKept, indices_of};

    ghost Value = { List (List ℕ × ScriptValue) };

    ghost view = { λ properties. standing properties.slots.items };

    ghost invariant = { λ properties.
        Indexes properties.places.entries properties.slots.items
        × AreKept properties.indices (indices_of (standing properties.slots.items)) };
}

impl Properties {
    /// No properties. This takes no memory.
    pub fn new(alloc: Global) -> Properties
        ensures { result ≡ [] }
    {
        Properties {
            places: IndexMap::new(alloc),
            slots: Vec::new(alloc),
            indices: Some(BTreeSet::new(alloc)),
        }
    }

    /// What they are allocated by.
    pub fn allocator(&self) -> Global {
        *self.slots.allocator()
    }

    /// The slots, in order of insertion. Some are empty, but at most one more than have a property.
    pub fn slots(&self) -> &[Option<(Text, Value)>]
        ensures standing { standing result.now ≡ self.now }
        ensures distinct { HaveOwnNames self.now }
    {
        &self.slots
    }

    /// No two have the same name. What is held is always so; this tells a caller.
    pub fn is_distinct(&self)
        ensures { HaveOwnNames self.now }
    {
        let _ = &self.slots;
    }

    /// The value of the property of this name.
    pub fn get(&self, name: &Text) -> Option<&Value>
        ensures { option_copied result ≡ lookup (is_same name.now) self.now }
    {
        let place = self.places.get(name)?;
        match &self.slots[*place] {
            Some((_, value)) => Some(value),
            None => None,
        }
    }

    /// Whether there is a property of this name.
    pub fn has(&self, name: &Text) -> bool
        ensures { result ≡ is_some (lookup (is_same name.now) self.now) }
    {
        self.get(name).is_some()
    }

    /// Whether it is known without its name that no element stands at a place.
    pub fn lacks(&self, place: u32) -> bool
        ensures { result ≡ true → element_at self.now place ≡ None }
    {
        if place < 2_147_483_647 {
            lacks(&self.indices, place)
        } else {
            false
        }
    }

    /// Gives a name a value. A property of the name keeps its place, and a new one goes last.
    pub fn put(&mut self, name: Text, value: Value) -> Result<(), NoMemory>
        ensures ok { OnOk result (self.new ≡ insert_entry is_same self.old name value) }
        ensures err { OnErr result (self.new ≡ self.old) }
    {
        let property = Property::new(name, value)?;
        self.places.reserve(1)?;
        self.slots.reserve(1)?;
        put_property(
            &mut self.places,
            &mut self.slots,
            &mut self.indices,
            property,
        );
        Ok(())
    }

    /// Gives the names of the first elements these values, or nothing where there is no memory.
    pub fn put_elements(&mut self, elements: Vec<Value>) -> Result<(), NoMemory>
        requires { length elements.items ≤ 2147483647 }
        ensures ok { OnOk result
            (self.new ≡ insert_all is_same self.old (placed 0 elements.items)) }
        ensures err { OnErr result (self.new ≡ self.old) }
    {
        let properties = named_elements(self.allocator(), elements)?;
        self.put_all(properties)
    }

    /// Puts properties in turn, or none where there is no memory.
    pub fn put_all(&mut self, properties: Vec<Property>) -> Result<(), NoMemory>
        ensures ok { OnOk result (self.new ≡ insert_all is_same self.old properties.items) }
        ensures err { OnErr result (self.new ≡ self.old) }
    {
        self.places.reserve(properties.len())?;
        self.slots.reserve(properties.len())?;
        put_properties(
            &mut self.places,
            &mut self.slots,
            &mut self.indices,
            properties,
        );
        Ok(())
    }

    /// Gives the property of a name another value, if there is one. This takes no memory.
    pub fn replace(&mut self, name: Text, value: Value)
        ensures { self.new ≡ set_value (is_same name) self.old value }
    {
        if let Some(place) = self.places.get(&name) {
            set_slot(&mut self.slots, *place, (name, value));
        }
    }

    /// Takes the property of this name away, and answers whether there was one. This takes no
    /// memory.
    pub fn remove(&mut self, name: &Text) -> bool
        ensures there { result ≡ is_some (lookup (is_same name.now) self.old) }
        ensures without { self.new ≡ remove_entry (is_same name.now) self.old }
    {
        match self.places.swap_remove(name) {
            Some(place) => {
                self.slots[place] = None;
                self.indices = without_name(self.indices.take(), name);
                self.close_up();
                true
            }
            None => false,
        }
    }

    /// How many elements stand at a place and behind it.
    pub fn count_from(&self, place: u32) -> usize
        ensures { result ≡ count_by (spec_is_element_from place) self.now }
    {
        match indices_from(&self.indices, place) {
            Some(count) => count,
            None => count_from(&self.slots, place),
        }
    }

    /// Takes the elements at a place and behind it away, in a time for those alone as long as there is
    /// memory for their names.
    pub fn cut(&mut self, place: u32)
        ensures { self.new ≡ cut_at place self.old }
    {
        for _ in 0..indices_from(&self.indices, place).unwrap_or(0) {
            self.remove_last(place);
        }
        if self.count_from(place) > 0 {
            self.retain_below(place);
        }
    }

    // Takes the last element away, where it stands at a place or behind it and there is memory for its
    // name.
    fn remove_last(&mut self, place: u32)
        ensures { cut_at place self.new ≡ cut_at place self.old }
    {
        if let Some(name) = self.last_name(place) {
            self.remove(&name);
        }
    }

    // The name of the last element, where it stands at a place or behind it and there is memory for it.
    fn last_name(&self, place: u32) -> Option<Text>
        ensures { IfSome result (λ name. is_element_name place name ≡ true) }
    {
        law_of_decimals();
        let index = greatest(&self.indices)?;
        if index < place {
            return None;
        }
        match index_name(self.allocator(), index) {
            Ok(name) => Some(name),
            Err(_) => None,
        }
    }

    // Takes the elements at a place and behind it away, with a look at each property. No indices are kept
    // any more.
    fn retain_below(&mut self, place: u32)
        ensures { self.new ≡ cut_at place self.old }
    {
        self.indices = None;
        self.places.retain(
            |name: &Text, stands: &mut usize| -> bool
                ensures { (result ≡ not (is_element_name place name.now))
                    × (stands.new ≡ stands.old) }
            { !is_element_from(place, name) },
        );
        self.slots.retain(
            |slot: &Option<(Text, Value)>| -> bool
                ensures { result
                    ≡ option_map_or (λ property. not (is_element_name place property.0))
                    slot.now false }
            { keeps_slot(place, slot) },
        );
        renumber(&mut self.places, &self.slots);
    }

    // Closes up the slots where more than half of them are empty.
    fn close_up(&mut self)
        ensures { self.new ≡ self.old }
    {
        if self.places.len() < self.slots.len() / 2 {
            self.slots.retain(
                |slot: &Option<(Text, Value)>| -> bool
                    ensures { result ≡ is_some slot.now }
                { slot.is_some() },
            );
            renumber(&mut self.places, &self.slots);
        }
    }
}

/// A property with its name once more, for the index.
#[derive(Drop)]
pub struct Property {
    name: Text,
    slot: (Text, Value),
}

impl Model for Property {
    ghost use Rattle.std.specs.Prelude.{◌≡◌, List, ℕ};
    ghost use Rattle.es_values.specs.declared.values.Value.{Value as ScriptValue};

    ghost Value = { List ℕ × ScriptValue };

    ghost view = { λ property. property.slot };

    ghost invariant = { λ property. property.name ≡ property.slot.0 };
}

impl Property {
    pub fn new(name: Text, value: Value) -> Result<Property, NoMemory>
        ensures { IfOk result (λ property. property ≡ (name, value)) }
    {
        Ok(Property {
            name: name.share()?,
            slot: (name, value),
        })
    }
}

// The values as elements, with their names.
fn named_elements(alloc: Global, elements: Vec<Value>) -> Result<Vec<Property>, NoMemory>
    requires { length elements.items ≤ 2147483647 }
    ensures { IfOk result (λ properties. properties.items ≡ placed 0 elements.items) }
{
    let mut properties = Vec::with_capacity(alloc, elements.len())?;
    let mut place = 0;
    for element in elements {
        let name = index_name(alloc, place)?;
        properties.push(Property::new(name, element)?)?;
        place += 1;
    }
    Ok(properties)
}

// Puts properties in turn, where there is room for all of them.
fn put_properties(
    places: &mut IndexMap<Text, usize>,
    slots: &mut Vec<Option<(Text, Value)>>,
    indices: &mut Indices,
    properties: Vec<Property>,
)
    requires indexed { Indexes places.old.entries slots.old.items }
    requires places { length properties.items ≤ spare places.old }
    requires slots { vec_len slots.old + length properties.items ≤ vec_capacity slots.old }
    ensures indexed { Indexes places.new.entries slots.new.items }
    ensures standing { standing slots.new.items
        ≡ insert_all is_same (standing slots.old.items) properties.items }
    ensures kept { AreKept indices.old (indices_of (standing slots.old.items))
        → AreKept indices.new (indices_of (standing slots.new.items)) }
{
    for property in properties {
        put_property(places, slots, indices, property);
    }
}

// Puts a property, where there is room for it.
fn put_property(
    places: &mut IndexMap<Text, usize>,
    slots: &mut Vec<Option<(Text, Value)>>,
    indices: &mut Indices,
    property: Property,
)
    requires indexed { Indexes places.old.entries slots.old.items }
    requires places { 0 < spare places.old }
    requires slots { vec_len slots.old < vec_capacity slots.old }
    ensures indexed { Indexes places.new.entries slots.new.items }
    ensures standing { standing slots.new.items
        ≡ insert_entry is_same (standing slots.old.items) property.0 property.1 }
    ensures kept { AreKept indices.old (indices_of (standing slots.old.items))
        → AreKept indices.new (indices_of (standing slots.new.items)) }
    ensures places { spare places.old ≤ spare places.new + 1 }
    ensures slots { vec_len slots.new ≤ vec_len slots.old + 1 }
    ensures capacity { vec_capacity slots.old ≤ vec_capacity slots.new }
{
    let Property { name, slot } = property;
    match places.get(&name) {
        Some(place) => slots[*place] = Some(slot),
        None => {
            *indices = with_name(indices.take(), &name);
            let _placed = places.insert(name, slots.len());
            let _pushed = slots.push(Some(slot));
        }
    }
}

// Puts a property into the slot at a place.
fn set_slot(slots: &mut Vec<Option<(Text, Value)>>, place: usize, property: (Text, Value))
    requires { place < length slots.old.items }
    ensures { slots.new.items ≡ slice_set slots.old.items place (Some property) }
{
    slots[place] = Some(property);
}

// Gives each name the place at which it stands now.
fn renumber(places: &mut IndexMap<Text, usize>, slots: &[Option<(Text, Value)>])
    requires names { IsIndexOfNames places.old.entries (standing slots.now) }
    requires distinct { HaveOwnNames (standing slots.now) }
    ensures { Indexes places.new.entries slots.now }
{
    for place in 0..slots.len() {
        renumber_slot(places, &slots[place], place);
    }
}

// Gives the name of a slot this place.
fn renumber_slot(places: &mut IndexMap<Text, usize>, slot: &Option<(Text, Value)>, place: usize)
    ensures { places.new.entries
        ≡ option_map_or (λ property. set_value (is_same property.0) places.old.entries place)
        slot.now places.old.entries }
{
    if let Some((name, _)) = slot {
        set_place(places, name, place);
    }
}

// Gives a name this place, if it has one.
fn set_place(places: &mut IndexMap<Text, usize>, name: &Text, place: usize)
    ensures { places.new.entries ≡ set_value (is_same name.now) places.old.entries place }
{
    if let Some(stands) = places.get_mut(name) {
        *stands = place;
    }
}

// Whether the slot has a property that is no element at this place or behind it.
fn keeps_slot(place: u32, slot: &Option<(Text, Value)>) -> bool
    ensures { result
        ≡ option_map_or (λ property. not (is_element_name place property.0)) slot.now false }
{
    match slot {
        Some((name, _)) => !is_element_from(place, name),
        None => false,
    }
}

// How many elements stand at a place and behind it, with a look at each slot.
fn count_from(slots: &[Option<(Text, Value)>], place: u32) -> usize
    ensures { result ≡ count_by (spec_is_element_from place) (standing slots.now) }
{
    let mut count = 0;
    for slot in slots {
        count += counted(place, slot);
    }
    count
}

// 1 for an element at a place or behind it, and 0 for every other slot.
fn counted(place: u32, slot: &Option<(Text, Value)>) -> usize
    ensures count { result ≡ count_by (spec_is_element_from place) (option_to_list slot.now) }
    ensures small { result ≤ 1 }
{
    match slot {
        Some((name, _)) => { if is_element_from(place, name) { 1 } else { 0 } }
        None => 0,
    }
}
