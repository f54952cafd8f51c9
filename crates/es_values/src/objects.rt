//! One object of a heap.

ghost use Rattle.std.specs.Prelude.{◌≡◌, ◌+◌, ◌-◌, ◌<◌, ◌≤◌, ◌^◌, ◌++◌, ℕ, List, Some, None, pos, length, max, min, unwrap_or, IfOk, OnOk, OnErr};
ghost use Rattle.std.specs.Option.{ForSome, option_map_or};
ghost use Rattle.es_values.specs.declared.numbers.Num.TheVariants.{Whole};
ghost use Rattle.es_values.specs.Arrays.{array_of, elements_of, turned_object, with_elements, with_first_elements};
ghost use Rattle.es_values.specs.Objects.{IsWithinLength};
ghost use Rattle.es_values.specs.Heaps.{cut_count as spec_cut_count, has_property, is_array_length, names_of, new_object, object_of, value_of, with_length, with_property, without_property};
ghost use Rattle.es_values.specs.Capped.{capped, saturated};
ghost use Rattle.es_values.specs.Charges.{join_charge};
ghost use Rattle.es_values.specs.Conversions.{join_of, object_text};

use crate::arrays::{MOST_ELEMENTS, elements, turn};
use crate::numbers::Num;
use crate::properties::{joined_charge, joined_length, names, property_value, push_elements};
use crate::property_map::Properties;
use crate::texts::{index_name, index_of_name};
use crate::values::Value;
use bml_bytes::{NoMemory, Text};
use std::alloc::Global;
use std::marker::Model;

/// An object: its length, where it is an array, and its properties in order of insertion.
#[derive(Drop)]
pub struct Object {
    length: Option<u32>,
    properties: Properties,
}

impl Model for Object {
    ghost use Rattle.es_values.specs.Objects.{IsWithinLength, ObjectState};

    ghost Value = { ObjectState };

    ghost view = { λ object. record {
      array_length = object.length;
      properties = object.properties;
    } };

    ghost invariant = { λ object. IsWithinLength object.length };
}

impl Object {
    pub fn new(alloc: Global, array: bool) -> Object
        ensures { result ≡ new_object array }
    {
        Object {
            length: if array { Some(0) } else { None },
            properties: Properties::new(alloc),
        }
    }

    // An array with these values as its elements.
    pub fn of_elements(alloc: Global, elements: Vec<Value>) -> Result<Object, NoMemory>
        ensures array { IfOk result (λ array. array ≡ array_of elements.items) }
        ensures few { OnOk result (length elements.items ≤ 2147483647) }
    {
        if elements.len() > MOST_ELEMENTS {
            return Err(NoMemory);
        }
        let mut array = Object::new(alloc, true);
        array.put_elements(elements)?;
        Ok(array)
    }

    // An object that is no array, with these properties.
    pub fn of_properties(alloc: Global, properties: Vec<(Text, Value)>) -> Result<Object, NoMemory>
        ensures { IfOk result (λ object. object ≡ object_of properties.items) }
    {
        let mut object = Object::new(alloc, false);
        for (name, value) in properties {
            object.put(name, value)?;
        }
        Ok(object)
    }

    pub fn array_length(&self) -> Option<u32>
        ensures { result ≡ self.now.array_length }
    {
        self.length
    }

    // Whether the name is that of an array's length.
    pub fn is_array_length(&self, name: &Text) -> bool
        ensures { result ≡ is_array_length self.now name.now }
    {
        self.length.is_some() && name.is_word("length")
    }

    pub fn get(&self, name: &Text) -> Result<Value, NoMemory>
        ensures { IfOk result (λ value. value ≡ value_of self.now name.now) }
    {
        if self.is_array_length(name) {
            return Ok(Value::Number(self.length_number()));
        }
        property_value(&self.properties, name)
    }

    // Gives a value to a name that isn't an array's length.
    pub fn put(&mut self, name: Text, value: Value) -> Result<(), NoMemory>
        ensures ok { OnOk result (self.new ≡ with_property self.old name value) }
        ensures err { OnErr result (self.new ≡ self.old) }
    {
        let length = longer(self.length, index_of_name(&name));
        self.properties.put(name, value)?;
        self.length = length;
        Ok(())
    }

    // Gives an array another length, and takes the elements past it away.
    pub fn set_length(&mut self, length: Num)
        ensures { self.new ≡ with_length self.old length }
    {
        match length {
            Num::Whole(length) => {
                if length >= 0 {
                    self.cut(length.unsigned_abs());
                }
            }
            Num::NotANumber => {}
        }
    }

    // How many elements go with a length.
    pub fn cut_count(&self, length: Num) -> usize
        ensures { result ≡ spec_cut_count self.now length }
    {
        match length {
            Num::Whole(length) => {
                if length >= 0 {
                    self.properties.count_from(length.unsigned_abs())
                } else {
                    0
                }
            }
            Num::NotANumber => 0,
        }
    }

    pub fn remove(&mut self, name: &Text) -> bool
        ensures there { result ≡ has_property self.old name.now }
        ensures without { self.new ≡ without_property self.old name.now }
    {
        if self.is_array_length(name) {
            return false;
        }
        self.properties.remove(name)
    }

    // Whether there is a property of this name that can go.
    pub fn has(&self, name: &Text) -> bool
        ensures { result ≡ has_property self.now name.now }
    {
        !self.is_array_length(name) && self.properties.has(name)
    }

    // The elements of an array, in ascending place.
    pub fn elements(&self) -> Result<Vec<Value>, NoMemory>
        ensures { IfOk result (λ elements. elements.items ≡ elements_of self.now) }
    {
        match self.length {
            Some(length) => elements(&self.properties, length),
            None => Ok(Vec::new(self.properties.allocator())),
        }
    }

    // Makes these values the first elements, and takes all other elements away.
    pub fn set_elements(&mut self, elements: Vec<Value>) -> Result<(), NoMemory>
        ensures ok { OnOk result (self.new ≡ with_first_elements self.old elements.items) }
        ensures err { OnErr result (self.new ≡ self.old) }
    {
        let count = elements.len();
        if count > MOST_ELEMENTS {
            return Err(NoMemory);
        }
        self.properties.put_elements(elements)?;
        self.properties.cut(count as u32);
        Ok(())
    }

    // Turns the elements of an array round.
    pub fn reverse(&mut self) -> Result<(), NoMemory>
        ensures ok { OnOk result (self.new ≡ turned_object self.old) }
        ensures err { OnErr result (self.new ≡ self.old) }
    {
        if let Some(length) = self.length {
            turn(&mut self.properties, length)?;
        }
        Ok(())
    }

    pub fn names(&self) -> Result<Vec<Text>, NoMemory>
        ensures { IfOk result (λ names. names.items ≡ names_of self.now) }
    {
        names(&self.properties)
    }

    // Appends the elements' texts, with the separator between them, and nothing of an object that
    // is no array.
    pub fn push_joined(&self, separator: &[u16], out: &mut Vec<u16>) -> Result<(), NoMemory>
        ensures { OnOk result (out.new.items ≡ out.old.items ++ join_of self.now separator.now) }
    {
        match self.length {
            Some(length) => push_elements(&self.properties, length, separator, out),
            None => Ok(()),
        }
    }

    // The charge of joining its elements with a separator of so many codes.
    pub fn join_charge(&self, separator: usize) -> u64
        ensures charge { (text : List ℕ) → length text ≡ separator
            → capped result ≡ capped (join_charge self.now text) }
        ensures small { result ≤ 2 ^ 60 }
    {
        match self.length {
            Some(length) => joined_charge(&self.properties, length, separator),
            None => 0,
        }
    }

    // How many codes its text has.
    pub fn text_length(&self) -> u64
        ensures { result ≡ saturated (length (object_text self.now)) }
    {
        match self.length {
            Some(length) => joined_length(&self.properties, length, 1),
            None => 15,
        }
    }

    // Puts the values as the first elements.
    fn put_elements(&mut self, elements: Vec<Value>) -> Result<(), NoMemory>
        requires { length elements.items ≤ 2147483647 }
        ensures { OnOk result (self.new ≡ with_elements self.old 0 elements.items) }
    {
        let alloc = self.properties.allocator();
        let mut place = 0;
        for element in elements {
            let name = index_name(alloc, place)?;
            self.put(name, element)?;
            place += 1;
        }
        Ok(())
    }

    fn length_number(&self) -> Num
        ensures { result ≡ Whole (pos (unwrap_or self.now.array_length 0)) }
    {
        match self.length {
            Some(length) => Num::Whole(length as i32),
            None => Num::Whole(0),
        }
    }

    // Gives it this length, and takes the elements past it away.
    fn cut(&mut self, length: u32)
        requires { length ≤ 2147483647 }
        ensures { self.new ≡ with_length self.old (Whole (pos length)) }
    {
        self.properties.cut(length);
        self.length = Some(length);
    }
}

// The length of an object once an element stands at this place, if it is one's.
fn longer(length: Option<u32>, index: Option<u32>) -> Option<u32>
    requires length { IsWithinLength length }
    requires index { ForSome index (λ place. place < 2147483647) }
    ensures length { result ≡ option_map_or
        (λ old. Some (max old (option_map_or (λ place. place + 1) index 0))) length None }
    ensures within { IsWithinLength result }
{
    match length {
        Some(length) => match index {
            Some(index) => Some(length.max(index + 1)),
            None => Some(length),
        },
        None => None,
    }
}
