//! The heap of a script's objects.

ghost use Rattle.std.specs.Prelude.{◌≡◌, ◌<◌, ◌≤◌, ◌++◌, ◌∷◌, [], is_some, length, All, IfOk, OnOk, OnErr};
ghost use Rattle.es_values.specs.Arrays.{array_of, elements_of, turned_object, with_first_elements};
ghost use Rattle.es_values.specs.Heaps.{IsLive, IsSound, has_property, is_array_length, names_of, new_object, object_at, object_of, value_of, with_length, with_object, with_property, without_property};
ghost use Rattle.es_values.specs.Operators.{with_put};

use crate::numbers::Num;
use crate::objects::Object;
use crate::values::Value;
use bml_bytes::{NoMemory, Text};
use std::alloc::Global;
use std::marker::Model;

/// The objects of a script. An object is named by its number, which is its place among them, and
/// none ever goes. Contracts see the list of the objects, each with its length, where it is an
/// array, and its properties in order of insertion. (ECMA-262 second edition, 8.6 and 15.4, in this
/// profile.)
#[derive(Drop)]
pub struct Heap {
    objects: Vec<Object>,
}

impl Model for Heap {
    ghost use Rattle.std.specs.Prelude.{List};
    ghost use Rattle.es_values.specs.Objects.{ObjectState};
    ghost use Rattle.es_values.specs.Heaps.{IsSound};

    ghost Value = { List ObjectState };

    ghost view = { λ heap. heap.objects.items };

    ghost invariant = { λ heap. IsSound heap.objects.items };
}

impl Heap {
    /// A heap without objects. This takes no memory.
    pub fn new(alloc: Global) -> Heap
        ensures { result ≡ [] }
    {
        Heap {
            objects: Vec::new(alloc),
        }
    }

    /// The number of its objects, which is the next object's number.
    pub fn len(&self) -> u64
        ensures { result ≡ length self.now }
    {
        self.objects.len() as u64
    }

    /// Each object that a property names is one of the heap's. What is held is always so; this
    /// tells a caller.
    pub fn is_sound(&self)
        ensures { IsSound self.now }
    {
        let _ = &self.objects;
    }

    /// Adds an object without properties, an array of length 0 or none, and gives its number.
    pub fn add(&mut self, array: bool) -> Result<u64, NoMemory>
        ensures added { OnOk result (self.new ≡ self.old ++ new_object array ∷ []) }
        ensures number { IfOk result (λ object. object ≡ length self.old) }
        ensures live { IfOk result (λ object. object < length self.new) }
        ensures err { OnErr result (self.new ≡ self.old) }
    {
        let object = self.len();
        let alloc = *self.objects.allocator();
        self.objects.push(Object::new(alloc, array))?;
        Ok(object)
    }

    /// Adds an array with these values as its elements, and gives its number. An array of more than
    /// 2,147,483,647 elements takes more memory than there is.
    pub fn add_array(&mut self, elements: Vec<Value>) -> Result<u64, NoMemory>
        requires { All (IsLive self.old) elements.items }
        ensures added { OnOk result (self.new ≡ self.old ++ array_of elements.items ∷ []) }
        ensures number { IfOk result (λ object. object ≡ length self.old) }
        ensures err { OnErr result (self.new ≡ self.old) }
    {
        let object = self.len();
        let array = Object::of_elements(self.allocator(), elements)?;
        self.objects.push(array)?;
        Ok(object)
    }

    /// Adds an object that is no array, with these properties in this order, and gives its number.
    /// Of two with one name the last counts.
    pub fn add_object(&mut self, properties: Vec<(Text, Value)>) -> Result<u64, NoMemory>
        requires { All (λ property. IsLive self.old property.1) properties.items }
        ensures added { OnOk result (self.new ≡ self.old ++ object_of properties.items ∷ []) }
        ensures number { IfOk result (λ object. object ≡ length self.old) }
        ensures err { OnErr result (self.new ≡ self.old) }
    {
        let object = self.len();
        let added = Object::of_properties(self.allocator(), properties)?;
        self.objects.push(added)?;
        Ok(object)
    }

    /// Whether an object is an array.
    pub fn is_array(&self, object: u64) -> bool
        requires { object < length self.now }
        ensures { result ≡ is_some (object_at self.now object).array_length }
    {
        self.object(object).array_length().is_some()
    }

    /// The length of an array, and None of another object.
    pub fn array_length(&self, object: u64) -> Option<u32>
        requires { object < length self.now }
        ensures { result ≡ (object_at self.now object).array_length }
    {
        self.object(object).array_length()
    }

    /// Whether an object is an array and the name `length`.
    pub fn is_array_length(&self, object: u64, name: &Text) -> bool
        requires { object < length self.now }
        ensures { result ≡ is_array_length (object_at self.now object) name.now }
    {
        self.object(object).is_array_length(name)
    }

    /// The value of a property: of an array's `length` its length, and Undefined where there is no
    /// such property.
    pub fn get(&self, object: u64, name: &Text) -> Result<Value, NoMemory>
        requires { object < length self.now }
        ensures value { IfOk result
            (λ value. value ≡ value_of (object_at self.now object) name.now) }
        ensures live { IfOk result (λ value. IsLive self.now value) }
    {
        self.is_sound();
        self.object(object).get(name)
    }

    /// Gives a property a value. One that is there keeps its place, and a new one goes last. An
    /// element at the length of an array or past it makes the array longer. For the name `length`
    /// of an array the value becomes a number: a length, and then the elements past it go, or else
    /// nothing is done.
    pub fn put(&mut self, object: u64, name: &Text, value: Value) -> Result<(), NoMemory>
        requires object { object < length self.old }
        requires value { IsLive self.old value }
        ensures ok { OnOk result (self.new ≡ with_put self.old object name.now value) }
        ensures err { OnErr result (self.new ≡ self.old) }
        ensures objects { length self.new ≡ length self.old }
    {
        if self.is_array_length(object, name) {
            let length = self.to_number(&value)?;
            self.set_length(object, length);
            return Ok(());
        }
        let name = name.share()?;
        self.put_property(object, name, value)
    }

    /// Takes a property away, and answers whether there was one. An array's `length` stays, and the
    /// answer is false. This takes no memory.
    pub fn remove(&mut self, object: u64, name: &Text) -> bool
        requires { object < length self.old }
        ensures there { result ≡ has_property (object_at self.old object) name.now }
        ensures without { self.new ≡ with_object self.old object
            (without_property (object_at self.old object) name.now) }
        ensures objects { length self.new ≡ length self.old }
    {
        self.objects[object as usize].remove(name)
    }

    /// Whether there is a property of this name that `remove` would take away.
    pub fn has(&self, object: u64, name: &Text) -> bool
        requires { object < length self.now }
        ensures { result ≡ has_property (object_at self.now object) name.now }
    {
        self.object(object).has(name)
    }

    /// The elements of an array, in ascending place and without those that are missing; none of
    /// another object. It takes time for each place below the array's length.
    pub fn elements(&self, object: u64) -> Result<Vec<Value>, NoMemory>
        requires { object < length self.now }
        ensures elements { IfOk result
            (λ elements. elements.items ≡ elements_of (object_at self.now object)) }
        ensures live { IfOk result (λ elements. All (IsLive self.now) elements.items) }
    {
        self.is_sound();
        self.object(object).elements()
    }

    /// Makes these values the first elements of an object, and takes all its other elements away. A
    /// name that stands keeps its place, and new ones go last. The length stays.
    pub fn set_elements(&mut self, object: u64, elements: Vec<Value>) -> Result<(), NoMemory>
        requires object { object < length self.old }
        requires live { All (IsLive self.old) elements.items }
        ensures ok { OnOk result (self.new ≡ with_object self.old object
            (with_first_elements (object_at self.old object) elements.items)) }
        ensures err { OnErr result (self.new ≡ self.old) }
        ensures objects { length self.new ≡ length self.old }
    {
        self.objects[object as usize].set_elements(elements)
    }

    /// Lets the elements of an array change places from its ends to its middle. A missing one is
    /// missing at the other place behind it. It takes time for each place below the array's length,
    /// and of another object nothing changes.
    pub fn reverse(&mut self, object: u64) -> Result<(), NoMemory>
        requires { object < length self.old }
        ensures ok { OnOk result (self.new ≡ with_object self.old object
            (turned_object (object_at self.old object))) }
        ensures err { OnErr result (self.new ≡ self.old) }
        ensures objects { length self.new ≡ length self.old }
    {
        self.objects[object as usize].reverse()
    }

    /// The names of an object's properties, in order of insertion. An array's `length` isn't among
    /// them.
    pub fn names(&self, object: u64) -> Result<Vec<Text>, NoMemory>
        requires { object < length self.now }
        ensures { IfOk result (λ names. names.items ≡ names_of (object_at self.now object)) }
    {
        self.object(object).names()
    }

    /// What its objects are allocated by.
    pub fn allocator(&self) -> Global {
        *self.objects.allocator()
    }

    // The object of a number.
    pub(crate) fn object(&self, object: u64) -> &Object
        requires { object < length self.now }
        ensures { result.now ≡ object_at self.now object }
    {
        &self.objects[object as usize]
    }

    fn set_length(&mut self, object: u64, number: Num)
        requires { object < length self.old }
        ensures length { self.new ≡ with_object self.old object
            (with_length (object_at self.old object) number) }
        ensures objects { length self.new ≡ length self.old }
    {
        self.objects[object as usize].set_length(number)
    }

    fn put_property(&mut self, object: u64, name: Text, value: Value) -> Result<(), NoMemory>
        requires object { object < length self.old }
        requires value { IsLive self.old value }
        ensures ok { OnOk result (self.new ≡ with_object self.old object
            (with_property (object_at self.old object) name value)) }
        ensures err { OnErr result (self.new ≡ self.old) }
        ensures objects { length self.new ≡ length self.old }
    {
        self.objects[object as usize].put(name, value)
    }
}
