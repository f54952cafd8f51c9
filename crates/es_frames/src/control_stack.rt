//! Frames of calls, over one vector of values and one of items.

ghost use Rattle.std.specs.Prelude.{◌≡◌, ◌<◌, ◌≤◌, ◌^◌, ◌++◌, ◌∷◌, [], drop, length, nat_lt, replicate, take, OnOk, OnErr};
ghost use Rattle.std.specs.Option.{option_copied};
ghost use Rattle.es_values.specs.declared.values.Value.TheVariants.{Undefined};
ghost use Rattle.es_frames.specs.Depth.{most_calls};
ghost use Rattle.es_frames.specs.Frames.{below_last, new_frame, next_item, this_of, value_at, values_of, with_item, with_value, with_value_in, without_item};

use bml_bytes::NoMemory;
use es_values::Value;
use std::alloc::Global;
use std::marker::Model;

/// How many calls of a script may be open at once, the program itself not among them. (This project's
/// own.)
pub const MOST_CALLS: u32 = 256;

/// The frames of the calls that are open, with items of `W`. Contracts see the list of the frames, the last
/// one in front, each with its `this`, its values, and its items, the one put last in front. (This
/// project's own.)
#[derive(Drop)]
pub struct Frames<W> {
    marks: Vec<Mark>,
    values: Vec<Value>,
    items: Vec<W>,
}

/// Where a frame begins in the vectors that all frames share, and its `this`.
#[derive(Drop)]
pub struct Mark {
    this: Value,
    first_value: usize,
    first_item: usize,
}

impl<W> Model for Frames<W> {
    ghost use Rattle.std.specs.Prelude.{List, reverse};
    ghost use Rattle.es_frames.specs.Frames.{Frame};

    ghost Value = { List (Frame W) };

    ghost use Rattle.es_frames.specs.Nested.{IsStack, frames_in};

    ghost view = { λ stack. frames_in (reverse stack.marks.items)
        stack.values.items stack.items.items };

    ghost invariant = { λ stack. IsStack stack.marks.items stack.values.items stack.items.items };
}

impl<W: Drop> Frames<W> {
    /// No frames. This takes no memory.
    pub fn new(alloc: Global) -> Frames<W>
        ensures { result ≡ [] }
    {
        Frames {
            marks: Vec::new(alloc),
            values: Vec::new(alloc),
            items: Vec::new(alloc),
        }
    }

    /// Adds a frame with this `this` and so many values, each of which is Undefined.
    pub fn push(&mut self, count: u32, this: Value) -> Result<(), NoMemory>
        requires depth { length self.old ≤ most_calls }
        ensures ok { OnOk result (self.new ≡ new_frame count this ∷ self.old) }
        ensures err { OnErr result (self.new ≡ self.old) }
    {
        let first = self.values.len();
        let mark = Mark {
            this,
            first_value: first,
            first_item: self.items.len(),
        };
        match push_frame(&mut self.marks, &mut self.values, count, mark) {
            Ok(()) => Ok(()),
            Err(refusal) => {
                self.values.truncate(first);
                Err(refusal)
            }
        }
    }

    /// Takes the last frame with its values and items, and gives its `this`. It is None where there is no
    /// frame.
    pub fn pop(&mut self) -> Option<Value>
        ensures this { result ≡ this_of self.old }
        ensures below { self.new ≡ below_last self.old }
    {
        match self.marks.pop() {
            Some(
                Mark {
                    this,
                    first_value,
                    first_item,
                },
            ) => {
                self.values.truncate(first_value);
                self.items.truncate(first_item);
                Some(this)
            }
            None => None,
        }
    }

    /// The `this` of the last frame, and None where there is no frame.
    pub fn this(&self) -> Option<&Value>
        ensures { option_copied result ≡ this_of self.now }
    {
        match self.marks.last() {
            Some(mark) => Some(&mark.this),
            None => None,
        }
    }

    /// The number of frames.
    pub fn depth(&self) -> u32
        ensures { result ≡ length self.now }
    {
        self.marks.len() as u32
    }

    /// The value at a place of the last frame, and None where there is no such place or no frame.
    pub fn slot(&self, place: u32) -> Option<&Value>
        ensures { option_copied result ≡ value_at self.now place }
    {
        self.last_values().get(place as usize)
    }

    /// Gives a place of the last frame another value. It is false where there is no such place or no frame,
    /// and then nothing is changed.
    pub fn set_slot(&mut self, place: u32, value: Value) -> bool
        ensures there { result ≡ nat_lt place (length (values_of self.old)) }
        ensures value { self.new ≡ with_value self.old place value }
    {
        match self.marks.last() {
            Some(mark) => set_value(&mut self.values, mark.first_value, place, value),
            None => false,
        }
    }

    /// Puts an item on those of the last frame.
    pub fn put(&mut self, item: W) -> Result<(), NoMemory>
        requires { 0 < length self.old }
        ensures ok { OnOk result (self.new ≡ with_item self.old item) }
        ensures err { OnErr result (self.new ≡ self.old) }
    {
        self.items.push(item)?;
        Ok(())
    }

    /// Takes the item of the last frame that was put last. It is None where the frame has no item or there
    /// is no frame.
    pub fn take(&mut self) -> Option<W>
        ensures item { result ≡ next_item self.old }
        ensures without { self.new ≡ without_item self.old }
    {
        let first_item = match self.marks.last() {
            Some(mark) => mark.first_item,
            None => return None,
        };
        if self.items.len() > first_item {
            self.items.pop()
        } else {
            None
        }
    }

    // The values of the last frame, and none where there is no frame.
    fn last_values(&self) -> &[Value]
        ensures { result.now ≡ values_of self.now }
    {
        match self.marks.last() {
            Some(mark) => &self.values[mark.first_value..],
            None => &[],
        }
    }
}

// Appends a frame with so many values. Where it finds no memory, some of them may stand behind the others.
fn push_frame(
    marks: &mut Vec<Mark>,
    values: &mut Vec<Value>,
    count: u32,
    mark: Mark,
) -> Result<(), NoMemory>
    ensures marks { OnOk result (marks.new.items ≡ marks.old.items ++ mark ∷ []) }
    ensures values { OnOk result (values.new.items
        ≡ values.old.items ++ replicate count Undefined) }
    ensures err { OnErr result (marks.new.items ≡ marks.old.items) }
    ensures grows { take (length values.old.items) values.new.items ≡ values.old.items }
{
    push_values(values, count)?;
    marks.push(mark)?;
    Ok(())
}

// Appends Undefined so many times.
fn push_values(values: &mut Vec<Value>, count: u32) -> Result<(), NoMemory>
    ensures ok { OnOk result (values.new.items ≡ values.old.items ++ replicate count Undefined) }
    ensures grows { take (length values.old.items) values.new.items ≡ values.old.items }
{
    for _ in 0..count {
        values.push(Value::Undefined)?;
    }
    Ok(())
}

// Gives a place behind the first of a frame another value.
fn set_value(values: &mut Vec<Value>, first: usize, place: u32, value: Value) -> bool
    requires { first ≤ length values.old.items }
    ensures there { result ≡ nat_lt place (length (drop first values.old.items)) }
    ensures front { take first values.new.items ≡ take first values.old.items }
    ensures value { drop first values.new.items
        ≡ with_value_in (drop first values.old.items) place value }
    ensures length { length values.new.items ≡ length values.old.items }
{
    match values.get_mut(first + place as usize) {
        Some(there) => {
            *there = value;
            true
        }
        None => false,
    }
}
