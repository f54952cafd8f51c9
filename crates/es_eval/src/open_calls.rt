//! The calls that are open: their frames, and the function of each.

ghost use Rattle.std.specs.Prelude.{◌≡◌, ◌<◌, ◌≤◌, ◌∷◌, [], length, nat_lt, replicate, OnOk, OnErr};
ghost use Rattle.std.specs.Option.{option_copied};
ghost use Rattle.es_values.specs.declared.values.Value.TheVariants.{Undefined};
ghost use Rattle.es_frames.specs.Depth.{most_calls};
ghost use Rattle.es_eval.specs.devices.OpenCalls.{below_last, function_of, next_item, this_of, value_at, values_of, with_item, with_value, without_item};

use crate::works::Work;
use bml_bytes::NoMemory;
use es_frames::Frames;
use es_shapes::Declared;
use es_values::Value;
use std::alloc::Global;
use std::marker::Model;

/// The calls that are open, the program itself among them, which has no function. A call's locals are
/// the values of its frame, in the order in which its function declares them. Contracts see the list
/// of the calls, the last one in front.
#[derive(Drop)]
pub struct OpenCalls {
    frames: Frames<Work>,
    functions: Vec<Option<Declared>>,
}

impl Model for OpenCalls {
    ghost use Rattle.std.specs.Prelude.{List, ◌≡◌, length, reverse};
    ghost use Rattle.es_eval.specs.devices.OpenCalls.{Call, joined};

    ghost Value = { List Call };

    ghost view = { λ calls. joined (reverse calls.functions.items) calls.frames };

    ghost invariant = { λ calls. length calls.functions.items ≡ length calls.frames };
}

impl OpenCalls {
    /// No calls. This takes no memory.
    pub fn new(alloc: Global) -> OpenCalls
        ensures { result ≡ [] }
    {
        OpenCalls {
            frames: Frames::new(alloc),
            functions: Vec::new(alloc),
        }
    }

    /// A call more, of this function and with this `this`, in which each of so many locals is
    /// Undefined.
    pub fn push(
        &mut self,
        function: Option<Declared>,
        locals: u32,
        this: Value,
    ) -> Result<(), NoMemory>
        requires depth { length self.old ≤ most_calls }
        ensures ok { OnOk result (self.new ≡ record {
          function = function;
          this = this;
          values = replicate locals Undefined;
          items = [];
        } ∷ self.old) }
        ensures err { OnErr result (self.new ≡ self.old) }
    {
        self.frames.push(locals, this)?;
        match self.functions.push(function) {
            Ok(()) => Ok(()),
            Err(_) => {
                self.frames.pop();
                Err(NoMemory)
            }
        }
    }

    /// Takes the last call away.
    pub fn pop(&mut self)
        ensures { self.new ≡ below_last self.old }
    {
        self.frames.pop();
        self.functions.pop();
    }

    /// The function of the last call. It is None where there is no call, or the program itself.
    pub fn function(&self) -> Option<Declared>
        ensures { result ≡ function_of self.now }
    {
        match self.functions.last() {
            Some(function) => *function,
            None => None,
        }
    }

    /// The `this` of the last call, and None where there is no call.
    pub fn this(&self) -> Option<&Value>
        ensures { option_copied result ≡ this_of self.now }
    {
        self.frames.this()
    }

    /// The number of calls.
    pub fn depth(&self) -> u32
        ensures { result ≡ length self.now }
    {
        self.frames.depth()
    }

    /// The local at a place of the last call, and None where there is no such place or no call.
    pub fn slot(&self, place: u32) -> Option<&Value>
        ensures { option_copied result ≡ value_at self.now place }
    {
        self.frames.slot(place)
    }

    /// Gives the local at a place of the last call another value. It is false where there is no such
    /// place or no call, and then nothing is changed.
    pub fn set_slot(&mut self, place: u32, value: Value) -> bool
        ensures there { result ≡ nat_lt place (length (values_of self.old)) }
        ensures value { self.new ≡ with_value self.old place value }
    {
        self.frames.set_slot(place, value)
    }

    /// Puts an item on those of the last call.
    pub fn put(&mut self, item: Work) -> Result<(), NoMemory>
        requires { 0 < length self.old }
        ensures ok { OnOk result (self.new ≡ with_item self.old item) }
        ensures err { OnErr result (self.new ≡ self.old) }
    {
        self.frames.put(item)
    }

    /// Takes the item of the last call that was put last. It is None where the call has no item or
    /// there is no call.
    pub fn take(&mut self) -> Option<Work>
        ensures item { result ≡ next_item self.old }
        ensures without { self.new ≡ without_item self.old }
    {
        self.frames.take()
    }
}
