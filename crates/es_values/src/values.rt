//! Values of scripts.

ghost use Rattle.std.specs.Prelude.{◌≡◌, IfOk};
ghost use Rattle.es_values.specs.Values.{equality_in_kind, is_plain, is_same_reference, is_same_truth as spec_is_same_truth, truth_of, truth_of_number as spec_truth_of_number, type_name};

use crate::numbers::Num;
use bml_bytes::{NoMemory, Text};

/// What a script names and its host keeps: the document, the browser and its registers, the current
/// event, a node by its number, and a node's style in the state Normal, Focus or Active: 0, 1 or 2.
#[derive(Clone, Copy, Debug)]
pub enum HostRef {
    Document,
    Browser,
    Ureg,
    Greg,
    Event,
    Node(u32),
    Style(u32, u8),
}

impl HostRef {
    /// Whether two references name the same thing.
    pub fn is_same(self, other: HostRef) -> bool
        ensures { result ≡ is_same_reference self other }
    {
        match (self, other) {
            (HostRef::Document, HostRef::Document) => true,
            (HostRef::Browser, HostRef::Browser) => true,
            (HostRef::Ureg, HostRef::Ureg) => true,
            (HostRef::Greg, HostRef::Greg) => true,
            (HostRef::Event, HostRef::Event) => true,
            (HostRef::Node(node), HostRef::Node(other)) => node == other,
            (HostRef::Style(node, state), HostRef::Style(other, other_state)) => {
                node == other && state == other_state
            }
            _ => false,
        }
    }
}

/// A value of a script. An object is named by its number in the heap, and a function by its number.
/// (ECMA-262 second edition, 8.)
#[derive(Debug, Drop)]
pub enum Value {
    Undefined,
    Null,
    Bool(bool),
    Number(Num),
    Str(Text),
    Object(u64),
    Function(u64),
    Host(HostRef),
}

impl Value {
    /// The same value again. A text is shared, so this copies nothing and takes no memory.
    pub fn share(&self) -> Result<Value, NoMemory>
        ensures { IfOk result (λ value. value ≡ self.now) }
    {
        Ok(match self {
            Value::Undefined => Value::Undefined,
            Value::Null => Value::Null,
            Value::Bool(truth) => Value::Bool(*truth),
            Value::Number(number) => Value::Number(*number),
            Value::Str(text) => Value::Str(text.share()?),
            Value::Object(object) => Value::Object(*object),
            Value::Function(function) => Value::Function(*function),
            Value::Host(reference) => Value::Host(*reference),
        })
    }

    /// Whether it counts as true: Undefined, Null, false, 0, NaN and the empty text don't. (ToBoolean,
    /// 9.2.)
    pub fn truth(&self) -> bool
        ensures { result ≡ truth_of self.now }
    {
        match self {
            Value::Undefined | Value::Null => false,
            Value::Bool(truth) => *truth,
            Value::Number(number) => truth_of_number(*number),
            Value::Str(text) => text.len() > 0,
            Value::Object(_) | Value::Function(_) | Value::Host(_) => true,
        }
    }

    /// What `typeof` gives.
    pub fn type_name(&self) -> &'static str
        ensures { result.now ≡ type_name self.now }
    {
        match self {
            Value::Undefined => "undefined",
            Value::Null | Value::Object(_) | Value::Host(_) => "object",
            Value::Bool(_) => "boolean",
            Value::Number(_) => "number",
            Value::Str(_) => "string",
            Value::Function(_) => "function",
        }
    }

    /// Whether it is neither an object nor a function.
    pub fn is_plain(&self) -> bool
        ensures { result ≡ is_plain self.now }
    {
        match self {
            Value::Object(_) | Value::Function(_) => false,
            _ => true,
        }
    }

    /// Whether it equals a value of its kind, and None where the kinds differ. Objects, functions and
    /// host references equal themselves alone, and NaN equals nothing.
    pub fn equality_in_kind(&self, other: &Value) -> Option<bool>
        ensures { result ≡ equality_in_kind self.now other.now }
    {
        match (self, other) {
            (Value::Undefined, Value::Undefined) => Some(true),
            (Value::Null, Value::Null) => Some(true),
            (Value::Bool(truth), Value::Bool(other)) => Some(is_same_truth(*truth, *other)),
            (Value::Number(number), Value::Number(other)) => Some(number.equals(*other)),
            (Value::Str(text), Value::Str(other)) => Some(*text == *other),
            (Value::Object(object), Value::Object(other)) => Some(*object == *other),
            (Value::Function(function), Value::Function(other)) => Some(*function == *other),
            (Value::Host(reference), Value::Host(other)) => Some(reference.is_same(*other)),
            _ => None,
        }
    }
}

fn truth_of_number(number: Num) -> bool
    ensures { result ≡ spec_truth_of_number number }
{
    match number {
        Num::NotANumber => false,
        Num::Whole(whole) => whole != 0,
    }
}

fn is_same_truth(truth: bool, other: bool) -> bool
    ensures { result ≡ spec_is_same_truth truth other }
{
    truth == other
}
