//! The built-in functions, and the names of what is built in.

ghost use Rattle.std.specs.Prelude.{◌≡◌, IfOk};
ghost use Rattle.es_builtins.specs.Functions.{all_functions, function_member as spec_function_member, function_name, function_named, function_number, function_of, number_member as spec_number_member, other_named as spec_other_named, value_named as spec_value_named};

use bml_bytes::Text;
use es_values::{HostRef, Num, Value};

/// A function that is built in.
#[derive(Clone, Copy, Debug, PartialEq, Eq)]
pub enum BuiltIn {
    Object,
    Array,
    String,
    Number,
    Boolean,
    IsNan,
    ParseInt,
    Date,
}

impl BuiltIn {
    /// All of them.
    fn all() -> [BuiltIn; 8]
        ensures { result ≡ all_functions }
    {
        [
            BuiltIn::Object,
            BuiltIn::Array,
            BuiltIn::String,
            BuiltIn::Number,
            BuiltIn::Boolean,
            BuiltIn::IsNan,
            BuiltIn::ParseInt,
            BuiltIn::Date,
        ]
    }

    /// The function of a number, where there is one: 0 to 7.
    pub fn of_number(number: u64) -> Option<BuiltIn>
        ensures { result ≡ function_of number }
    {
        BuiltIn::all()
            .iter()
            .copied()
            .find(|function| number == function.number())
    }

    /// The function of a name, where there is one.
    pub fn of_name(name: &Text) -> Option<BuiltIn>
        ensures { result ≡ function_named name.now }
    {
        BuiltIn::all()
            .iter()
            .copied()
            .find(|function| name.is_word(function.name()))
    }

    /// Its number.
    pub fn number(self) -> u64
        ensures { result ≡ function_number self }
    {
        match self {
            BuiltIn::Object => 0,
            BuiltIn::Array => 1,
            BuiltIn::String => 2,
            BuiltIn::Number => 3,
            BuiltIn::Boolean => 4,
            BuiltIn::IsNan => 5,
            BuiltIn::ParseInt => 6,
            BuiltIn::Date => 7,
        }
    }

    /// Its name, as scripts write it.
    fn name(self) -> &'static str
        ensures { result.now ≡ function_name self }
    {
        match self {
            BuiltIn::Object => "Object",
            BuiltIn::Array => "Array",
            BuiltIn::String => "String",
            BuiltIn::Number => "Number",
            BuiltIn::Boolean => "Boolean",
            BuiltIn::IsNan => "isNaN",
            BuiltIn::ParseInt => "parseInt",
            BuiltIn::Date => "Date",
        }
    }
}

/// What a built-in name means: one of the eight functions, `NaN`, `document` or `browser`; None of
/// every other name. This takes no memory.
pub fn value_named(name: &Text) -> Option<Value>
    ensures { result ≡ spec_value_named name.now }
{
    match BuiltIn::of_name(name) {
        Some(function) => Some(Value::Function(function.number())),
        None => other_named(name),
    }
}

fn other_named(name: &Text) -> Option<Value>
    ensures { result ≡ spec_other_named name.now }
{
    if name.is_word("NaN") {
        Some(Value::Number(Num::NotANumber))
    } else if name.is_word("document") {
        Some(Value::Host(HostRef::Document))
    } else if name.is_word("browser") {
        Some(Value::Host(HostRef::Browser))
    } else {
        None
    }
}

/// A member of a function that is read: `Number` has `NaN`, `MAX_VALUE` and `MIN_VALUE`, and every
/// other is Undefined. This takes no memory.
pub fn function_member(number: u64, name: &Text) -> Value
    ensures { result ≡ spec_function_member number name.now }
{
    if number == BuiltIn::Number.number() {
        number_member(name)
    } else {
        Value::Undefined
    }
}

fn number_member(name: &Text) -> Value
    ensures { result ≡ spec_number_member name.now }
{
    if name.is_word("NaN") {
        Value::Number(Num::NotANumber)
    } else if name.is_word("MAX_VALUE") {
        Value::Number(Num::Whole(i32::MAX))
    } else if name.is_word("MIN_VALUE") {
        Value::Number(Num::Whole(1))
    } else {
        Value::Undefined
    }
}
