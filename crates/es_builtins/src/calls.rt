//! Calls of built-in functions and methods.

ghost use Rattle.std.specs.Prelude.{◌≡◌, ◌≤◌, length, All, IfOk};
ghost use Rattle.es_values.specs.Heaps.{IsLive};
ghost use Rattle.es_builtins.specs.Functions.{call_row, construction_row, function_row};
ghost use Rattle.es_builtins.specs.Methods.{method_row};
ghost use Rattle.es_builtins.specs.Rows.{Answers};

use crate::built::Built;
use crate::dates::date_row;
use crate::function_rows::{
    array_row, boolean_row, is_nan_row, number_row, object_row, parse_int_row, string_row,
};
use crate::functions::BuiltIn;
use crate::method_rows::{
    function_method, number_method, object_method, plain_method, text_method,
};
use crate::methods::Method;
use bml_bytes::{NoMemory, Text};
use es_values::{Budget, Heap, Value};

/// Calls the built-in function of a number. After `NoMemory` the heap and the budget may be changed
/// in part, but no object is gone and no step given back.
pub fn call_function(
    number: u64,
    args: &[Value],
    heap: &mut Heap,
    budget: &mut Budget,
) -> Result<Built, NoMemory>
    requires args { All (IsLive heap.old) args.now }
    requires steps { budget.old.left ≤ 100000 }
    ensures row { IfOk result (λ built. Answers (function_row heap.old number args.now)
        heap.old budget.old built heap.new budget.new) }
    ensures grows { length heap.old ≤ length heap.new }
    ensures spends { budget.new.left ≤ budget.old.left }
{
    match BuiltIn::of_number(number) {
        Some(function) => call(heap, function, args, budget),
        None => Ok(Built::NotCallable),
    }
}

fn call(
    heap: &mut Heap,
    function: BuiltIn,
    args: &[Value],
    budget: &mut Budget,
) -> Result<Built, NoMemory>
    requires args { All (IsLive heap.old) args.now }
    ensures row { IfOk result (λ built. Answers (call_row heap.old args.now function)
        heap.old budget.old built heap.new budget.new) }
    ensures grows { length heap.old ≤ length heap.new }
    ensures spends { budget.new.left ≤ budget.old.left }
{
    match function {
        BuiltIn::Object => object_row(heap),
        BuiltIn::Array => array_row(heap, args),
        BuiltIn::String => string_row(heap, args, budget),
        BuiltIn::Number => number_row(heap, args, budget),
        BuiltIn::Boolean => Ok(boolean_row(args)),
        BuiltIn::IsNan => is_nan_row(heap, args, budget),
        BuiltIn::ParseInt => parse_int_row(heap, args, budget),
        BuiltIn::Date => date_row(heap, args, budget),
    }
}

/// Makes a `new` of the built-in function of a number. After `NoMemory` the heap and the budget may
/// be changed in part, but no object is gone and no step given back.
pub fn construct(
    number: u64,
    args: &[Value],
    heap: &mut Heap,
    budget: &mut Budget,
) -> Result<Built, NoMemory>
    requires args { All (IsLive heap.old) args.now }
    requires steps { budget.old.left ≤ 100000 }
    ensures row { IfOk result (λ built. Answers (construction_row heap.old number args.now)
        heap.old budget.old built heap.new budget.new) }
    ensures grows { length heap.old ≤ length heap.new }
    ensures spends { budget.new.left ≤ budget.old.left }
{
    match BuiltIn::of_number(number) {
        None | Some(BuiltIn::IsNan | BuiltIn::ParseInt) => Ok(Built::NotCallable),
        Some(function) => call(heap, function, args, budget),
    }
}

/// Calls the built-in method of a name, of a value that isn't asked for a property of its own.
/// After `NoMemory` the heap and the budget may be changed in part, but no object is gone and no
/// step given back.
pub fn call_method(
    base: &Value,
    name: &Text,
    args: &[Value],
    heap: &mut Heap,
    budget: &mut Budget,
) -> Result<Built, NoMemory>
    requires base { IsLive heap.old base.now }
    requires args { All (IsLive heap.old) args.now }
    requires steps { budget.old.left ≤ 100000 }
    ensures row { IfOk result (λ built. Answers (method_row heap.old base.now name.now args.now)
        heap.old budget.old built heap.new budget.new) }
    ensures grows { length heap.old ≤ length heap.new }
    ensures spends { budget.new.left ≤ budget.old.left }
{
    let Some(method) = Method::of_name(name) else {
        return Ok(Built::NotCallable);
    };
    match base {
        Value::Undefined | Value::Null | Value::Host(_) => Ok(Built::NotCallable),
        Value::Bool(_) => plain_method(heap, base, method, budget),
        Value::Number(number) => number_method(heap, *number, args, method, budget),
        Value::Str(text) => text_method(heap, text, args, method, budget),
        Value::Object(object) => object_method(heap, *object, args, method, budget),
        Value::Function(number) => function_method(heap, *number, args, method, budget),
    }
}
