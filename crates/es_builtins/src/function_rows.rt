//! Calls of the built-in functions, and of the method of `String` itself: a function for each row.
//! Each does exactly what its row says; after `NoMemory` the heap may have one more object.
//! (ECMA-262 second edition, 15.1 to 15.7, in this profile.)

ghost use Rattle.std.specs.Prelude.{◌≡◌, ◌≤◌, List, ◌++◌, ◌∷◌, [], true, false, length, map, All, IfOk};
ghost use Rattle.es_values.specs.declared.budgets.Budget.{Budget};
ghost use Rattle.es_values.specs.Arrays.{array_of};
ghost use Rattle.es_values.specs.Heaps.{IsLive, new_object, with_length};
ghost use Rattle.es_values.specs.Conversions.{number_of};
ghost use Rattle.es_values.specs.Objects.{ObjectState};
ghost use Rattle.es_builtins.specs.declared.functions.BuiltIn.TheVariants as the;
ghost use Rattle.es_builtins.specs.Functions.{call_row, codes_row as spec_codes_row, gives_object, radix_argument as spec_radix_argument};
ghost use Rattle.es_builtins.specs.Numerals.{code_of_number as spec_code_of_number, radix_of_number};
ghost use Rattle.es_builtins.specs.Rows.{Answers};

use crate::arguments::{number_argument, text_argument};
use crate::built::Built;
use crate::numerals::{code_of_number, parse_int};
use crate::tills::Till;
use bml_bytes::{NoMemory, Text};
use es_values::{Budget, Heap, Num, Value};
use std::alloc::Global;

/// `Object()`: a new object, whatever the arguments are.
pub fn object_row(heap: &mut Heap) -> Result<Built, NoMemory>
    ensures row { IfOk result (λ built. (budget : Budget) → Answers
        (gives_object heap.old 0 (new_object false)) heap.old budget built heap.new budget) }
    ensures grows { length heap.old ≤ length heap.new }
{
    let object = heap.add(false)?;
    Ok(Built::Value(Value::Object(object)))
}

/// `Array()`: a new array, of the length that one number is, and else of the arguments.
pub fn array_row(heap: &mut Heap, args: &[Value]) -> Result<Built, NoMemory>
    requires args { All (IsLive heap.old) args.now }
    ensures row { IfOk result (λ built. (budget : Budget)
        → Answers (call_row heap.old args.now the.Array) heap.old budget built heap.new budget) }
    ensures grows { length heap.old ≤ length heap.new }
{
    let array = match args {
        [Value::Number(length)] => array_of_length(heap, *length)?,
        _ => array_of_values(heap, args)?,
    };
    Ok(Built::Value(Value::Object(array)))
}

/// `String()`: the text of the first argument, and the empty text without one.
pub fn string_row(heap: &Heap, args: &[Value], budget: &mut Budget) -> Result<Built, NoMemory>
    requires args { All (IsLive heap.now) args.now }
    ensures row { IfOk result (λ built. Answers (call_row heap.now args.now the.String)
        heap.now budget.old built heap.now budget.new) }
    ensures spends { budget.new.left ≤ budget.old.left }
{
    let Some(value) = args.first() else {
        let empty = Text::of_codes(heap.allocator(), &[])?;
        return Ok(Built::Value(Value::Str(empty)));
    };
    let mut till = Till::open(budget);
    if !till.take_conversion(heap, value) {
        return Ok(Built::OverBudget);
    }
    let text = heap.to_text(value)?;
    till.close(budget);
    Ok(Built::Value(Value::Str(text)))
}

/// `Number()`: the number of the first argument, and 0 without one.
pub fn number_row(heap: &Heap, args: &[Value], budget: &mut Budget) -> Result<Built, NoMemory>
    requires args { All (IsLive heap.now) args.now }
    ensures row { IfOk result (λ built. Answers (call_row heap.now args.now the.Number)
        heap.now budget.old built heap.now budget.new) }
    ensures spends { budget.new.left ≤ budget.old.left }
{
    let Some(value) = args.first() else {
        return Ok(Built::Value(Value::Number(Num::Whole(0))));
    };
    let mut till = Till::open(budget);
    if !till.take_conversion(heap, value) {
        return Ok(Built::OverBudget);
    }
    let number = heap.to_number(value)?;
    till.close(budget);
    Ok(Built::Value(Value::Number(number)))
}

/// `Boolean()`: whether the first argument counts as true. It charges nothing.
pub fn boolean_row(args: &[Value]) -> Built
    ensures row { (heap : List ObjectState) (budget : Budget)
        → Answers (call_row heap args.now the.Boolean) heap budget result heap budget }
{
    let truth = match args.first() {
        Some(value) => value.truth(),
        None => false,
    };
    Built::Value(Value::Bool(truth))
}

/// `isNaN()`: whether the number of the first argument is NaN.
pub fn is_nan_row(heap: &Heap, args: &[Value], budget: &mut Budget) -> Result<Built, NoMemory>
    requires args { All (IsLive heap.now) args.now }
    ensures row { IfOk result (λ built. Answers (call_row heap.now args.now the.IsNan)
        heap.now budget.old built heap.now budget.new) }
    ensures spends { budget.new.left ≤ budget.old.left }
{
    let mut till = Till::open(budget);
    if !till.take_argument(heap, args, 0) {
        return Ok(Built::OverBudget);
    }
    let number = number_argument(heap, args, 0)?;
    till.close(budget);
    Ok(Built::Value(Value::Bool(number.is_not_a_number())))
}

/// `parseInt()`: the number at the front of a text, in the base of the second argument.
pub fn parse_int_row(heap: &Heap, args: &[Value], budget: &mut Budget) -> Result<Built, NoMemory>
    requires args { All (IsLive heap.now) args.now }
    ensures row { IfOk result (λ built. Answers (call_row heap.now args.now the.ParseInt)
        heap.now budget.old built heap.now budget.new) }
    ensures spends { budget.new.left ≤ budget.old.left }
{
    let mut till = Till::open(budget);
    if !till.take_two(heap, args) {
        return Ok(Built::OverBudget);
    }
    let text = text_argument(heap, args, 0)?;
    let radix = radix_argument(heap, args)?;
    till.close(budget);
    let number = parse_int(text.codes(), radix);
    Ok(Built::Value(Value::Number(number)))
}

// The base of `parseInt`, which is 0 where it is absent.
fn radix_argument(heap: &Heap, args: &[Value]) -> Result<Num, NoMemory>
    requires { All (IsLive heap.now) args.now }
    ensures { IfOk result (λ radix. radix_of_number radix
        ≡ spec_radix_argument heap.now args.now) }
{
    match args {
        [_, radix, ..] => heap.to_number(radix),
        _ => Ok(Num::Whole(0)),
    }
}

/// `String.fromCharCode()`: a text of the arguments' codes.
pub fn codes_row(heap: &Heap, args: &[Value], budget: &mut Budget) -> Result<Built, NoMemory>
    requires args { All (IsLive heap.now) args.now }
    ensures row { IfOk result (λ built. Answers (spec_codes_row heap.now args.now)
        heap.now budget.old built heap.now budget.new) }
    ensures spends { budget.new.left ≤ budget.old.left }
{
    let mut till = Till::open(budget);
    if !till.take_conversions(heap, args) {
        return Ok(Built::OverBudget);
    }
    let codes = codes_of(heap, args)?;
    let text = Text::of_vec(codes)?;
    till.close(budget);
    Ok(Built::Value(Value::Str(text)))
}

fn codes_of(heap: &Heap, args: &[Value]) -> Result<Vec<u16>, NoMemory>
    requires { All (IsLive heap.now) args.now }
    ensures { IfOk result (λ codes. codes.items
        ≡ map (λ value. spec_code_of_number (number_of heap.now value)) args.now) }
{
    let mut codes = Vec::with_capacity(heap.allocator(), args.len())?;
    for value in args {
        let number = heap.to_number(value)?;
        codes.push(code_of_number(number))?;
    }
    Ok(codes)
}

// Adds an array without elements and with a length, which stays 0 for NaN and a negative number.
fn array_of_length(heap: &mut Heap, number: Num) -> Result<u64, NoMemory>
    ensures added { IfOk result (λ array. heap.new
        ≡ heap.old ++ with_length (new_object true) number ∷ []) }
    ensures number { IfOk result (λ array. array ≡ length heap.old) }
    ensures grows { length heap.old ≤ length heap.new }
{
    let name = Text::of_bytes(heap.allocator(), b"length")?;
    let array = heap.add(true)?;
    heap.put(array, &name, Value::Number(number))?;
    Ok(array)
}

// Adds an array of these values.
fn array_of_values(heap: &mut Heap, values: &[Value]) -> Result<u64, NoMemory>
    requires { All (IsLive heap.old) values.now }
    ensures added { IfOk result (λ array. heap.new ≡ heap.old ++ array_of values.now ∷ []) }
    ensures number { IfOk result (λ array. array ≡ length heap.old) }
    ensures grows { length heap.old ≤ length heap.new }
{
    let elements = shared(heap.allocator(), values)?;
    heap.add_array(elements)
}

fn shared(alloc: Global, values: &[Value]) -> Result<Vec<Value>, NoMemory>
    ensures { IfOk result (λ copies. copies.items ≡ values.now) }
{
    let mut copies = Vec::with_capacity(alloc, values.len())?;
    for value in values {
        copies.push(value.share()?)?;
    }
    Ok(copies)
}
