//! Calls of methods by the kind of value that they are called of.
//! (ECMA-262 second edition, 15.2 to 15.9, in this profile.)

ghost use Rattle.std.specs.Prelude.{◌≡◌, ◌<◌, ◌≤◌, length, All, IfOk};
ghost use Rattle.es_values.specs.Heaps.{IsLive, object_at};
ghost use Rattle.es_builtins.specs.declared.methods.Method.TheVariants as the;
ghost use Rattle.es_builtins.specs.Methods.{base_argument as spec_base_argument, digits_row, function_method_row, object_row, plain_row, text_row};
ghost use Rattle.es_builtins.specs.Rows.{Answers};

use crate::arguments::given_number;
use crate::arrays::{join, reverse, sort};
use crate::built::Built;
use crate::dates::part_row;
use crate::function_rows::codes_row;
use crate::functions::BuiltIn;
use crate::methods::Method;
use crate::numerals::{base_or_ten, number_text_in};
use crate::text_rows::{char_at, char_code_at, index_of, last_index_of, split_row, substring_row};
use crate::tills::Till;
use bml_bytes::{NoMemory, Text};
use es_values::{Budget, Heap, Num, Value};

/// `toString()` and `valueOf()`, which nearly every value has.
pub fn plain_method(
    heap: &Heap,
    base: &Value,
    method: Method,
    budget: &mut Budget,
) -> Result<Built, NoMemory>
    requires { IsLive heap.now base.now }
    ensures row { IfOk result (λ built. Answers (plain_row heap.now base.now method)
        heap.now budget.old built heap.now budget.new) }
    ensures spends { budget.new.left ≤ budget.old.left }
{
    match method {
        Method::ToText => text_of_base(heap, base, budget),
        Method::ValueOf => Ok(Built::Value(base.share()?)),
        _ => Ok(Built::NotCallable),
    }
}

fn text_of_base(heap: &Heap, base: &Value, budget: &mut Budget) -> Result<Built, NoMemory>
    requires { IsLive heap.now base.now }
    ensures row { IfOk result (λ built. Answers (plain_row heap.now base.now the.ToText)
        heap.now budget.old built heap.now budget.new) }
    ensures spends { budget.new.left ≤ budget.old.left }
{
    let mut till = Till::open(budget);
    if !till.take_conversion(heap, base) {
        return Ok(Built::OverBudget);
    }
    let text = heap.to_text(base)?;
    till.close(budget);
    Ok(Built::Value(Value::Str(text)))
}

/// The methods of numbers: `toString()` in a base, and `valueOf()`.
pub fn number_method(
    heap: &Heap,
    number: Num,
    args: &[Value],
    method: Method,
    budget: &mut Budget,
) -> Result<Built, NoMemory>
    requires { All (IsLive heap.now) args.now }
    ensures row { IfOk result (λ built. Answers (digits_row heap.now number args.now method)
        heap.now budget.old built heap.now budget.new) }
    ensures spends { budget.new.left ≤ budget.old.left }
{
    match method {
        Method::ToText => digits_of(heap, number, args, budget),
        Method::ValueOf => Ok(Built::Value(Value::Number(number))),
        _ => Ok(Built::NotCallable),
    }
}

fn digits_of(
    heap: &Heap,
    number: Num,
    args: &[Value],
    budget: &mut Budget,
) -> Result<Built, NoMemory>
    requires { All (IsLive heap.now) args.now }
    ensures row { IfOk result (λ built. Answers (digits_row heap.now number args.now the.ToText)
        heap.now budget.old built heap.now budget.new) }
    ensures spends { budget.new.left ≤ budget.old.left }
{
    let mut till = Till::open(budget);
    if !till.take_argument(heap, args, 0) {
        return Ok(Built::OverBudget);
    }
    let base = base_argument(heap, args)?;
    let text = number_text_in(heap.allocator(), base, number)?;
    till.close(budget);
    Ok(Built::Value(Value::Str(text)))
}

// The base that is asked for, and ten where none is.
fn base_argument(heap: &Heap, args: &[Value]) -> Result<u32, NoMemory>
    requires { All (IsLive heap.now) args.now }
    ensures base { IfOk result (λ base. base ≡ spec_base_argument heap.now args.now) }
    ensures least { IfOk result (λ base. 2 ≤ base) }
    ensures most { IfOk result (λ base. base ≤ 36) }
{
    Ok(match given_number(heap, args, 0)? {
        Some(number) => base_or_ten(number),
        None => 10,
    })
}

/// The methods of texts.
pub fn text_method(
    heap: &mut Heap,
    text: &Text,
    args: &[Value],
    method: Method,
    budget: &mut Budget,
) -> Result<Built, NoMemory>
    requires args { All (IsLive heap.old) args.now }
    requires steps { budget.old.left ≤ 100000 }
    ensures row { IfOk result (λ built. Answers (text_row heap.old text.now args.now method)
        heap.old budget.old built heap.new budget.new) }
    ensures grows { length heap.old ≤ length heap.new }
    ensures spends { budget.new.left ≤ budget.old.left }
{
    match method {
        Method::CharAt => char_at(heap, text, args, budget),
        Method::CharCodeAt => char_code_at(heap, text, args, budget),
        Method::IndexOf => index_of(heap, text, args, budget),
        Method::LastIndexOf => last_index_of(heap, text, args, budget),
        Method::Substring => substring_row(heap, text, args, budget),
        Method::Split => split_row(heap, text, args, budget),
        Method::ToText | Method::ValueOf => Ok(Built::Value(Value::Str(text.share()?))),
        _ => Ok(Built::NotCallable),
    }
}

/// The methods of objects: those of Dates, and three more of arrays.
pub fn object_method(
    heap: &mut Heap,
    object: u64,
    args: &[Value],
    method: Method,
    budget: &mut Budget,
) -> Result<Built, NoMemory>
    requires object { object < length heap.old }
    requires args { All (IsLive heap.old) args.now }
    requires steps { budget.old.left ≤ 100000 }
    ensures row { IfOk result (λ built. Answers
        (object_row heap.old object (object_at heap.old object) args.now method)
        heap.old budget.old built heap.new budget.new) }
    ensures grows { length heap.old ≤ length heap.new }
    ensures spends { budget.new.left ≤ budget.old.left }
{
    if let Method::Get(part) = method {
        return part_row(&*heap, object, part);
    }
    let Some(count) = heap.array_length(object) else {
        return plain_method(heap, &Value::Object(object), method, budget);
    };
    match method {
        Method::Join => join(heap, object, args, budget),
        Method::Reverse => reverse(heap, object, count, budget),
        Method::Sort => sort(heap, object, count, args, budget),
        _ => plain_method(heap, &Value::Object(object), method, budget),
    }
}

/// The methods of functions, of which `String` has one more than others.
pub fn function_method(
    heap: &Heap,
    number: u64,
    args: &[Value],
    method: Method,
    budget: &mut Budget,
) -> Result<Built, NoMemory>
    requires { All (IsLive heap.now) args.now }
    ensures row { IfOk result (λ built. Answers
        (function_method_row heap.now number args.now method)
        heap.now budget.old built heap.now budget.new) }
    ensures spends { budget.new.left ≤ budget.old.left }
{
    match method {
        Method::FromCharCode if number == BuiltIn::String.number() => codes_row(heap, args, budget),
        Method::FromCharCode => Ok(Built::NotCallable),
        _ => plain_method(heap, &Value::Function(number), method, budget),
    }
}
