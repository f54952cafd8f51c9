//! Calls of the methods of arrays, but for the two that nearly every value has: a function for each
//! row. Each does exactly what its row says. (ECMA-262 second edition, 15.4.4.3 to 15.4.4.5, in
//! this profile.)

ghost use Rattle.std.specs.Prelude.{◌≡◌, ◌<◌, ◌≤◌, [], length, All, IfOk};
ghost use Rattle.es_values.specs.Heaps.{IsLive, object_at};
ghost use Rattle.es_builtins.specs.declared.methods.Method.TheVariants as the;
ghost use Rattle.es_builtins.specs.Methods.{array_row, separator_argument};
ghost use Rattle.es_builtins.specs.Rows.{Answers};

use crate::built::Built;
use crate::sorting::sorted;
use crate::tills::Till;
use bml_bytes::{NoMemory, Text};
use es_values::{Budget, Heap, Value};

const COMMA: u16 = 0x2C;

/// `join()`: the texts of an array's elements with the argument's text between them, or a `,`
/// without an argument. (The row is the same for every length, so also for 0.)
pub fn join(
    heap: &Heap,
    object: u64,
    args: &[Value],
    budget: &mut Budget,
) -> Result<Built, NoMemory>
    requires object { object < length heap.now }
    requires args { All (IsLive heap.now) args.now }
    ensures row { IfOk result (λ built. Answers
        (array_row heap.now object (object_at heap.now object) 0 args.now the.Join)
        heap.now budget.old built heap.now budget.new) }
    ensures spends { budget.new.left ≤ budget.old.left }
{
    let mut till = Till::open(budget);
    if !till.take_argument(heap, args, 0) {
        return Ok(Built::OverBudget);
    }
    let separator = separator(heap, args)?;
    if !till.take_join(heap, object, &separator) {
        return Ok(Built::OverBudget);
    }
    let text = heap.join(object, &separator)?;
    till.close(budget);
    Ok(Built::Value(Value::Str(text)))
}

/// `reverse()` of an array of this length: the array, with its elements turned round. (The row is
/// the same for all arguments, so also for none.)
pub fn reverse(
    heap: &mut Heap,
    object: u64,
    count: u32,
    budget: &mut Budget,
) -> Result<Built, NoMemory>
    requires { object < length heap.old }
    ensures row { IfOk result (λ built. Answers
        (array_row heap.old object (object_at heap.old object) count [] the.Reverse)
        heap.old budget.old built heap.new budget.new) }
    ensures grows { length heap.old ≤ length heap.new }
    ensures spends { budget.new.left ≤ budget.old.left }
{
    let mut till = Till::open(budget);
    if !till.take_sixteens(count as usize) {
        return Ok(Built::OverBudget);
    }
    heap.reverse(object)?;
    till.close(budget);
    Ok(Built::Value(Value::Object(object)))
}

/// `sort()` of an array of this length: the array, with its elements sorted by their texts. With an
/// argument it can't be called. The length is charged before the elements are looked for, and their
/// conversions before any becomes a text.
pub fn sort(
    heap: &mut Heap,
    object: u64,
    count: u32,
    args: &[Value],
    budget: &mut Budget,
) -> Result<Built, NoMemory>
    requires { object < length heap.old }
    ensures row { IfOk result (λ built. Answers
        (array_row heap.old object (object_at heap.old object) count args.now the.Sort)
        heap.old budget.old built heap.new budget.new) }
    ensures grows { length heap.old ≤ length heap.new }
    ensures spends { budget.new.left ≤ budget.old.left }
{
    if !args.is_empty() {
        return Ok(Built::NotCallable);
    }
    let mut till = Till::open(budget);
    if !till.take_sixteens(count as usize) {
        return Ok(Built::OverBudget);
    }
    let elements = heap.elements(object)?;
    if !till.take_conversions(heap, &elements) {
        return Ok(Built::OverBudget);
    }
    let elements = sorted(heap, &elements)?;
    heap.set_elements(object, elements)?;
    till.close(budget);
    Ok(Built::Value(Value::Object(object)))
}

// What `join` puts between the texts.
fn separator(heap: &Heap, args: &[Value]) -> Result<Text, NoMemory>
    requires { All (IsLive heap.now) args.now }
    ensures { IfOk result (λ separator. separator ≡ separator_argument heap.now args.now) }
{
    match args.first() {
        Some(value) => heap.to_text(value),
        None => Text::of_codes(heap.allocator(), &[COMMA]),
    }
}
