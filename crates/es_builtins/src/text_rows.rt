//! Calls of the methods of texts: a function for each row. Each does exactly what its row says.
//! (ECMA-262 second edition, 15.5.4, in this profile.)

ghost use Rattle.std.specs.Prelude.{◌≡◌, ◌≤◌, length, All, IfOk, option_to_list};
ghost use Rattle.es_values.specs.Heaps.{IsLive};
ghost use Rattle.es_builtins.specs.declared.methods.Method.TheVariants as the;
ghost use Rattle.es_builtins.specs.Methods.{text_row};
ghost use Rattle.es_builtins.specs.Rows.{Answers};

use crate::arguments::{given_number, given_text, number_argument, text_argument};
use crate::built::Built;
use crate::parts::split;
use crate::texts::{code_at, first_place, last_place, number_of_place, substring};
use crate::tills::Till;
use bml_bytes::{NoMemory, Text};
use es_values::{Budget, Heap, Num, Value};
use std::alloc::Global;

/// `charAt()`: the code at a place as a text, which is empty outside of the text.
pub fn char_at(
    heap: &Heap,
    text: &Text,
    args: &[Value],
    budget: &mut Budget,
) -> Result<Built, NoMemory>
    requires args { All (IsLive heap.now) args.now }
    ensures row { IfOk result (λ built. Answers (text_row heap.now text.now args.now the.CharAt)
        heap.now budget.old built heap.now budget.new) }
    ensures spends { budget.new.left ≤ budget.old.left }
{
    let mut till = Till::open(budget);
    if !till.take_argument(heap, args, 0) {
        return Ok(Built::OverBudget);
    }
    let place = number_argument(heap, args, 0)?;
    let character = text_of_code(heap.allocator(), code_at(text.codes(), place))?;
    till.close(budget);
    Ok(Built::Value(Value::Str(character)))
}

fn text_of_code(alloc: Global, code: Option<u16>) -> Result<Text, NoMemory>
    ensures { IfOk result (λ text. text ≡ option_to_list code) }
{
    match code {
        Some(code) => Text::of_codes(alloc, &[code]),
        None => Text::of_codes(alloc, &[]),
    }
}

/// `charCodeAt()`: the code at a place, and NaN outside of the text.
pub fn char_code_at(
    heap: &Heap,
    text: &Text,
    args: &[Value],
    budget: &mut Budget,
) -> Result<Built, NoMemory>
    requires args { All (IsLive heap.now) args.now }
    ensures row { IfOk result (λ built. Answers (text_row heap.now text.now args.now the.CharCodeAt)
        heap.now budget.old built heap.now budget.new) }
    ensures spends { budget.new.left ≤ budget.old.left }
{
    let mut till = Till::open(budget);
    if !till.take_argument(heap, args, 0) {
        return Ok(Built::OverBudget);
    }
    let place = number_argument(heap, args, 0)?;
    till.close(budget);
    let code = match code_at(text.codes(), place) {
        Some(code) => Num::Whole(i32::from(code)),
        None => Num::NotANumber,
    };
    Ok(Built::Value(Value::Number(code)))
}

/// `indexOf()`: the first place at the second argument or behind it where the first one stands, and
/// -1 where it doesn't.
pub fn index_of(
    heap: &Heap,
    text: &Text,
    args: &[Value],
    budget: &mut Budget,
) -> Result<Built, NoMemory>
    requires args { All (IsLive heap.now) args.now }
    requires steps { budget.old.left ≤ 100000 }
    ensures row { IfOk result (λ built. Answers (text_row heap.now text.now args.now the.IndexOf)
        heap.now budget.old built heap.now budget.new) }
    ensures spends { budget.new.left ≤ budget.old.left }
{
    let mut till = Till::open(budget);
    if !till.take_two(heap, args) {
        return Ok(Built::OverBudget);
    }
    let wanted = text_argument(heap, args, 0)?;
    let least = number_argument(heap, args, 1)?;
    if !till.take_search(text.codes(), wanted.codes()) {
        return Ok(Built::OverBudget);
    }
    till.close(budget);
    let place = first_place(wanted.codes(), text.codes(), least);
    Ok(Built::Value(Value::Number(number_of_place(place))))
}

/// `lastIndexOf()`: the last place at the second argument or in front of it where the first one
/// stands, and -1 where it doesn't.
pub fn last_index_of(
    heap: &Heap,
    text: &Text,
    args: &[Value],
    budget: &mut Budget,
) -> Result<Built, NoMemory>
    requires args { All (IsLive heap.now) args.now }
    requires steps { budget.old.left ≤ 100000 }
    ensures row { IfOk result (λ built. Answers
        (text_row heap.now text.now args.now the.LastIndexOf)
        heap.now budget.old built heap.now budget.new) }
    ensures spends { budget.new.left ≤ budget.old.left }
{
    let mut till = Till::open(budget);
    if !till.take_two(heap, args) {
        return Ok(Built::OverBudget);
    }
    let wanted = text_argument(heap, args, 0)?;
    let most = number_argument(heap, args, 1)?;
    if !till.take_search(text.codes(), wanted.codes()) {
        return Ok(Built::OverBudget);
    }
    till.close(budget);
    let place = last_place(wanted.codes(), text.codes(), most);
    Ok(Built::Value(Value::Number(number_of_place(place))))
}

/// `substring()`: what stands between two places, the second of which is the end where it is
/// absent.
pub fn substring_row(
    heap: &Heap,
    text: &Text,
    args: &[Value],
    budget: &mut Budget,
) -> Result<Built, NoMemory>
    requires args { All (IsLive heap.now) args.now }
    ensures row { IfOk result (λ built. Answers (text_row heap.now text.now args.now the.Substring)
        heap.now budget.old built heap.now budget.new) }
    ensures spends { budget.new.left ≤ budget.old.left }
{
    let mut till = Till::open(budget);
    if !till.take_two(heap, args) {
        return Ok(Built::OverBudget);
    }
    let one = number_argument(heap, args, 0)?;
    let other = given_number(heap, args, 1)?;
    let part = substring(text.codes(), one, other);
    if !till.take_sixteens(part.len()) {
        return Ok(Built::OverBudget);
    }
    let part = Text::of_codes(heap.allocator(), part)?;
    till.close(budget);
    Ok(Built::Value(Value::Str(part)))
}

/// `split()`: an array of the parts between the places of the first argument, or of the whole text.
pub fn split_row(
    heap: &mut Heap,
    text: &Text,
    args: &[Value],
    budget: &mut Budget,
) -> Result<Built, NoMemory>
    requires args { All (IsLive heap.old) args.now }
    ensures row { IfOk result (λ built. Answers (text_row heap.old text.now args.now the.Split)
        heap.old budget.old built heap.new budget.new) }
    ensures grows { length heap.old ≤ length heap.new }
    ensures spends { budget.new.left ≤ budget.old.left }
{
    let mut till = Till::open(budget);
    if !till.take_argument(heap, args, 0) {
        return Ok(Built::OverBudget);
    }
    if !till.take_sixteens(text.len()) {
        return Ok(Built::OverBudget);
    }
    let separator = given_text(heap, args, 0)?;
    let parts = split(heap.allocator(), text, separator.as_ref())?;
    let array = heap.add_array(parts)?;
    till.close(budget);
    Ok(Built::Value(Value::Object(array)))
}
