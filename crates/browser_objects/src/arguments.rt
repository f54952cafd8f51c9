//! The arguments of a call.

ghost use Rattle.std.specs.Prelude.{◌≡◌, ◌<◌, All, IfOk, IfSome};
ghost use Rattle.es_values.specs.Conversions.{number_of};
ghost use Rattle.es_values.specs.Heaps.{IsLive};
ghost use Rattle.browser_objects.specs.Calls.{argument, count_argument as spec_count_argument, count_in, text_argument as spec_text_argument, whole_argument as spec_whole_argument, whole_in};

use bml_bytes::{NoMemory, Text};
use es_values::{Heap, Num, Value};

/// The text of the argument at a place, where an absent one is Undefined.
pub fn text_argument(heap: &Heap, args: &[Value], place: usize) -> Result<Text, NoMemory>
    requires { All (IsLive heap.now) args.now }
    ensures { IfOk result (λ text. text ≡ spec_text_argument heap.now args.now place) }
{
    match args.get(place) {
        Some(value) => heap.to_text(value),
        None => heap.to_text(&Value::Undefined),
    }
}

/// The whole number that the argument at a place converts to; None is NaN.
pub fn whole_argument(heap: &Heap, args: &[Value], place: usize) -> Result<Option<i32>, NoMemory>
    requires { All (IsLive heap.now) args.now }
    ensures { IfOk result
        (λ number. number ≡ spec_whole_argument heap.now args.now place) }
{
    let number = number_argument(heap, args, place)?;
    Ok(whole_of(number))
}

/// The same, where it isn't negative.
pub fn count_argument(heap: &Heap, args: &[Value], place: usize) -> Result<Option<u32>, NoMemory>
    requires { All (IsLive heap.now) args.now }
    ensures count { IfOk result
        (λ count. count ≡ spec_count_argument heap.now args.now place) }
    ensures bound { IfOk result (λ count. IfSome count (λ n. n < 2147483648)) }
{
    let number = number_argument(heap, args, place)?;
    Ok(count_of(number))
}

fn number_argument(heap: &Heap, args: &[Value], place: usize) -> Result<Num, NoMemory>
    requires { All (IsLive heap.now) args.now }
    ensures { IfOk result
        (λ number. number ≡ number_of heap.now (argument args.now place)) }
{
    match args.get(place) {
        Some(value) => heap.to_number(value),
        None => heap.to_number(&Value::Undefined),
    }
}

fn whole_of(number: Num) -> Option<i32>
    ensures { result ≡ whole_in number }
{
    match number {
        Num::NotANumber => None,
        Num::Whole(whole) => Some(whole),
    }
}

fn count_of(number: Num) -> Option<u32>
    ensures count { result ≡ count_in number }
    ensures bound { IfSome result (λ n. n < 2147483648) }
{
    match number {
        Num::NotANumber => None,
        Num::Whole(whole) => u32::try_from(whole).ok(),
    }
}
