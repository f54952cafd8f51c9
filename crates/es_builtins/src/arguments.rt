//! The arguments of a call as texts and numbers.

ghost use Rattle.std.specs.Prelude.{◌≡◌, slice_get, option_map, All, IfOk};
ghost use Rattle.es_values.specs.Conversions.{number_of, text_of};
ghost use Rattle.es_values.specs.Heaps.{IsLive};
ghost use Rattle.es_builtins.specs.Rows.{number_argument as spec_number_argument, text_argument as spec_text_argument};

use bml_bytes::{NoMemory, Text};
use es_values::{Heap, Num, Value};

/// The text of the argument at a place, where an absent one is Undefined.
pub fn text_argument(heap: &Heap, args: &[Value], place: usize) -> Result<Text, NoMemory>
    requires { All (IsLive heap.now) args.now }
    ensures { IfOk result (λ text. text ≡ spec_text_argument heap.now args.now place) }
{
    match args.get(place) {
        Some(value) => heap.to_text(value),
        None => heap.to_text(&Value::Undefined),
    }
}

/// The number of the argument at a place, where an absent one is Undefined.
pub fn number_argument(heap: &Heap, args: &[Value], place: usize) -> Result<Num, NoMemory>
    requires { All (IsLive heap.now) args.now }
    ensures { IfOk result (λ number. number ≡ spec_number_argument heap.now args.now place) }
{
    match args.get(place) {
        Some(value) => heap.to_number(value),
        None => heap.to_number(&Value::Undefined),
    }
}

/// The text of the argument at a place, and None where it is absent.
pub fn given_text(heap: &Heap, args: &[Value], place: usize) -> Result<Option<Text>, NoMemory>
    requires { All (IsLive heap.now) args.now }
    ensures { IfOk result
        (λ text. text ≡ option_map (text_of heap.now) (slice_get args.now place)) }
{
    match args.get(place) {
        Some(value) => Ok(Some(heap.to_text(value)?)),
        None => Ok(None),
    }
}

/// The number of the argument at a place, and None where it is absent.
pub fn given_number(heap: &Heap, args: &[Value], place: usize) -> Result<Option<Num>, NoMemory>
    requires { All (IsLive heap.now) args.now }
    ensures { IfOk result
        (λ number. number ≡ option_map (number_of heap.now) (slice_get args.now place)) }
{
    match args.get(place) {
        Some(value) => Ok(Some(heap.to_number(value)?)),
        None => Ok(None),
    }
}
