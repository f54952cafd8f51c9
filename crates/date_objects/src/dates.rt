//! Dates in the heap of a script.

ghost use Rattle.std.specs.Prelude.{◌≡◌, ◌<◌, ◌++◌, ◌∷◌, [], length, IfOk, IfSome, OnErr, OnOk};
ghost use Rattle.es_values.specs.Heaps.{IsLive, object_at};
ghost use Rattle.es_date.specs.Moments.{IsMoment};
ghost use Rattle.date_objects.specs.Dates.{date_object, day_name as spec_day_name, day_value, is_date as spec_is_date, moment_in as spec_moment_in, moment_of as spec_moment_of, moment_told, second_name as spec_second_name, second_value};

use bml_bytes::{NoMemory, Text};
use es_date::Moment;
use es_values::{Heap, Num, Value};
use std::alloc::Global;

/// Adds the Date of a moment, and gives its number; where there is no moment, both properties are NaN.
pub fn add_date(heap: &mut Heap, moment: Option<Moment>) -> Result<u64, NoMemory>
    requires { IfSome moment IsMoment }
    ensures added { OnOk result (heap.new ≡ heap.old ++ date_object moment ∷ []) }
    ensures number { IfOk result (λ object. object ≡ length heap.old) }
    ensures err { OnErr result (heap.new ≡ heap.old) }
{
    let alloc = heap.allocator();
    let day = day_name(alloc)?;
    let second = second_name(alloc)?;
    let mut properties = Vec::with_capacity(alloc, 2)?;
    properties.push((day, day_of(moment)))?;
    properties.push((second, second_of(moment)))?;
    heap.add_object(properties)
}

fn day_name(alloc: Global) -> Result<Text, NoMemory>
    ensures { IfOk result (λ name. name ≡ spec_day_name) }
{
    Text::of_bytes(alloc, b"$day")
}

fn second_name(alloc: Global) -> Result<Text, NoMemory>
    ensures { IfOk result (λ name. name ≡ spec_second_name) }
{
    Text::of_bytes(alloc, b"$second")
}

// The value of `$day`.
fn day_of(moment: Option<Moment>) -> Value
    ensures { result ≡ day_value moment }
{
    match moment {
        Some(moment) => Value::Number(Num::Whole(moment.day)),
        None => Value::Number(Num::NotANumber),
    }
}

// The value of `$second`.
fn second_of(moment: Option<Moment>) -> Value
    requires { IfSome moment IsMoment }
    ensures { result ≡ second_value moment }
{
    match moment {
        Some(moment) => Value::Number(Num::Whole(moment.second as i32)),
        None => Value::Number(Num::NotANumber),
    }
}

/// Whether an object has both properties of a Date, whatever they are.
pub fn is_date(heap: &Heap, object: u64) -> Result<bool, NoMemory>
    requires { object < length heap.now }
    ensures { IfOk result (λ is_date. is_date ≡ spec_is_date (object_at heap.now object)) }
{
    let alloc = heap.allocator();
    let day = day_name(alloc)?;
    let second = second_name(alloc)?;
    Ok(heap.has(object, &day) && heap.has(object, &second))
}

/// The moment that a value tells, and None exactly where it is no good Date.
pub fn moment_of(heap: &Heap, value: &Value) -> Result<Option<Moment>, NoMemory>
    requires { IsLive heap.now value.now }
    ensures moment { IfOk result (λ moment. moment ≡ spec_moment_of heap.now value.now) }
    ensures range { IfOk result (λ moment. IfSome moment IsMoment) }
{
    match value {
        Value::Object(object) => moment_in(heap, *object),
        _ => Ok(None),
    }
}

// The moment that an object tells.
fn moment_in(heap: &Heap, object: u64) -> Result<Option<Moment>, NoMemory>
    requires { object < length heap.now }
    ensures moment { IfOk result (λ moment. moment ≡ spec_moment_in (object_at heap.now object)) }
    ensures range { IfOk result (λ moment. IfSome moment IsMoment) }
{
    let alloc = heap.allocator();
    let day = day_name(alloc)?;
    let second = second_name(alloc)?;
    let day = heap.get(object, &day)?;
    let second = heap.get(object, &second)?;
    Ok(told(&day, &second))
}

// The moment that the values of both properties tell.
fn told(day: &Value, second: &Value) -> Option<Moment>
    ensures moment { result ≡ moment_told day.now second.now }
    ensures range { IfSome result IsMoment }
{
    match (day, second) {
        (Value::Number(Num::Whole(day)), Value::Number(Num::Whole(second))) => {
            Moment::of(*day, *second)
        }
        _ => None,
    }
}
