//! Calls on timers.

ghost use Rattle.std.specs.Prelude.{◌≡◌, ◌<◌, ◌≤◌, ◌^◌, All, IfOk, OnErr};
ghost use Rattle.es_values.specs.Heaps.{IsLive};
ghost use Rattle.browser_objects.specs.Calls.{Answers, clear_timer as spec_clear_timer, end_timer as spec_end_timer, interval_of as spec_interval_of, set_interval as spec_set_interval, text_argument as spec_text_argument, begin_timer, with_interval};
ghost use Rattle.browser_objects.specs.Functions.{named_function as spec_named_function};

use crate::arguments::{count_argument, text_argument, whole_argument};
use crate::effects::{Effect, refusal, whole};
use crate::functions::named_function;
use crate::states::BrowserState;
use bml_bytes::{NoMemory, Text};
use es_values::{Heap, Value};
use std::alloc::Global;

/// The least interval of a timer, in milliseconds; this project's own limit.
const LEAST_INTERVAL: u32 = 100;

/// `setInterval(function, interval, turns)`: the number of a new timer.
pub fn set_interval(
    alloc: Global,
    state: &mut BrowserState,
    now: u64,
    args: &[Value],
    heap: &Heap,
) -> Result<(Value, Effect), NoMemory>
    requires args { All (IsLive heap.now) args.now }
    requires now { now < 2 ^ 62 }
    ensures answers { IfOk result (λ answer. Answers
        (spec_set_interval now args.now heap.now state.old) answer state.new) }
    ensures err { OnErr result (state.new ≡ state.old) }
{
    let interval = whole_argument(heap, args, 1)?;
    let turns = count_argument(heap, args, 2)?;
    let function = function_argument(alloc, args, heap)?;
    Ok(set_timer(state, now, function, interval, turns))
}

// The function that the first argument names.
fn function_argument(alloc: Global, args: &[Value], heap: &Heap) -> Result<Option<Text>, NoMemory>
    requires { All (IsLive heap.now) args.now }
    ensures { IfOk result (λ function. function
        ≡ spec_named_function (spec_text_argument heap.now args.now 0)) }
{
    let text = text_argument(heap, args, 0)?;
    match named_function(text.codes()) {
        None => Ok(None),
        Some(name) => {
            let function = Text::of_codes(alloc, name)?;
            Ok(Some(function))
        }
    }
}

// Sets a timer of these arguments, if each is of its form.
fn set_timer(
    state: &mut BrowserState,
    now: u64,
    function: Option<Text>,
    interval: Option<i32>,
    turns: Option<u32>,
) -> (Value, Effect)
    requires { now < 2 ^ 62 }
    ensures { Answers (begin_timer now function interval turns state.old) result state.new }
{
    match (function, interval, turns) {
        (Some(function), Some(interval), Some(turns)) => {
            set_with_interval(state, now, function, interval_of(interval), turns)
        }
        _ => refusal(),
    }
}

// Sets a timer where there is a place for one.
fn set_with_interval(
    state: &mut BrowserState,
    now: u64,
    function: Text,
    interval: u32,
    turns: u32,
) -> (Value, Effect)
    requires now { now < 2 ^ 62 }
    requires interval { 100 ≤ interval }
    ensures { Answers (with_interval now function interval turns state.old) result state.new }
{
    match state.timers.set(function, interval, turns, now) {
        Some(number) => (whole(number), Effect::Nothing),
        None => refusal(),
    }
}

// The interval, raised to the least one.
fn interval_of(interval: i32) -> u32
    ensures interval { result ≡ spec_interval_of interval }
    ensures least { 100 ≤ result }
{
    match u32::try_from(interval) {
        Ok(interval) if interval >= LEAST_INTERVAL => interval,
        _ => LEAST_INTERVAL,
    }
}

/// `clearTimer(number)`: 1, and NaN where no timer has the number.
pub fn clear_timer(
    state: &mut BrowserState,
    args: &[Value],
    heap: &Heap,
) -> Result<(Value, Effect), NoMemory>
    requires args { All (IsLive heap.now) args.now }
    ensures answers { IfOk result (λ answer. Answers
        (spec_clear_timer args.now heap.now state.old) answer state.new) }
    ensures err { OnErr result (state.new ≡ state.old) }
{
    match count_argument(heap, args, 0)? {
        Some(number) => Ok(clear(state, number)),
        None => Ok(refusal()),
    }
}

#[tactic(auto, using(crate::proofs::TimerLemmas::none_goes))]
fn clear(state: &mut BrowserState, number: u32) -> (Value, Effect)
    ensures { Answers (spec_end_timer number state.old) result state.new }
{
    if state.timers.clear(number) {
        (whole(1), Effect::Nothing)
    } else {
        refusal()
    }
}
