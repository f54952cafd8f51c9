//! Calls of what is built in: what a call answers, and how many steps it takes.
//!
//! Values are words as `value_words` has them. The heap has an object, 0, and the arrays 1 and 2 of
//! `a` and `b` and of `7`, and each of them is charged one step when it becomes a text.

ghost use Rattle.std.specs.Prelude.{◌≤◌, All};
ghost use Rattle.es_values.specs.Heaps.{IsLive};

use crate::lines::Line;
use crate::object_words::add_object;
use crate::value_words::{push_value, value_of, values_of};
use bml_bytes::{NoMemory, Text};
use es_builtins::{Built, call_function, call_method, construct, value_named};
use es_values::{Budget, Heap, Value};
use std::alloc::Global;

/// What is called: a function, a function with `new`, or a method of a value.
#[derive(Clone, Copy, Debug)]
pub enum Call<'a> {
    Function(&'a [u8]),
    New(&'a [u8]),
    Method(&'a [u8], &'a [u8]),
}

/// Appends what a call answers with 1,000 steps, and how many of them it takes. It is told if it
/// answers anything else with just these steps, or isn't over budget and without effect with one
/// step fewer.
pub fn push_told(alloc: Global, call: Call, args: &[u8], out: &mut Line) -> Result<(), NoMemory> {
    let mut answer = Line::new(alloc);
    let left = push_answer(alloc, call, args, 1000, &mut answer)?;
    let charge = 1000_u32.saturating_sub(left);
    out.word(answer.told());
    push_checked(alloc, call, args, charge, answer.told(), out)?;
    out.byte(b' ');
    out.count(u64::from(charge));
    Ok(())
}

// Appends whether a call with just these steps answers anything else, and whether it isn't over
// budget with one fewer.
fn push_checked(
    alloc: Global,
    call: Call,
    args: &[u8],
    charge: u32,
    answer: &[u8],
    out: &mut Line,
) -> Result<(), NoMemory>
    requires { charge ≤ 100000 }
{
    if !is_answer(alloc, call, args, charge, answer, 0)? {
        out.word(b" not with as many");
    }
    if 0 < charge && !is_answer(alloc, call, args, charge - 1, b"over", charge - 1)? {
        out.word(b" not over with fewer");
    }
    Ok(())
}

/// Appends what a call of a function answers, and the same call with `new`, which is told if that
/// answers anything else.
pub fn push_both(alloc: Global, name: &[u8], args: &[u8], out: &mut Line) -> Result<(), NoMemory> {
    push_told(alloc, Call::Function(name), args, out)?;
    let mut made = Line::new(alloc);
    push_told(alloc, Call::New(name), args, &mut made)?;
    if made.told() != out.told() {
        out.word(b", with new ");
        out.word(made.told());
    }
    Ok(())
}

// Whether a call with so many steps answers this, and leaves so many.
fn is_answer(
    alloc: Global,
    call: Call,
    args: &[u8],
    steps: u32,
    expected: &[u8],
    left: u32,
) -> Result<bool, NoMemory>
    requires { steps ≤ 100000 }
{
    let mut out = Line::new(alloc);
    let rest = push_answer(alloc, call, args, steps, &mut out)?;
    Ok(out.told() == expected && rest == left)
}

// Appends what a call answers, and gives the steps that it leaves.
fn push_answer(
    alloc: Global,
    call: Call,
    args: &[u8],
    steps: u32,
    out: &mut Line,
) -> Result<u32, NoMemory>
    requires { steps ≤ 100000 }
{
    let mut heap = Heap::new(alloc);
    push_answer_in(&mut heap, call, args, steps, out)
}

fn push_answer_in(
    heap: &mut Heap,
    call: Call,
    args: &[u8],
    steps: u32,
    out: &mut Line,
) -> Result<u32, NoMemory>
    requires { steps ≤ 100000 }
{
    add_samples(heap)?;
    let objects = heap.len();
    let mut budget = Budget { left: steps };
    let args = values_of(heap, args)?;
    let built = answered(call, &args, heap, &mut budget)?;
    push_built(heap, &built, out);
    if heap.len() != objects {
        out.word(b" new");
    }
    Ok(budget.left)
}

fn answered(
    call: Call,
    args: &[Value],
    heap: &mut Heap,
    budget: &mut Budget,
) -> Result<Built, NoMemory>
    requires args { All (IsLive heap.old) args.now }
    requires steps { budget.old.left ≤ 100000 }
{
    match call {
        Call::Function(name) => {
            let number = function_number(heap.allocator(), name)?;
            call_function(number, args, heap, budget)
        }
        Call::New(name) => {
            let number = function_number(heap.allocator(), name)?;
            construct(number, args, heap, budget)
        }
        Call::Method(base, name) => {
            let base = value_of(heap, base)?;
            let name = Text::of_bytes(heap.allocator(), name)?;
            call_method(&base, &name, args, heap, budget)
        }
    }
}

// The number of a function, and 1,000 where there is none of that name.
fn function_number(alloc: Global, name: &[u8]) -> Result<u64, NoMemory> {
    let name = Text::of_bytes(alloc, name)?;
    Ok(match value_named(&name) {
        Some(Value::Function(number)) => number,
        _ => 1000,
    })
}

const SAMPLES: &[(bool, &[u8])] = &[(false, b""), (true, b"0a 1b"), (true, b"07")];

fn add_samples(heap: &mut Heap) -> Result<(), NoMemory> {
    for (array, words) in SAMPLES {
        add_object(heap, *array, words)?;
    }
    Ok(())
}

fn push_built(heap: &Heap, built: &Built, out: &mut Line) {
    match built {
        Built::Value(value) => push_value(heap, value, out),
        Built::NotCallable => out.word(b"not callable"),
        Built::OverBudget => out.word(b"over"),
    }
}
