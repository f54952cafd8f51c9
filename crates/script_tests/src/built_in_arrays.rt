//! Methods of arrays: what they give, what stands then where, and the steps that are left.

use crate::lines::Line;
use crate::object_words::{add_object, letter_values, push_words};
use crate::value_words::object_of;
use bml_bytes::{NoMemory, Text};
use es_builtins::{Built, call_method};
use es_values::{Budget, Heap, Value};
use std::alloc::Global;

/// Appends what a call of a method of an array answers with so many steps, and the steps that it
/// leaves. The object 0 is an array with the text `b,a`.
pub fn push_told(
    alloc: Global,
    method: &[u8],
    words: &[u8],
    args: &[u8],
    steps: u8,
    out: &mut Line,
) -> Result<(), NoMemory> {
    let mut heap = Heap::new(alloc);
    let array = add_objects(&mut heap, words)?;
    push_call(&mut heap, array, method, args, steps, out)
}

// Two objects, and then the array of these words.
fn add_objects(heap: &mut Heap, words: &[u8]) -> Result<u64, NoMemory> {
    add_object(heap, true, b"0b 1a")?;
    add_object(heap, false, b"")?;
    add_object(heap, true, words)
}

fn push_call(
    heap: &mut Heap,
    array: u64,
    method: &[u8],
    args: &[u8],
    steps: u8,
    out: &mut Line,
) -> Result<(), NoMemory> {
    let name = Text::of_bytes(heap.allocator(), method)?;
    let args = letter_values(heap, args)?;
    let base = object_of(heap, array);
    let mut budget = Budget {
        left: u32::from(steps),
    };
    let built = call_method(&base, &name, &args, heap, &mut budget)?;
    out.word(mark_of(&built));
    push_given(heap, array, &built, out);
    out.count(u64::from(budget.left));
    Ok(())
}

// What stands in front: `!` where nothing could be called, and `?` where too few steps were left.
fn mark_of(built: &Built) -> &'static [u8] {
    match built {
        Built::Value(_) => b"",
        Built::NotCallable => b"!",
        Built::OverBudget => b"?",
    }
}

// Appends a text that was given, and else the properties.
fn push_given(heap: &Heap, array: u64, built: &Built, out: &mut Line) {
    match built {
        Built::Value(Value::Str(text)) => {
            out.text(text);
            out.byte(b' ');
        }
        _ => {
            if array < heap.len() {
                push_words(heap, array, out);
            }
        }
    }
}
