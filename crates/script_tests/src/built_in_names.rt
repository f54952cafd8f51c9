//! Names of what is built in, and of what isn't, and members of functions.

use crate::lines::Line;
use crate::value_words::push_value;
use bml_bytes::{NoMemory, Text};
use es_builtins::{function_member, value_named};
use es_values::Heap;
use std::alloc::Global;

/// Appends the word of what is built in under a name, and nothing where there is none.
pub fn push_name(alloc: Global, name: &[u8], out: &mut Line) -> Result<(), NoMemory> {
    let name = Text::of_bytes(alloc, name)?;
    if let Some(value) = value_named(&name) {
        push_value(&Heap::new(alloc), &value, out);
    }
    Ok(())
}

/// Appends the word of a member of the function of a number.
pub fn push_member(
    alloc: Global,
    number: u64,
    name: &[u8],
    out: &mut Line,
) -> Result<(), NoMemory> {
    let name = Text::of_bytes(alloc, name)?;
    push_value(&Heap::new(alloc), &function_member(number, &name), out);
    Ok(())
}
