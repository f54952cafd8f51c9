//! Deep texts and long ones: how many levels they have, by the rules for levels, and how many nodes.

use crate::lines::Line;
use crate::program_lines::push_fault;
use bml_bytes::{NoMemory, Text};
use es_reader::{Program, SyntaxFault, read_program};
use std::alloc::Global;

// More pieces than any nest of at most 64 levels has.
const MOST_PIECES: u32 = 100;

/// `front`, so many times `piece`, `middle`, as many times `close`, and `back`.
#[derive(Clone, Copy)]
pub struct Nest<'a> {
    pub front: &'a [u8],
    pub piece: &'a [u8],
    pub middle: &'a [u8],
    pub close: &'a [u8],
    pub back: &'a [u8],
}

/// Pieces round a middle.
pub fn around<'a>(piece: &'a [u8], middle: &'a [u8], close: &'a [u8]) -> Nest<'a> {
    Nest {
        front: b"",
        piece,
        middle,
        close,
        back: b"",
    }
}

fn push_times(piece: &[u8], count: u32, out: &mut Line) {
    for _ in 0..count {
        out.word(piece);
    }
}

fn text_of(alloc: Global, nest: Nest, count: u32) -> Result<Text, NoMemory> {
    let mut bytes = Line::new(alloc);
    bytes.word(nest.front);
    push_times(nest.piece, count, &mut bytes);
    bytes.word(nest.middle);
    push_times(nest.close, count, &mut bytes);
    bytes.word(nest.back);
    Text::of_bytes(alloc, bytes.told())
}

/// Appends `whole` for a program, `deep`, or `bad` and the place.
pub fn push_nest(alloc: Global, nest: Nest, count: u32, out: &mut Line) -> Result<(), NoMemory> {
    let text = text_of(alloc, nest, count)?;
    match read_program(alloc, &text) {
        Ok(_) => {
            out.word(b"whole");
            Ok(())
        }
        Err(fault) => push_fault(fault, out),
    }
}

/// Appends with how many pieces a nest is still a program, and what it is with one more.
pub fn push_levels(alloc: Global, nest: Nest, out: &mut Line) -> Result<(), NoMemory> {
    for count in 0..MOST_PIECES {
        if !is_program(alloc, nest, count)? {
            out.number(i64::from(count) - 1);
            out.byte(b' ');
            return push_nest(alloc, nest, count, out);
        }
    }
    Ok(())
}

fn is_program(alloc: Global, nest: Nest, count: u32) -> Result<bool, NoMemory> {
    let text = text_of(alloc, nest, count)?;
    match read_program(alloc, &text) {
        Ok(_) => Ok(true),
        Err(SyntaxFault::NoMemory) => Err(NoMemory),
        Err(_) => Ok(false),
    }
}

/// Appends how many nodes and statements a program has.
pub fn push_sizes(alloc: Global, nest: Nest, count: u32, out: &mut Line) -> Result<(), NoMemory> {
    let text = text_of(alloc, nest, count)?;
    match read_program(alloc, &text) {
        Ok(program) => {
            out.count(u64::from(node_count(&program)));
            out.byte(b' ');
            out.count(program.statements().len() as u64);
            Ok(())
        }
        Err(fault) => push_fault(fault, out),
    }
}

fn node_count(program: &Program) -> u32 {
    for number in 0..u32::MAX {
        if program.node(number).is_none() {
            return number;
        }
    }
    u32::MAX
}

// Appends the front of a function with so many parameters, each with a name of its own, and a comma.
fn push_long_front(count: i64, out: &mut Line) {
    out.word(b"function f(");
    for number in 0..count {
        out.byte(b'a');
        out.number(number);
        out.byte(b',');
    }
}

/// Appends how many parameters and locals a function has with 50,000 parameters and this behind
/// them, or the place where it is bad.
pub fn push_parameter_counts(alloc: Global, behind: &[u8], out: &mut Line) -> Result<(), NoMemory> {
    let mut bytes = Line::new(alloc);
    push_long_front(50_000, &mut bytes);
    bytes.word(behind);
    let text = Text::of_bytes(alloc, bytes.told())?;
    match read_program(alloc, &text) {
        Ok(program) => {
            push_parameters(&program, out);
            Ok(())
        }
        Err(fault) => push_fault(fault, out),
    }
}

// Appends how many parameters and locals the first function has.
fn push_parameters(program: &Program, out: &mut Line) {
    if let Some(function) = program.function(0) {
        out.count(u64::from(function.parameters));
        out.byte(b' ');
        out.count(function.locals.len() as u64);
    }
}
