//! The kinds of rows: which fields each has, and what tells its line.

use crate::lines::Line;
use crate::program_levels::{
    Nest, around, push_levels, push_nest, push_parameter_counts, push_sizes,
};
use crate::program_lines::Detail;
use crate::told_calls::Call;
use crate::{
    built_in_arrays, built_in_names, call_frames, program_lines, text_expressions, text_tokens,
    told_calls, told_runs, told_scripts, value_conversions, value_numbers, value_objects,
};
use bml_bytes::{NoMemory, read_decimal};
use std::alloc::Global;

/// Appends the line that a row comes to, or that there is no kind with such fields.
pub fn push_line(
    alloc: Global,
    kind: &[u8],
    fields: &[Vec<u8>],
    out: &mut Line,
) -> Result<(), NoMemory> {
    match (kind, fields) {
        (b"tokens", [text]) => text_tokens::push_told(alloc, text, out),
        (b"long", [piece, count]) => text_tokens::push_long(alloc, piece, number_of(count), out),
        (b"spelling", [text]) => text_tokens::push_spelled(alloc, text, out),
        (b"expression", [text]) => text_expressions::push_told(alloc, text, out),
        (b"forms", [text]) => program_lines::push_told(alloc, text, Detail::Forms, out),
        (b"places", [text]) => program_lines::push_told(alloc, text, Detail::Places, out),
        (b"locals", [text]) => program_lines::push_told(alloc, text, Detail::Locals, out),
        (b"variables", [text]) => program_lines::push_told(alloc, text, Detail::Variables, out),
        _ => push_line_of_nest(alloc, kind, fields, out),
    }
}

// Deep programs and long ones.
fn push_line_of_nest(
    alloc: Global,
    kind: &[u8],
    fields: &[Vec<u8>],
    out: &mut Line,
) -> Result<(), NoMemory> {
    match (kind, fields) {
        (b"levels", [piece, middle, close]) => {
            push_levels(alloc, around(piece, middle, close), out)
        }
        (b"levels", [front, piece, middle, close, back]) => {
            let nest = Nest {
                front,
                piece,
                middle,
                close,
                back,
            };
            push_levels(alloc, nest, out)
        }
        (b"nest", [piece, middle, close, count]) => {
            push_nest(alloc, around(piece, middle, close), number_of(count), out)
        }
        (b"sizes", [piece, middle, close, count]) => {
            push_sizes(alloc, around(piece, middle, close), number_of(count), out)
        }
        (b"parameters", [behind]) => push_parameter_counts(alloc, behind, out),
        _ => push_line_of_number(alloc, kind, fields, out),
    }
}

// Numbers and names of indices.
fn push_line_of_number(
    alloc: Global,
    kind: &[u8],
    fields: &[Vec<u8>],
    out: &mut Line,
) -> Result<(), NoMemory> {
    match (kind, fields) {
        (b"operator", [operator, left, right]) => {
            value_numbers::push_operator(alloc, letter_of(operator), left, right, out)
        }
        (b"comparison", [left, right]) => value_numbers::push_comparison(alloc, left, right, out),
        (b"numeral", [text]) => value_numbers::push_numeral(alloc, text, out),
        (b"count", [count]) => {
            value_numbers::push_count(number_of(count), out);
            Ok(())
        }
        (b"index", [index]) => value_numbers::push_index(alloc, number_of(index), out),
        _ => push_line_of_value(alloc, kind, fields, out),
    }
}

// Values, objects and frames.
fn push_line_of_value(
    alloc: Global,
    kind: &[u8],
    fields: &[Vec<u8>],
    out: &mut Line,
) -> Result<(), NoMemory> {
    match (kind, fields) {
        (b"conversion", [word]) => value_conversions::push_converted(alloc, word, out),
        (b"operation", [left, right]) => {
            value_conversions::push_operated(alloc, left, right, out)
        }
        (b"charge", [charge, words, right]) => {
            value_conversions::push_left(alloc, letter_of(charge), words, right, out)
        }
        (b"object", [words]) => value_objects::push_told(alloc, false, words, out),
        (b"array", [words]) => value_objects::push_told(alloc, true, words, out),
        (b"frames", [words]) => call_frames::push_told(alloc, words, out),
        _ => push_line_of_call(alloc, kind, fields, out),
    }
}

// What is built in.
fn push_line_of_call(
    alloc: Global,
    kind: &[u8],
    fields: &[Vec<u8>],
    out: &mut Line,
) -> Result<(), NoMemory> {
    match (kind, fields) {
        (b"name", [name]) => built_in_names::push_name(alloc, name, out),
        (b"member", [number, name]) => {
            built_in_names::push_member(alloc, u64::from(number_of(number)), name, out)
        }
        (b"function", [name, args]) => {
            told_calls::push_told(alloc, Call::Function(name), args, out)
        }
        (b"new", [name, args]) => told_calls::push_told(alloc, Call::New(name), args, out),
        (b"both", [name, args]) => told_calls::push_both(alloc, name, args, out),
        (b"method", [name, base, args]) => {
            told_calls::push_told(alloc, Call::Method(base, name), args, out)
        }
        (b"elements", [method, words, args, steps]) => {
            let steps = u8::try_from(number_of(steps)).unwrap_or(u8::MAX);
            built_in_arrays::push_told(alloc, method, words, args, steps, out)
        }
        _ => push_line_of_script(alloc, kind, fields, out),
    }
}

// Scripts and runs.
fn push_line_of_script(
    alloc: Global,
    kind: &[u8],
    fields: &[Vec<u8>],
    out: &mut Line,
) -> Result<(), NoMemory> {
    match (kind, fields) {
        (b"script", [script]) => told_scripts::push_told(alloc, script, out),
        (b"date", [arguments]) => told_scripts::push_date(alloc, arguments, b"", out),
        (b"date", [arguments, statements]) => {
            told_scripts::push_date(alloc, arguments, statements, out)
        }
        (b"end", [script]) => told_scripts::push_end(alloc, script, out),
        (b"steps", [steps, script, shown]) => {
            told_runs::push_told(alloc, script, b"", b"0", number_of(steps), shown, out)
        }
        (b"runs", [steps, first, second, runs]) => {
            told_runs::push_told(alloc, first, second, runs, number_of(steps), b"s", out)
        }
        _ => {
            out.word(b"other fields, or no kind");
            Ok(())
        }
    }
}

// The number of a field, and 0 where it is none.
fn number_of(field: &[u8]) -> u32 {
    read_decimal(field).unwrap_or(0)
}

// The first letter of a field, and a blank where there is none.
fn letter_of(field: &[u8]) -> u8 {
    match field {
        [letter, ..] => *letter,
        [] => b' ',
    }
}
