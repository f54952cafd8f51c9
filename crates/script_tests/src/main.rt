//! Scripts and what they stand on, from the tokens of a text to what a whole script comes to, in
//! rows of text: each says what it is about and what is expected of it. The expected lines are
//! worked out by hand from the grammar and from the rows of evaluation.
//!
//! The words of the program are the names of files with rows; those of the repository lie in `data`.
//! For each section of a file the program says how many of its rows came out as expected, and for
//! each other row its line, its kind, what came out, and what was expected. Its status is 0 where
//! all are as expected, and 1 where a row isn't, or a file or memory is wanting.
//!
//! A file has lines. An empty one parts what stands round it, `#` begins a comment, and `== ` is
//! followed by the title of the section that begins. Every other line is a row: its kind, its
//! fields, and the line that is expected, with one tab between two of them. In these `\n`, `\r`,
//! `\t`, `\\` and `\xHH` stand for a byte, and a `\` at the end for nothing, so that what is empty or
//! ends with a blank can be seen. What the fields of each kind are stands at the head of its file,
//! and `kinds` has them all.
//!
//! No row is proved: the program is run over them, as two compilers build it, and what it prints is
//! compared.
#![tactic(auto)]

mod built_in_arrays;
mod built_in_names;
mod call_frames;
mod kinds;
mod lines;
mod object_words;
mod program_levels;
mod program_lines;
mod reports;
mod rows;
mod text_expressions;
mod text_tokens;
mod told_calls;
mod told_runs;
mod told_scripts;
mod value_conversions;
mod value_numbers;
mod value_objects;
mod value_words;

use crate::lines::Line;
use crate::reports::push_report;
use std::io::{self, ErrorKind, Write};
use std::process::ExitCode;
use std::{env, fs};

fn main(rt: HostRuntime) -> ExitCode {
    match report_files(&rt) {
        Ok(true) => ExitCode::SUCCESS,
        Ok(false) => ExitCode::FAILURE,
        Err(error) => {
            let _ = println!(rt; "stopped: {error}");
            ExitCode::FAILURE
        }
    }
}

// Prints the report of each file that is named, and answers whether all rows are as expected.
fn report_files(rt: &HostRuntime) -> io::Result<bool> {
    let mut all = true;
    let mut names = env::args(rt)?;
    let _program = names.next();
    for name in names {
        all &= report_file(rt, name.as_str())?;
    }
    Ok(all)
}

// Prints the report of a file, and answers whether its rows are as expected.
fn report_file(rt: &HostRuntime, name: &str) -> io::Result<bool> {
    let bytes = fs::read(rt, name)?;
    let mut out = Line::new(rt.alloc());
    let answer = push_report(rt.alloc(), name, &bytes, &mut out);
    rt.stdout().write_all(out.told())?;
    if out.is_whole() {
        Ok(answer)
    } else {
        Err(ErrorKind::OutOfMemory.into())
    }
}
