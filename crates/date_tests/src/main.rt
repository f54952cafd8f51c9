//! Questions to `es_date`, in rows of text, and its answers.
//!
//! The words of the program are the names of files with rows; those of the repository lie in `data`. A row is the kind of
//! a question and its numbers, with one blank between two of them, and the program prints it with the answer after it.
//! `answers` has the kinds. An empty row, and one that begins with `#`, is printed as it is. Its status is 0, and 1 where a
//! file or memory is wanting.
//!
//! No answer is proved here: what the program prints is compared. `tools/measure/compare_dates.py` asks it for all days.
#![tactic(auto)]

mod answers;

use crate::answers::push_answer;
use bml_bytes::NoMemory;
use std::io::{self, ErrorKind, Write};
use std::process::ExitCode;
use std::{env, fs};

fn main(rt: HostRuntime) -> ExitCode {
    match answer_files(&rt) {
        Ok(()) => ExitCode::SUCCESS,
        Err(error) => {
            let _ = println!(rt; "stopped: {error}");
            ExitCode::FAILURE
        }
    }
}

// Prints the rows of each file that is named, with their answers.
fn answer_files(rt: &HostRuntime) -> io::Result<()> {
    let mut names = env::args(rt)?;
    let _program = names.next();
    for name in names {
        let bytes = fs::read(rt, name.as_str())?;
        let mut out = Vec::new(rt.alloc());
        if push_answers(&bytes, &mut out).is_err() {
            return Err(ErrorKind::OutOfMemory.into());
        }
        rt.stdout().write_all(&out)?;
    }
    Ok(())
}

// Appends the rows of a file, with their answers.
fn push_answers(bytes: &[u8], out: &mut Vec<u8>) -> Result<(), NoMemory> {
    let rows = bytes.strip_suffix(b"\n").unwrap_or(bytes);
    for row in rows.split(|byte| *byte == b'\n') {
        out.extend_from_slice(row)?;
        push_answer(row, out)?;
        out.push(b'\n')?;
    }
    Ok(())
}
