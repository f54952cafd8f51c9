//! Replays a recorded transport stream of Japanese data broadcasting, as a receiver would see it.
//!
//! The program gives its words, the real files, the real standard output and the files of the kept area to
//! `replay_run::run`, which carries the promise, says on standard error how the run ended, and ends with
//! the status' number.
#![tactic(auto)]

mod command_line;
mod told_files;

use crate::command_line::{Asked, HELP, SYNOPSIS, VERSION, read_words, request_of};
use crate::told_files::{tell_fault, tell_line};
use bml_ports::Text;
use bml_ports_std::{AreaFile, DiskFile, FileWorld, StandardOutput};
use nv_journal::Journal;
use replay_run::{Status, run};
use std::process::ExitCode;

fn main(rt: HostRuntime) -> ExitCode {
    let status = match read_words(&rt) {
        Ok(words) => {
            let status = obey(&rt, words.as_slice());
            report(&rt, status);
            explain(&rt, words.as_slice(), status);
            status
        }
        Err(status) => {
            report(&rt, status);
            status
        }
    };
    ExitCode::from(status.number())
}

// Does what the words ask for.
fn obey(rt: &HostRuntime, words: &[Text]) -> Status {
    match request_of(words) {
        Asked::Help => print_text(rt, HELP),
        Asked::Version => print_text(rt, VERSION),
        Asked::Command => run_words(rt, words),
    }
}

// Runs the command that the words are, over the files and standard output.
fn run_words(rt: &HostRuntime, words: &[Text]) -> Status {
    let mut world = FileWorld::new(*rt);
    let mut keeper = Journal::new(DiskFile::new(*rt), AreaFile::new(*rt));
    let mut out = StandardOutput::new(rt.stdout());
    run(rt.alloc(), words, &mut world, &mut keeper, &mut out)
}

fn print_text(rt: &HostRuntime, text: &str) -> Status {
    match print!(rt; "{text}") {
        Ok(()) => Status::Done,
        Err(_) => Status::WriteFault,
    }
}

// Says on standard error how the run ended, unless all is done. Where standard error can't be written, the
// number of the status still tells it.
fn report(rt: &HostRuntime, status: Status) {
    if status == Status::Done {
        return;
    }
    let _ = eprintln!(rt; "{}", status.line().as_str());
    if status == Status::Usage {
        let _ = eprint!(rt; "{SYNOPSIS}");
    }
}

// Says after the status what it is about: the file that can't be opened or read, or the bad line of the record. The
// files are looked at anew for that, and nothing is said where they are found well.
fn explain(rt: &HostRuntime, words: &[Text], status: Status) {
    let [.., stream, record] = words else {
        return;
    };
    match status {
        Status::OpenFault | Status::ReadFault => tell_fault(rt, stream, record),
        Status::BadRecord { line } => tell_line(rt, record, line),
        _ => {}
    }
}
