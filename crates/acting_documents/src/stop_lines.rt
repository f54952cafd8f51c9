//! The line that tells that a script was stopped.

ghost use Rattle.std.specs.Io.{StartsWith};
ghost use Rattle.std.specs.Prelude.{◌≡◌, ◌++◌, OnOk};
ghost use Rattle.acting_documents.specs.StopLines.{stop_lines, stop_name as spec_stop_name};

use bml_bytes::{NoMemory, law_of_fronts, push_line_end, push_word};
use es_eval::{Outcome, StopCause};

/// Appends the line that tells why a script was stopped that ran for the event of this name, and
/// nothing for one that came to its end. It stops in the middle of a line where it finds no memory.
pub fn push_stop_line(
    outcome: Outcome,
    event: &'static str,
    out: &mut Vec<u8>,
) -> Result<(), NoMemory>
    ensures ok { OnOk result (out.new.items ≡ out.old.items ++ stop_lines outcome event.now) }
    ensures grows { StartsWith out.new.items out.old.items }
{
    law_of_fronts();
    let Outcome::Stopped(cause) = outcome else {
        return Ok(());
    };
    push_word("stop ", out)?;
    push_word(stop_name(cause), out)?;
    push_word(" ", out)?;
    push_word(event, out)?;
    push_line_end(out)
}

fn stop_name(cause: StopCause) -> &'static str
    ensures { result.now ≡ spec_stop_name cause }
{
    match cause {
        StopCause::Budget => "Budget",
        StopCause::Depth => "Depth",
        StopCause::NotCallable => "NotCallable",
        StopCause::NotObject => "NotObject",
        StopCause::Unresolved => "Unresolved",
    }
}
