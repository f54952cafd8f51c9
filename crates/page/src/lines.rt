//! The lines that tell of documents. Each call stops in the middle of a line where it
//! finds no memory.

ghost use Rattle.std.specs.Prelude.{◌≡◌, ◌++◌, OnOk};
ghost use Rattle.std.specs.Io.{StartsWith};
ghost use Rattle.std.specs.List.{flat_map};
ghost use Rattle.page.specs.Lines.{bad_script_line, fault_name, load_lines, refuse_line};

use bml_bytes::{NoMemory, law_of_fronts, push_count, push_line_end, push_word};
use bml_reader::DocFault;
use multipart_entities::Path;

/// Appends the line of the document at a path that was loaded, and the lines of its bad scripts,
/// which have these numbers.
pub fn push_load_lines(path: &Path, bad: &[u32], out: &mut Vec<u8>) -> Result<(), NoMemory>
    ensures ok { OnOk result (out.new.items ≡ out.old.items ++ load_lines path.now bad.now) }
    ensures grows { StartsWith out.new.items out.old.items }
{
    law_of_fronts();
    push_word("load ", out)?;
    path.push(out)?;
    push_line_end(out)?;
    push_bad_script_lines(path, bad, out)
}

/// Appends the line of the document at a path that was refused.
pub fn push_refuse_line(path: &Path, fault: DocFault, out: &mut Vec<u8>) -> Result<(), NoMemory>
    ensures ok { OnOk result (out.new.items ≡ out.old.items ++ refuse_line path.now fault) }
    ensures grows { StartsWith out.new.items out.old.items }
{
    push_word("refuse ", out)?;
    path.push(out)?;
    push_word(" ", out)?;
    push_word(name_of_fault(fault), out)?;
    push_line_end(out)
}

// The lines of the bad scripts with these numbers, in their order.
fn push_bad_script_lines(path: &Path, bad: &[u32], out: &mut Vec<u8>) -> Result<(), NoMemory>
    ensures ok { OnOk result
        (out.new.items ≡ out.old.items ++ flat_map (bad_script_line path.now) bad.now) }
    ensures grows { StartsWith out.new.items out.old.items }
{
    law_of_fronts();
    'lines: for number in bad {
        push_bad_script_line(path, *number, out)?;
    }
    Ok(())
}

fn push_bad_script_line(path: &Path, number: u32, out: &mut Vec<u8>) -> Result<(), NoMemory>
    ensures ok { OnOk result (out.new.items ≡ out.old.items ++ bad_script_line path.now number) }
    ensures grows { StartsWith out.new.items out.old.items }
{
    push_word("badscript ", out)?;
    path.push(out)?;
    push_word(" ", out)?;
    push_count(u64::from(number), out)?;
    push_line_end(out)
}

fn name_of_fault(fault: DocFault) -> &'static str
    ensures { result.now ≡ fault_name fault }
{
    match fault {
        DocFault::Malformed => "Malformed",
        DocFault::WrongRoot => "WrongRoot",
        DocFault::TooDeep => "TooDeep",
        DocFault::TooManyNodes => "TooManyNodes",
        DocFault::NoMemory => "NoMemory",
    }
}
