//! The lines that tell of modules. Each call stops in the middle of a line where it finds no memory.

ghost use Rattle.std.specs.Prelude.{◌≡◌, ◌++◌, OnOk};
ghost use Rattle.std.specs.Io.{StartsWith};
ghost use Rattle.module_store.specs.Lines.{cause_name, component_field, delivery_fields, event_fields, line_fields, line_name, line_of_change, line_with, module_fields};

use bml_bytes::{NoMemory, law_of_fronts, push_count, push_hex, push_line_end, push_word};
use carousel_blocks::{Change, ChangeLine, SkipCause};

/// Appends the line of a change in a module of a component, where it has one: the module was
/// delivered, is gone, or is skipped; or the line of a data event of the component.
pub fn push_change_line(component: u8, change: &Change, out: &mut Vec<u8>) -> Result<(), NoMemory>
    ensures ok { OnOk result
        (out.new.items ≡ out.old.items ++ line_of_change component change.now) }
    ensures grows { StartsWith out.new.items out.old.items }
{
    match change.line {
        None => Ok(()),
        Some(line) => push_line(component, change.module, line, out),
    }
}

fn push_line(
    component: u8,
    number: u16,
    line: ChangeLine,
    out: &mut Vec<u8>,
) -> Result<(), NoMemory>
    ensures ok { OnOk result (out.new.items ≡ out.old.items ++ line_with component number line) }
    ensures grows { StartsWith out.new.items out.old.items }
{
    push_word(name_of_line(line), out)?;
    push_line_fields(component, number, line, out)?;
    push_line_end(out)
}

fn name_of_line(line: ChangeLine) -> &'static str
    ensures { result.now ≡ line_name line }
{
    match line {
        ChangeLine::Delivered { .. } => "module",
        ChangeLine::Gone => "gone",
        ChangeLine::Skipped(_) => "skip",
        ChangeLine::DataEvent { .. } => "dataevent",
    }
}

// What stands after the word: of a module its component, its number, and the version and the size of what was
// delivered, or why it is skipped; of a data event its component, and the data_event_ids.
fn push_line_fields(
    component: u8,
    number: u16,
    line: ChangeLine,
    out: &mut Vec<u8>,
) -> Result<(), NoMemory>
    ensures ok { OnOk result (out.new.items ≡ out.old.items ++ line_fields component number line) }
    ensures grows { StartsWith out.new.items out.old.items }
{
    law_of_fronts();
    match line {
        ChangeLine::Delivered { version, size } => {
            push_module_fields(component, number, out)?;
            push_delivery_fields(version, size, out)
        }
        ChangeLine::Gone => push_module_fields(component, number, out),
        ChangeLine::Skipped(cause) => {
            push_module_fields(component, number, out)?;
            push_word(" ", out)?;
            push_word(name_of_cause(cause), out)
        }
        ChangeLine::DataEvent { before, after } => {
            push_component_field(component, out)?;
            push_event_fields(before, after, out)
        }
    }
}

// The component.
fn push_component_field(component: u8, out: &mut Vec<u8>) -> Result<(), NoMemory>
    ensures ok { OnOk result (out.new.items ≡ out.old.items ++ component_field component) }
    ensures grows { StartsWith out.new.items out.old.items }
{
    push_word(" ", out)?;
    push_hex(u32::from(component), 2, out)
}

// The data_event_ids before and after.
fn push_event_fields(before: u8, after: u8, out: &mut Vec<u8>) -> Result<(), NoMemory>
    ensures ok { OnOk result (out.new.items ≡ out.old.items ++ event_fields before after) }
    ensures grows { StartsWith out.new.items out.old.items }
{
    push_word(" ", out)?;
    push_count(u64::from(before), out)?;
    push_word(" ", out)?;
    push_count(u64::from(after), out)
}

// The module's component and its number.
fn push_module_fields(component: u8, number: u16, out: &mut Vec<u8>) -> Result<(), NoMemory>
    ensures ok { OnOk result (out.new.items ≡ out.old.items ++ module_fields component number) }
    ensures grows { StartsWith out.new.items out.old.items }
{
    push_component_field(component, out)?;
    push_word(" ", out)?;
    push_hex(u32::from(number), 4, out)
}

// The version and the size of what was delivered.
fn push_delivery_fields(version: u8, size: u32, out: &mut Vec<u8>) -> Result<(), NoMemory>
    ensures ok { OnOk result (out.new.items ≡ out.old.items ++ delivery_fields version size) }
    ensures grows { StartsWith out.new.items out.old.items }
{
    push_word(" ", out)?;
    push_hex(u32::from(version), 2, out)?;
    push_word(" ", out)?;
    push_count(u64::from(size), out)
}

fn name_of_cause(cause: SkipCause) -> &'static str
    ensures { result.now ≡ cause_name cause }
{
    match cause {
        SkipCause::Compressed => "compressed",
        SkipCause::Large => "large",
    }
}
