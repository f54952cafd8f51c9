//! The lines that tell of events and of what scripts do. Each call stops in the middle of a line where it
//! finds no memory.

ghost use Rattle.std.specs.Io.{StartsWith};
ghost use Rattle.std.specs.Prelude.{◌≡◌, ◌++◌, OnOk, codes};
ghost use Rattle.bml_bytes.specs.Numerals.{decimal_digits};
ghost use Rattle.document_stages.specs.EventLines.{kept_line, launch_line, lost_line_of, sound_line};

use bml_bytes::{NoMemory, law_of_fronts, push_decimal, push_line_end, push_word};
use multipart_entities::Path;

/// Appends the line that tells that an event of this name was posted where no place was left for it.
pub fn push_lost_line(name: &'static str, out: &mut Vec<u8>) -> Result<(), NoMemory>
    ensures ok { OnOk result (out.new.items ≡ out.old.items ++ lost_line_of name.now) }
    ensures grows { StartsWith out.new.items out.old.items }
{
    law_of_fronts();
    push_word("lost ", out)?;
    push_word(name, out)?;
    push_line_end(out)
}

/// Appends the line that tells that the document at a path was launched.
pub fn push_launch_line(path: &Path, out: &mut Vec<u8>) -> Result<(), NoMemory>
    ensures ok { OnOk result (out.new.items ≡ out.old.items ++ launch_line path.now) }
    ensures grows { StartsWith out.new.items out.old.items }
{
    law_of_fronts();
    push_word("launch ", out)?;
    path.push(out)?;
    push_line_end(out)
}

/// Appends the line that tells that a sound was played.
pub fn push_sound_line(sound: u32, out: &mut Vec<u8>) -> Result<(), NoMemory>
    ensures ok { OnOk result (out.new.items ≡ out.old.items ++ sound_line sound) }
    ensures grows { StartsWith out.new.items out.old.items }
{
    law_of_fronts();
    push_word("sound ", out)?;
    push_decimal(i64::from(sound), out)?;
    push_line_end(out)
}

/// Appends the line that tells that so many bytes of a persistent array were written.
pub fn push_kept_line(slot: u8, size: u8, out: &mut Vec<u8>) -> Result<(), NoMemory>
    ensures ok { OnOk result (out.new.items ≡ out.old.items ++ kept_line slot size) }
    ensures grows { StartsWith out.new.items out.old.items }
{
    law_of_fronts();
    push_slot(slot, out)?;
    push_word(" ", out)?;
    push_decimal(i64::from(size), out)?;
    push_line_end(out)
}

// Appends the name of a persistent array, behind the word of its line.
fn push_slot(slot: u8, out: &mut Vec<u8>) -> Result<(), NoMemory>
    ensures ok { OnOk result
        (out.new.items ≡ out.old.items ++ (codes "kept nvram://~/" ++ decimal_digits slot)) }
    ensures grows { StartsWith out.new.items out.old.items }
{
    law_of_fronts();
    push_word("kept nvram://~/", out)?;
    push_decimal(i64::from(slot), out)
}
