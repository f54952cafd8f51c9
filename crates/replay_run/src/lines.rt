//! Lines of a run's output that hold numbers.

ghost use Rattle.std.specs.Prelude.{◌≡◌, ◌++◌, OnOk, codes};
ghost use Rattle.std.specs.Io.{StartsWith};
ghost use Rattle.bml_bytes.specs.Numerals.{decimal_digits};
ghost use Rattle.replay_run.specs.Generating.{number_line};
ghost use Rattle.replay_run.specs.Lines.{end_line};

use bml_bytes::{NoMemory, push_count, push_line_end, push_word};

/// Appends the last line of a run, which tells how many packets were taken.
pub fn push_end_line(packets: u64, out: &mut Vec<u8>) -> Result<(), NoMemory>
    ensures ok { OnOk result (out.new.items ≡ out.old.items ++ end_line packets) }
    ensures grows { StartsWith out.new.items out.old.items }
{
    push_number_line("end", packets, out)
}

/// Appends a line of a name and a number.
pub fn push_number_line(name: &str, number: u64, out: &mut Vec<u8>) -> Result<(), NoMemory>
    ensures ok { OnOk result (out.new.items ≡ out.old.items ++ number_line name.now number) }
    ensures grows { StartsWith out.new.items out.old.items }
{
    push_word(name, out)?;
    push_number(number, out)?;
    push_line_end(out)
}

/// Appends the line of a run that generates files: its seed and how many modules it was asked for.
pub fn push_gen_line(seed: u32, count: u32, out: &mut Vec<u8>) -> Result<(), NoMemory>
    ensures { OnOk result (out.new.items ≡ out.old.items ++ codes "gen "
        ++ decimal_digits seed ++ codes " " ++ decimal_digits count ++ codes "\n") }
{
    push_word("gen", out)?;
    push_number(u64::from(seed), out)?;
    push_number(u64::from(count), out)?;
    push_line_end(out)
}

// Appends a number behind a space.
fn push_number(number: u64, out: &mut Vec<u8>) -> Result<(), NoMemory>
    ensures ok { OnOk result (out.new.items ≡ out.old.items ++ codes " " ++ decimal_digits number) }
    ensures grows { StartsWith out.new.items out.old.items }
{
    push_word(" ", out)?;
    push_count(number, out)
}
