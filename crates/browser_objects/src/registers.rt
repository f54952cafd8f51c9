//! The registers Ureg and Greg.

ghost use Rattle.std.specs.Prelude.{◌≡◌, ◌<◌, IfOk, IfSome, OnErr, OnOk, option_copied, take};
ghost use Rattle.browser_objects.specs.Registers.{empty_registers as spec_empty_registers, register_of as spec_register_of, register_text, with_register};

use bml_bytes::{NoMemory, Text};
use es_values::index_of_name;
use std::alloc::Global;

/// How many registers Ureg and Greg have each.
const REGISTER_COUNT: u32 = 64;

/// How many codes a register keeps at most; this project's own limit.
const MOST_CODES: usize = 256;

/// The text of the register of a name, `0` to `63`; None of every other name.
pub fn register<'a>(registers: &'a [Text], name: &Text) -> Option<&'a Text>
    ensures { option_copied result ≡ register_text registers.now name.now }
{
    let number = register_of(name)?;
    registers.get(number)
}

/// Gives the register of a name the first 256 codes of a text. Where the name is of no register it
/// does nothing.
pub fn set_register(
    alloc: Global,
    registers: &mut [Text],
    name: &Text,
    text: &Text,
) -> Result<(), NoMemory>
    ensures written { OnOk result
        (registers.new ≡ with_register name.now text.now registers.old) }
    ensures err { OnErr result (registers.new ≡ registers.old) }
{
    let Some(number) = register_of(name) else {
        return Ok(());
    };
    let kept = first_codes(alloc, text)?;
    if number < registers.len() {
        registers[number] = kept;
    }
    Ok(())
}

/// Registers that are empty, as they are at first.
pub(crate) fn empty_registers(alloc: Global) -> Result<Vec<Text>, NoMemory>
    ensures { IfOk result (λ registers. registers.items ≡ spec_empty_registers) }
{
    let mut registers = Vec::with_capacity(alloc, REGISTER_COUNT as usize)?;
    'registers: for _ in 0..REGISTER_COUNT {
        registers.push(Text::of_codes(alloc, &[])?)?;
    }
    Ok(registers)
}

fn register_of(name: &Text) -> Option<usize>
    ensures { result ≡ spec_register_of name.now }
{
    match index_of_name(name) {
        Some(number) if number < REGISTER_COUNT => Some(number as usize),
        _ => None,
    }
}

// The codes of a text that a register keeps.
fn first_codes(alloc: Global, text: &Text) -> Result<Text, NoMemory>
    ensures { IfOk result (λ kept. kept ≡ take 256 text.now) }
{
    if text.len() <= MOST_CODES {
        text.share()
    } else {
        Text::of_codes(alloc, &text.codes()[..MOST_CODES])
    }
}
