//! Modules that are drawn.

ghost use Rattle.std.specs.Prelude.{◌≡◌, IfOk};
ghost use Rattle.file_generator.specs.Words.{after};
ghost use Rattle.file_generator.specs.devices.Drawing.{DrawsModule, bytes_behind};

use bml_bytes::NoMemory;
use rand_core::utils::NextWord;
use rand_pcg::Pcg32;
use std::alloc::Global;

/// Draws the bytes of a module: first how many there are, and then each of them.
pub fn draw_module(alloc: Global, words: &mut Pcg32) -> Result<Vec<u8>, NoMemory>
    ensures { IfOk result (λ bytes. DrawsModule words.old bytes.items words.new) }
{
    let size = 1000 + words.next_word() % 64_000;
    draw_bytes(alloc, words, size)
}

/// Draws so many bytes: the low byte of a word each.
fn draw_bytes(alloc: Global, words: &mut Pcg32, count: u32) -> Result<Vec<u8>, NoMemory>
    ensures { IfOk result (λ bytes. (bytes.items ≡ bytes_behind count words.old)
        × (words.new ≡ after count words.old)) }
{
    let mut bytes = Vec::new(alloc);
    for number in 0..count {
        bytes.push((words.next_word() % 256) as u8)?;
    }
    Ok(bytes)
}
