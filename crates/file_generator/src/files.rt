//! The files.

ghost use Rattle.std.specs.Prelude.{◌≡◌, ◌≤◌, ◌<◌, ◌^◌, ◌++◌, ◌∷◌, [], true, IfOk, OnOk, map};
ghost use Rattle.bml_bytes.specs.Codes.{codes};
ghost use Rattle.carousel_writer.specs.GoodFiles.{are_good_files};
ghost use Rattle.file_generator.specs.GeneratedFiles.{IsGenerated, module_seen, modules_of};

use crate::laws::law_of_generated_files;
use crate::menu::menu;
use crate::modules::draw_module;
use bml_bytes::{NoMemory, Text};
use carousel_writer::{FileModule, Files};
use rand_core::SeedableRng;
use rand_pcg::Pcg32;
use std::alloc::Global;

/// The media type of a module that is drawn.
const DRAWN_MEDIA: &[u8] = b"application/octet-stream";

/// The files of a seed, with `count` modules after the first: module 0000 is a page with a menu, and each other one has
/// 1,000 to 64,999 bytes. They are sent twice on PID 256. It takes memory for them alone, less than 6.6 MB.
pub fn gen_files(alloc: Global, seed: u32, count: u32) -> Result<Files, NoMemory>
    requires some { 1 ≤ count }
    requires most { count ≤ 100 }
    ensures files { IfOk result (λ files. IsGenerated files seed count) }
    ensures good { IfOk result (λ files. are_good_files files ≡ true) }
{
    law_of_generated_files();
    let mut modules = Vec::new(alloc);
    push_modules(alloc, &mut modules, seed, count)?;
    Ok(Files {
        pid: 256,
        transaction: 1,
        download: 1,
        block_size: 4000,
        rounds: 2,
        modules,
    })
}

/// Appends the modules.
fn push_modules(
    alloc: Global,
    out: &mut Vec<FileModule>,
    seed: u32,
    count: u32,
) -> Result<(), NoMemory>
    requires most { count ≤ 100 }
    ensures { OnOk result (map module_seen out.new.items
        ≡ map module_seen out.old.items ++ modules_of seed count) }
{
    push_module(alloc, out, 0, b"", menu(alloc)?)?;
    let mut words = Pcg32::seed_from_u64(seed as u64);
    for index in 0..count {
        let bytes = draw_module(alloc, &mut words)?;
        push_module(alloc, out, index as u16 + 1, DRAWN_MEDIA, bytes)?;
    }
    Ok(())
}

/// Appends a module of version 1.
fn push_module(
    alloc: Global,
    out: &mut Vec<FileModule>,
    id: u16,
    media: &[u8],
    bytes: Vec<u8>,
) -> Result<(), NoMemory>
    ensures { OnOk result (map module_seen out.new.items ≡ map module_seen out.old.items
        ++ record { id = id; version = 1; media = codes media.now; bytes = bytes.items } ∷ []) }
{
    let media = Text::of_bytes(alloc, media)?;
    out.push(FileModule {
        id,
        version: 1,
        media,
        bytes,
    })?;
    Ok(())
}
