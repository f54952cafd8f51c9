//! The DII of files.

ghost use Rattle.std.specs.Prelude.{◌≡◌, ◌≤◌, ◌<◌, ◌^◌, ◌++◌, ◌∷◌, length, IfOk, OnOk};
ghost use Rattle.std.specs.List.{All, flat_map};
ghost use Rattle.bml_bytes.specs.Codes.{bytes_of};
ghost use Rattle.bml_bytes.specs.Numbers.{big_bytes};
ghost use Rattle.dsmcc_messages.specs.Dii.{entry_bytes};
ghost use Rattle.carousel_writer.specs.Messages.{dii_front, dii_payload};
ghost use Rattle.carousel_writer.specs.Streams.{dii_of, entry_of, info_of};

use crate::files::{FileModule, Files};
use crate::messages::{push_long, push_short};
use bml_bytes::{NoMemory, Text};
use std::alloc::Global;

/// The payload of the DII.
pub fn dii_payload_of(alloc: Global, files: &Files) -> Result<Vec<u8>, NoMemory>
    requires count { length files.now.modules.items < 2 ^ 16 }
    requires media { All (λ file. length (bytes_of file.media) ≤ 250) files.now.modules.items }
    requires sizes { All (λ file. length file.bytes.items < 2 ^ 32) files.now.modules.items }
    ensures { IfOk result (λ payload. payload.items ≡ dii_payload (dii_of files.now)) }
{
    let mut payload = Vec::new(alloc);
    push_front(&mut payload, files)?;
    push_entries(alloc, &mut payload, files.modules.as_slice())?;
    push_short(&mut payload, 0)?;
    Ok(payload)
}

/// Appends the fields before the entries. Those that files don't tell are 0: windowSize, ackPeriod, tCDownloadWindow,
/// tCDownloadScenario, and the length of the compatibility descriptor.
fn push_front(out: &mut Vec<u8>, files: &Files) -> Result<(), NoMemory>
    requires count { length files.now.modules.items < 2 ^ 16 }
    ensures { OnOk result (out.new.items ≡ out.old.items ++ dii_front (dii_of files.now)) }
{
    push_long(out, files.download)?;
    push_short(out, files.block_size)?;
    out.extend_from_slice(&[0, 0])?;
    push_zeros(out)?;
    push_short(out, files.modules.len() as u16)
}

/// Appends tCDownloadWindow, tCDownloadScenario and the length of the compatibility descriptor.
fn push_zeros(out: &mut Vec<u8>) -> Result<(), NoMemory>
    ensures { OnOk result (out.new.items
        ≡ out.old.items ++ big_bytes 4 0 ++ big_bytes 4 0 ++ big_bytes 2 0) }
{
    push_long(out, 0)?;
    push_long(out, 0)?;
    push_short(out, 0)
}

/// Appends the entries of all modules.
fn push_entries(alloc: Global, out: &mut Vec<u8>, modules: &[FileModule]) -> Result<(), NoMemory>
    requires media { All (λ file. length (bytes_of file.media) ≤ 250) modules.now }
    requires sizes { All (λ file. length file.bytes.items < 2 ^ 32) modules.now }
    ensures { OnOk result (out.new.items
        ≡ out.old.items ++ flat_map (λ file. entry_bytes (entry_of file)) modules.now) }
{
    'modules: for file in modules {
        push_entry(alloc, out, file)?;
    }
    Ok(())
}

/// Appends a module's entry: its number, size, version and info.
fn push_entry(alloc: Global, out: &mut Vec<u8>, file: &FileModule) -> Result<(), NoMemory>
    requires media { length (bytes_of file.now.media) ≤ 250 }
    requires size { length file.now.bytes.items < 2 ^ 32 }
    ensures { OnOk result (out.new.items ≡ out.old.items ++ entry_bytes (entry_of file.now)) }
{
    push_short(out, file.id)?;
    push_long(out, file.bytes.len() as u32)?;
    out.push(file.version)?;
    push_info(alloc, out, file)
}

/// Appends the length of a module's info, and the info.
fn push_info(alloc: Global, out: &mut Vec<u8>, file: &FileModule) -> Result<(), NoMemory>
    requires media { length (bytes_of file.now.media) ≤ 250 }
    ensures { OnOk result (out.new.items
        ≡ out.old.items ++ length (info_of file.now.media) ∷ info_of file.now.media) }
{
    let info = info_bytes(alloc, file)?;
    out.push(info.len() as u8)?;
    out.extend_from_slice(info.as_slice())?;
    Ok(())
}

/// A module's info: a Type descriptor, or nothing where it has no media type.
pub fn info_bytes(alloc: Global, file: &FileModule) -> Result<Vec<u8>, NoMemory>
    requires media { length (bytes_of file.now.media) ≤ 250 }
    ensures { IfOk result
        (λ info. (info.items ≡ info_of file.now.media) × (length info.items ≤ 252)) }
{
    let mut info = Vec::new(alloc);
    if file.media.len() > 0 {
        push_type(alloc, &mut info, &file.media)?;
    }
    Ok(info)
}

/// Appends a Type descriptor.
fn push_type(alloc: Global, out: &mut Vec<u8>, media: &Text) -> Result<(), NoMemory>
    requires short { length (bytes_of media.now) ≤ 250 }
    ensures { OnOk result (out.new.items
        ≡ out.old.items ++ 0x01 ∷ length (bytes_of media.now) ∷ bytes_of media.now) }
{
    let mut bytes = Vec::new(alloc);
    media.push_bytes(&mut bytes)?;
    out.extend_from_slice(&[0x01, bytes.len() as u8])?;
    out.extend_from_slice(bytes.as_slice())?;
    Ok(())
}
