//! Which files can be written as a stream.

ghost use Rattle.std.specs.Prelude.{◌≡◌, ◌↔◌, ◌<◌, ◌≤◌, ◌==◌, ◌+◌, ◌^◌, true, nat_le, length, IfOk, IsTrue};
ghost use Rattle.std.specs.List.{All, flat_map, list_all, list_any};
ghost use Rattle.bml_bytes.specs.Codes.{bytes_of};
ghost use Rattle.dsmcc_messages.specs.Dii.{entry_bytes};
ghost use Rattle.carousel_writer.specs.GoodFiles.{HaveTypes, are_good_files as spec_are_good_files, has_good_fields as spec_has_good_fields, has_good_media as spec_has_good_media, has_short_dii as spec_has_short_dii, have_own_numbers as spec_have_own_numbers, is_unskipped as spec_is_unskipped};
ghost use Rattle.carousel_writer.specs.Streams.{entry_of};
ghost use Rattle.carousel_writer.specs.devices.Laying.{AreUnskipped};

use crate::dii::info_bytes;
use crate::files::{FileModule, Files};
use crate::good_parts::is_own;
use crate::laws::laws_below;
use bml_bytes::NoMemory;
use std::alloc::Global;

/// The most bytes of a section.
const MOST_SECTION_BYTES: usize = 4096;

/// The bytes of a DII's section without entries.
const DII_BYTES: usize = 46;

/// Whether the files can be written.
pub fn are_good_files(alloc: Global, files: &Files) -> Result<bool, NoMemory>
    ensures { IfOk result (λ good. good ≡ spec_are_good_files files.now) }
{
    if !has_good_fields(files) {
        return Ok(false);
    }
    if !have_good_media(alloc, files.modules.as_slice())? {
        return Ok(false);
    }
    if !has_short_dii(alloc, files)? {
        return Ok(false);
    }
    if !have_own_numbers(files.modules.as_slice()) {
        return Ok(false);
    }
    Ok(are_unskipped(files))
}

fn has_good_fields(files: &Files) -> bool
    ensures { result ≡ spec_has_good_fields files.now }
{
    1 <= files.rounds
        && 16 <= files.pid
        && files.pid <= 8190
        && 1 <= files.block_size
        && files.block_size <= 4000
}

/// Whether each module has a media type that can be written.
fn have_good_media(alloc: Global, modules: &[FileModule]) -> Result<bool, NoMemory>
    ensures { IfOk result (λ good. good ≡ list_all spec_has_good_media modules.now) }
{
    let mut rest = modules;
    'modules: while let Some((first, behind)) = rest.split_first() {
        if !has_good_media(alloc, first)? {
            return Ok(false);
        }
        rest = behind;
    }
    Ok(true)
}

fn has_good_media(alloc: Global, file: &FileModule) -> Result<bool, NoMemory>
    ensures { IfOk result (λ good. good ≡ spec_has_good_media file.now) }
{
    let mut bytes = Vec::new(alloc);
    file.media.push_bytes(&mut bytes)?;
    if bytes.len() > 250 {
        return Ok(false);
    }
    is_own(alloc, &file.media)
}

/// Whether the DII's section isn't too long. No more entries are looked at than fit it.
fn has_short_dii(alloc: Global, files: &Files) -> Result<bool, NoMemory>
    requires media { list_all spec_has_good_media files.now.modules.items ≡ true }
    ensures { IfOk result (λ short. short ≡ spec_has_short_dii files.now) }
{
    laws_below();
    let mut size = DII_BYTES;
    'modules: for file in &files.modules {
        size += entry_size(alloc, file)?;
        if size > MOST_SECTION_BYTES {
            return Ok(false);
        }
    }
    Ok(true)
}

/// The bytes of a module's entry.
fn entry_size(alloc: Global, file: &FileModule) -> Result<usize, NoMemory>
    requires media { spec_has_good_media file.now ≡ true }
    ensures size { IfOk result (λ size. size ≡ length (entry_bytes (entry_of file.now))) }
    ensures bound { IfOk result (λ size. size ≤ 260) }
{
    laws_below();
    Ok(info_bytes(alloc, file)?.len() + 8)
}

/// Whether no two modules have one number. No more than 506 come here, since their DII is short.
fn have_own_numbers(modules: &[FileModule]) -> bool
    ensures { result ≡ spec_have_own_numbers modules.now }
{
    let mut rest = modules;
    'modules: while let Some((first, behind)) = rest.split_first() {
        if is_number_among(first.id, behind) {
            return false;
        }
        rest = behind;
    }
    true
}

fn is_number_among(number: u16, modules: &[FileModule]) -> bool
    ensures { result ≡ list_any (λ other. other.id == number) modules.now }
{
    modules.iter().any(|other| other.id == number)
}

/// Whether none of the modules is skipped.
fn are_unskipped(files: &Files) -> bool
    requires fields { spec_has_good_fields files.now ≡ true }
    requires numbers { spec_have_own_numbers files.now.modules.items ≡ true }
    ensures { result ≡ list_all (spec_is_unskipped files.now) files.now.modules.items }
{
    are_small(files)
}

/// Whether each module is as small as it has to be, and all of them together.
fn are_small(files: &Files) -> bool
    requires fields { spec_has_good_fields files.now ≡ true }
    requires numbers { spec_have_own_numbers files.now.modules.items ≡ true }
    ensures { IsTrue result ↔ AreUnskipped files.now files.now.modules.items }
{
    laws_below();
    let mut sum: usize = 0;
    'modules: for file in &files.modules {
        let bytes = file.bytes.as_slice();
        let size = bytes.len();
        if size > 1_048_576 {
            return false;
        }
        if size.div_ceil(files.block_size as usize) > 65_536 {
            return false;
        }
        if sum + size > 33_554_432 {
            return false;
        }
        sum += size;
    }
    true
}

/// The numbers of files don't pass their types.
pub fn numbers_have_types(files: &Files)
    ensures { HaveTypes files.now }
{
    ids_have_type(files.modules.as_slice());
    let _transaction = files.transaction;
    let _download = files.download;
}

fn ids_have_type(modules: &[FileModule])
    ensures { All (λ file. file.id < 2 ^ 16) modules.now }
{
    let mut rest = modules;
    'modules: while let Some((first, behind)) = rest.split_first() {
        id_has_type(first);
        rest = behind;
    }
}

fn id_has_type(file: &FileModule)
    ensures { file.now.id < 2 ^ 16 }
{
    let _id = file.id;
}
