//! The descriptors in a module's info.

ghost use Rattle.std.specs.Prelude.{◌≡◌, List, option_copied, IfErr, IsOkAnd, MatchResult, None, OnOk};
ghost use Rattle.table_fields.specs.Descriptors.{AreDescriptors, Descriptor as DescriptorFields, first_with};
ghost use Rattle.dsmcc_messages.specs.Reading.{descriptor_in, found_in, seen};

use bml_bytes::TableFault;
use table_fields::{Descriptors, law_of_descriptors};

/// The tag of the Type descriptor, whose bytes are the text of the module's media type (ARIB STD-B24,
/// volume 3).
pub const MEDIA_TYPE: u8 = 0x01;

/// The tag of the CompressionType descriptor, which a compressed module has (after ARIB STD-B24, volume 3).
pub const COMPRESSION_TYPE: u8 = 0xC2;

/// The bytes of the first descriptor with that tag, a part of the info; None where there is none.
///
/// `Short` comes where the info isn't descriptors end to end, and `Kind` never.
pub fn find_descriptor(info: &[u8], tag: u8) -> Result<Option<&[u8]>, TableFault>
    ensures found { (descriptors : List DescriptorFields) → AreDescriptors info.now descriptors →
        IsOkAnd result (λ bytes. option_copied bytes ≡ first_with tag descriptors) }
    ensures only { OnOk result
        ((descriptors : List DescriptorFields) × AreDescriptors info.now descriptors) }
    ensures short { IfErr result (λ fault. (fault ≡ TableFault.Short) ×
        ((descriptors : List DescriptorFields) → ¬ AreDescriptors info.now descriptors)) }
    ensures reading { seen option_copied result ≡ found_in info.now tag }
    // Info that isn't descriptors has none.
    ensures lenient { MatchResult result
        (λ bytes. option_copied bytes ≡ descriptor_in info.now tag)
        (λ _. descriptor_in info.now tag ≡ None) }
{
    law_of_descriptors();
    let descriptors = Descriptors::of_bytes(info).ok_or(TableFault::Short)?;
    Ok(first_of_tag(descriptors, tag))
}

fn first_of_tag<'a>(descriptors: Descriptors<'a>, tag: u8) -> Option<&'a [u8]>
    ensures { option_copied result ≡ first_with tag descriptors.entry }
{
    let mut left = descriptors;
    'descriptors: while let Some(descriptor) = left.next() {
        if descriptor.tag == tag {
            return Some(descriptor.bytes);
        }
    }
    None
}
