//! What the descriptors of a stream say of its component (ISO/IEC 13818-1, 2.6).

ghost use Rattle.std.specs.Prelude.{◌≡◌};
ghost use Rattle.table_fields.specs.Borrowed.{descriptor_of};
ghost use Rattle.psi_tables.specs.Descriptor.{component_tag_in};
ghost use Rattle.psi_tables.specs.Step.{component_tag_of};
ghost use Rattle.psi_tables.specs.Reading.{component_in};

use table_fields::{Descriptor, Descriptors};

/// The component_tag of the first stream identifier descriptor of one byte, where there is one; None outside
/// where the bytes aren't descriptors end to end.
#[tactic(auto, unfolding(crate::specs::Reading::component_in))]
pub fn component_tag(info: &[u8]) -> Option<Option<u8>>
    ensures { result ≡ component_in info.now }
{
    let descriptors = Descriptors::of_bytes(info)?;
    Some(first_component_tag(descriptors))
}

const STREAM_IDENTIFIER: u8 = 0x52;

fn first_component_tag(descriptors: Descriptors<'_>) -> Option<u8>
    ensures { result ≡ component_tag_in descriptors.entry }
{
    let mut left = descriptors;
    'descriptors: while let Some(descriptor) = left.next() {
        if let Some(tag) = identifier(descriptor) {
            return Some(tag);
        }
    }
    None
}

// The component_tag, where the descriptor is a stream identifier.
fn identifier(descriptor: Descriptor<'_>) -> Option<u8>
    ensures { result ≡ component_tag_of (descriptor_of descriptor.entry) }
{
    match descriptor.bytes {
        [component] if descriptor.tag == STREAM_IDENTIFIER => Some(*component),
        _ => None,
    }
}
