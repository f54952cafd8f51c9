//! What the definitions of this crate say together. A law's contract is what it is for, and it does nothing
//! when it runs.

ghost use Rattle.std.specs.Prelude.{◌≡◌, ◌↔◌, ℕ, List, Some};
ghost use Rattle.table_fields.specs.Descriptors.{AreDescriptors, Descriptor as DescriptorFields, descriptors_in};

use bml_bytes::law_of_fields;

/// Bytes are at most one list of descriptors, and reading gives it.
pub fn law_of_descriptors()
    ensures one { (bytes : List ℕ) (descriptors others : List DescriptorFields) →
        AreDescriptors bytes descriptors → AreDescriptors bytes others → descriptors ≡ others }
    ensures some { (bytes : List ℕ) (descriptors : List DescriptorFields) →
        AreDescriptors bytes descriptors ↔ (descriptors_in bytes ≡ Some descriptors) }
{
    law_of_fields();
}
