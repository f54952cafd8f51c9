//! The parts of a section (ISO/IEC 13818-1, 2.4.4; ISO/IEC 13818-6, 9.2).

ghost use Rattle.std.specs.Prelude.{◌≡◌, ◌≤◌, length};
ghost use Rattle.table_fields.specs.Sections.{body as body_of};

/// What stands behind the eight bytes of the header and before the four bytes of the CRC_32.
pub fn body(section: &[u8]) -> &[u8]
    requires { 12 ≤ length section.now }
    ensures { result.now ≡ body_of section.now }
{
    &section[8..section.len() - 4]
}
