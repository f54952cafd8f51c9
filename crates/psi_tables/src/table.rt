//! What the sections of all tables share (ISO/IEC 13818-1, 2.4.4).

ghost use Rattle.std.specs.Prelude.{◌≡◌, ◌≤◌, length, option_map, Some};
ghost use Rattle.psi_tables.specs.Reading.{is_of_table as has_table, info_at, narrow_at, program_number};

use bml_bytes::Cursor;

/// Whether a section carries that table, in force and as its first section.
pub fn is_of_table(table_id: u8, section: &[u8]) -> bool
    requires { 12 ≤ length section.now }
    ensures { result ≡ has_table table_id section.now }
{
    section[0] == table_id && section[5] % 2 == 1 && section[6] == 0
}

/// The number behind section_length, which is the program_number of a PMT.
#[tactic(auto, unfolding(crate::specs::Reading::program_number))]
pub fn extension(section: &[u8]) -> u16
    requires { 12 ≤ length section.now }
    ensures { Some result ≡ program_number section.now }
{
    let mut cursor = Cursor::new(&section[3..]);
    cursor.u16().unwrap_or(0)
}

/// The PID in the next two bytes, behind three reserved bits.
#[tactic(auto, unfolding(crate::specs::Reading::narrow_at))]
pub fn pid(cursor: &mut Cursor<'_>) -> Option<u16>
    ensures { option_map (λ pid. (pid, cursor.new)) result ≡ narrow_at 13 cursor.old }
{
    let number = cursor.u16()?;
    Some(number & 0x1FFF)
}

/// The bytes behind their length, which is the 12 bits behind four reserved ones.
#[tactic(auto, unfolding(crate::specs::Reading::info_at, crate::specs::Reading::narrow_at))]
pub fn info<'a>(cursor: &mut Cursor<'a>) -> Option<&'a [u8]>
    ensures { option_map (λ info. (info.now, cursor.new)) result ≡ info_at cursor.old }
{
    let number = cursor.u16()?;
    cursor.take(usize::from(number & 0x0FFF))
}
