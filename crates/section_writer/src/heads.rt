//! What the header of a section says.

/// The header of a section that is the only one of its table (ISO/IEC 13818-1, 2.4.4.11): table_id, table_id_extension,
/// version_number, which is below 32, and current_next_indicator. The extension is the program_number of a PMT.
#[derive(Clone, Copy)]
pub struct SectionHead {
    pub table_id: u8,
    pub extension: u16,
    pub version: u8,
    pub is_current: bool,
}
