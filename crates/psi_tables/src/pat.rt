//! The program association table, PAT for short: on which PID each program's map comes.

ghost use Rattle.std.specs.Prelude.{◌≡◌, ◌≤◌, ◌↔◌, List, length, option_map, ok_or, IfOk, MatchResult, Err, true};
ghost use Rattle.psi_tables.specs.declared.pat.PatEntry.{PatEntry};
ghost use Rattle.psi_tables.specs.Table.{association_table, IsOfTable};
ghost use Rattle.psi_tables.specs.Pat.{IsPat};
ghost use Rattle.psi_tables.specs.Reading.{entry_at, items_in, is_of_table as has_table, pat_in, IsRead};

use crate::laws::law_of_pat;
use crate::table::{is_of_table, pid};
use bml_bytes::{Cursor, TableFault, TableRefusal};
use std::alloc::Global;
use table_fields::body;

/// The PID on which PATs come (ISO/IEC 13818-1, 2.4.3.3, table 2-3).
pub const PAT_PID: u16 = 0;

/// What a PAT says of one program (ISO/IEC 13818-1, 2.4.4.3).
#[derive(Clone, Copy, Debug, PartialEq, Eq)]
pub struct PatEntry {
    /// The program's number; 0 stands for the network's own table.
    pub program: u16,
    /// The PID on which the program's PMT comes, 0 to 8191.
    pub pid: u16,
}

/// The entries of the PAT that a section carries, in their order.
///
/// `Kind` comes for a section of another table, for one that isn't in force yet, and for one that isn't the first
/// of its table; `Short` for one of the right kind whose body isn't entries of four bytes.
pub fn read_pat(alloc: Global, section: &[u8]) -> Result<Vec<PatEntry>, TableRefusal>
    requires { 12 ≤ length section.now }
    ensures found { IfOk result (λ found. IsPat section.now found.items) }
    ensures only { (entries : List PatEntry) → IsPat section.now entries
        → MatchResult result (λ found. found.items ≡ entries)
        (λ refusal. refusal ≡ TableRefusal.NoMemory) }
    ensures kind { (result ≡ Err (TableRefusal.Fault TableFault.Kind))
        ↔ ¬ IsOfTable association_table section.now }
    ensures short { result ≡ Err (TableRefusal.Fault TableFault.Short)
        → IsOfTable association_table section.now
        × ((entries : List PatEntry) → ¬ IsPat section.now entries) }
    ensures reading { IsRead (λ found. found.items) result (pat_in section.now) }
{
    law_of_pat();
    pat_of(alloc, section)
}

#[tactic(auto, unfolding(crate::specs::Reading::table_in))]
fn pat_of(alloc: Global, section: &[u8]) -> Result<Vec<PatEntry>, TableRefusal>
    requires { 12 ≤ length section.now }
    ensures reading { IsRead (λ found. found.items) result (pat_in section.now) }
    // The kind is tested before any memory is taken.
    ensures kind { result ≡ Err TableRefusal.NoMemory
        → has_table association_table section.now ≡ true }
{
    if !is_of_table(ASSOCIATION_TABLE, section) {
        return Err(TableRefusal::Fault(TableFault::Kind));
    }
    entries(alloc, body(section))
}

const ASSOCIATION_TABLE: u8 = 0x00;

fn entries(alloc: Global, bytes: &[u8]) -> Result<Vec<PatEntry>, TableRefusal>
    ensures { IsRead (λ found. found.items) result
        (ok_or (items_in entry_at bytes.now) TableFault.Short) }
{
    let mut entries = Vec::new(alloc);
    let mut rest = bytes;
    while !rest.is_empty() {
        let (entry, behind) = first_entry(rest).ok_or(TableFault::Short)?;
        entries.push(entry)?;
        rest = behind;
    }
    Ok(entries)
}

// The entry in front, and the bytes behind it.
#[tactic(auto, unfolding(crate::specs::Reading::entry_at))]
fn first_entry(bytes: &[u8]) -> Option<(PatEntry, &[u8])>
    ensures { option_map (λ found. (found.0, found.1.now)) result ≡ entry_at bytes.now }
{
    let mut cursor = Cursor::new(bytes);
    let program = cursor.u16()?;
    let pid = pid(&mut cursor)?;
    Some((PatEntry { program, pid }, cursor.left()))
}
