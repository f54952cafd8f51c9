//! The program map table, PMT for short: which streams a program has.

ghost use Rattle.std.specs.Prelude.{◌≡◌, ◌≤◌, ◌↔◌, length, option_map, ok_or, IfOk, MatchOption, MatchResult, Err, None, true};
ghost use Rattle.psi_tables.specs.declared.pmt.Pmt.{Pmt};
ghost use Rattle.psi_tables.specs.Table.{map_table, IsOfTable};
ghost use Rattle.psi_tables.specs.Pmt.{IsPmt};
ghost use Rattle.psi_tables.specs.Reading.{stream_at, streams_in, program_map, items_in, is_of_table as has_table, pmt_in, IsRead};

use crate::descriptor::component_tag;
use crate::laws::law_of_pmt;
use crate::table::{extension, info, is_of_table, pid};
use bml_bytes::{Cursor, Sequence, TableFault, TableRefusal};
use std::alloc::Global;
use table_fields::body;

/// What a PMT says of one stream (ISO/IEC 13818-1, 2.4.4.8).
#[derive(Clone, Copy, Debug, PartialEq, Eq)]
pub struct PmtStream {
    /// The stream_type.
    pub kind: u8,
    /// The PID of its packets, 0 to 8191.
    pub pid: u16,
    /// The component_tag of its stream identifier descriptor, where it has one.
    pub component: Option<u8>,
}

/// A PMT (ISO/IEC 13818-1, 2.4.4.8).
#[derive(Debug, Drop)]
pub struct Pmt {
    /// The number of the program, as the PAT has it.
    pub program: u16,
    /// Its streams in the order in which they were sent.
    pub streams: Sequence<PmtStream>,
}

/// The PMT that a section carries.
///
/// `Kind` comes for a section of another table, for one that isn't in force yet, and for one that isn't the first
/// of its table; `Short` for one of the right kind in which a length passes the end, or leaves bytes that are no
/// whole stream or descriptor.
pub fn read_pmt(alloc: Global, section: &[u8]) -> Result<Pmt, TableRefusal>
    requires { 12 ≤ length section.now }
    ensures found { IfOk result (IsPmt section.now) }
    ensures only { (pmt : Pmt) → IsPmt section.now pmt
        → MatchResult result (λ found. found ≡ pmt) (λ refusal. refusal ≡ TableRefusal.NoMemory) }
    ensures kind { (result ≡ Err (TableRefusal.Fault TableFault.Kind))
        ↔ ¬ IsOfTable map_table section.now }
    ensures short { result ≡ Err (TableRefusal.Fault TableFault.Short)
        → IsOfTable map_table section.now × ((pmt : Pmt) → ¬ IsPmt section.now pmt) }
    ensures reading { IsRead (λ found. found) result (pmt_in section.now) }
{
    law_of_pmt();
    pmt_of(alloc, section)
}

#[tactic(auto, unfolding(crate::specs::Reading::table_in))]
fn pmt_of(alloc: Global, section: &[u8]) -> Result<Pmt, TableRefusal>
    requires { 12 ≤ length section.now }
    ensures reading { IsRead (λ found. found) result (pmt_in section.now) }
    // The kind is tested before any memory is taken.
    ensures kind { result ≡ Err TableRefusal.NoMemory → has_table map_table section.now ≡ true }
{
    if !is_of_table(MAP_TABLE, section) {
        return Err(TableRefusal::Fault(TableFault::Kind));
    }
    program_map_of(alloc, extension(section), body(section))
}

const MAP_TABLE: u8 = 0x02;

// The PMT of that program with the streams in a body.
#[tactic(auto, unfolding(crate::specs::Reading::program_map))]
fn program_map_of(alloc: Global, program: u16, body: &[u8]) -> Result<Pmt, TableRefusal>
    ensures { IsRead (λ found. found) result
        (ok_or (program_map program body.now) TableFault.Short) }
{
    let streams = program_streams(alloc, body)?;
    Ok(Pmt { program, streams })
}

fn program_streams(alloc: Global, body: &[u8]) -> Result<Sequence<PmtStream>, TableRefusal>
    ensures { IsRead (λ found. found) result (ok_or (streams_in body.now) TableFault.Short) }
{
    let loop_of_streams = behind_program_info(body).ok_or(TableFault::Short)?;
    stream_loop(alloc, loop_of_streams)
}

// What stands behind PCR_PID and the program's descriptors.
#[tactic(auto, unfolding(crate::specs::Reading::streams_in))]
fn behind_program_info(body: &[u8]) -> Option<&[u8]>
    ensures { MatchOption result (streams_in body.now ≡ None)
        (λ rest. streams_in body.now ≡ items_in stream_at rest.now) }
{
    let mut cursor = Cursor::new(body);
    let _pcr_pid = pid(&mut cursor)?;
    let info = info(&mut cursor)?;
    let _component = component_tag(info)?;
    Some(cursor.left())
}

fn stream_loop(alloc: Global, bytes: &[u8]) -> Result<Sequence<PmtStream>, TableRefusal>
    ensures { IsRead (λ found. found) result
        (ok_or (items_in stream_at bytes.now) TableFault.Short) }
{
    let mut streams = Vec::new(alloc);
    let mut rest = bytes;
    while !rest.is_empty() {
        let (stream, behind) = first_stream(rest).ok_or(TableFault::Short)?;
        streams.push(stream)?;
        rest = behind;
    }
    Ok(Sequence::from(streams))
}

// The stream in front, and the bytes behind it.
#[tactic(auto, unfolding(crate::specs::Reading::stream_at))]
fn first_stream(bytes: &[u8]) -> Option<(PmtStream, &[u8])>
    ensures { option_map (λ found. (found.0, found.1.now)) result ≡ stream_at bytes.now }
{
    let mut cursor = Cursor::new(bytes);
    let kind = cursor.u8()?;
    let pid = pid(&mut cursor)?;
    let info = info(&mut cursor)?;
    let component = component_tag(info)?;
    Some((
        PmtStream {
            kind,
            pid,
            component,
        },
        cursor.left(),
    ))
}
