//! The DownloadDataBlock, DDB for short: one block of a module's bytes.

ghost use Rattle.std.specs.Prelude.{◌≡◌, ◌≤◌, ◌↔◌, length, option_map, IfOk, IsOkAnd, Err};
ghost use Rattle.dsmcc_messages.specs.Message.{data_block, IsOfKind};
ghost use Rattle.dsmcc_messages.specs.Ddb.{DataBlock, IsDdb, fields_of};
ghost use Rattle.dsmcc_messages.specs.Reading.{data_block_at, ddb_in, seen};

use crate::laws::law_of_ddb;
use crate::message::{Message, MessageKind, message_in};
use bml_bytes::{Cursor, TableFault};

/// A DDB (ISO/IEC 13818-6, 7.3).
#[derive(Clone, Copy, Debug, PartialEq, Eq)]
pub struct Ddb<'a> {
    /// The downloadId of the DII that names the module.
    pub download: u32,
    pub module: u16,
    pub version: u8,
    /// The block's place among the module's blocks, from 0 on.
    pub number: u16,
    /// The block's bytes, a part of the section.
    pub block: &'a [u8],
}

/// The DDB that a section carries. The block is lent from the section, so this takes no memory.
///
/// `Kind` comes for a section of another table, or with another message; `Short` for one of the right kind
/// in which a length passes the message's or the section's end. What stands in the section behind the
/// message is unread.
pub fn read_ddb(section: &[u8]) -> Result<Ddb<'_>, TableFault>
    requires { 12 ≤ length section.now }
    ensures found { IfOk result (λ ddb. IsDdb section.now (fields_of ddb)) }
    ensures only { (ddb : DataBlock) → IsDdb section.now ddb
        → IsOkAnd result (λ found. fields_of found ≡ ddb) }
    ensures kind { (result ≡ Err TableFault.Kind) ↔ ¬ IsOfKind data_block section.now }
    ensures short { result ≡ Err TableFault.Short → IsOfKind data_block section.now
        × ((ddb : DataBlock) → ¬ IsDdb section.now ddb) }
    ensures reading { seen fields_of result ≡ ddb_in section.now }
{
    law_of_ddb();
    ddb_of(section)
}

fn ddb_of(section: &[u8]) -> Result<Ddb<'_>, TableFault>
    requires { 12 ≤ length section.now }
    ensures { seen fields_of result ≡ ddb_in section.now }
{
    let message = message_in(DATA_BLOCK, section)?;
    fields(message).ok_or(TableFault::Short)
}

const DATA_BLOCK: MessageKind = MessageKind {
    table_id: 0x3C,
    message_id: 0x1003,
};

#[tactic(auto, unfolding(crate::specs::Reading::data_block_at))]
fn fields(message: Message<'_>) -> Option<Ddb<'_>>
    ensures { option_map fields_of result
        ≡ data_block_at (message.entry.identifier, message.entry.payload.now) }
{
    let mut cursor = Cursor::new(message.payload);
    let module = cursor.u16()?;
    let version = cursor.u8()?;
    let _reserved = cursor.u8()?;
    let number = cursor.u16()?;
    Some(Ddb {
        download: message.identifier,
        module,
        version,
        number,
        block: cursor.left(),
    })
}
