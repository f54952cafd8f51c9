//! The DownloadInfoIndication, DII for short: which modules a data carousel has.

ghost use Rattle.std.specs.Prelude.{◌≡◌, ◌≤◌, ◌↔◌, length, option_copied, ok_or, IfOk, MatchResult, Err, true};
ghost use Rattle.bml_bytes.specs.Fields.{with_left};
ghost use Rattle.dsmcc_messages.specs.Message.{indication, IsOfKind};
ghost use Rattle.dsmcc_messages.specs.Dii.{IsDii, entry_of};
ghost use Rattle.dsmcc_messages.specs.Reading.{dii_in, entries_at, entry_at, indication_at, is_of_kind, long_bytes_at, modules_at, short_bytes_at, sizes_at, IsRead, IsReadAt};

use crate::entry::Entry;
use crate::laws::law_of_dii;
use crate::message::{Message, MessageKind, message_in};
use bml_bytes::{Cursor, Sequence, TableFault, TableRefusal};
use std::alloc::Global;

/// A DII (ISO/IEC 13818-6, 7.3).
#[derive(Debug, Drop)]
pub struct Dii {
    /// The transactionId, by which one DII of a carousel is told from the next.
    pub transaction: u32,
    /// The downloadId, which the DDBs of its modules share. Its top four bits are the data_event_id.
    pub download: u32,
    /// The length in bytes of each block of a module but its last.
    pub block_size: u16,
    /// All entries in the order in which they were sent, also several with one number.
    pub entries: Sequence<Entry>,
}

impl Dii {
    /// The entry of a module. Of two entries with one number the first counts.
    pub fn entry(&self, module: u16) -> Option<&Entry>
        ensures { option_copied result ≡ entry_of self.now «module» }
    {
        self.entries
            .as_slice()
            .iter()
            .find(|entry| entry.id == module)
    }
}

/// The DII that a section carries, with all of its entries.
///
/// `Kind` comes for a section of another table, or with another message; `Short` for one of the right kind
/// in which a length passes the message's or the section's end, or bytes of the message are left. What
/// stands in the section behind the message is unread.
pub fn read_dii(alloc: Global, section: &[u8]) -> Result<Dii, TableRefusal>
    requires { 12 ≤ length section.now }
    ensures found { IfOk result (IsDii section.now) }
    ensures only { (dii : Dii) → IsDii section.now dii
        → MatchResult result (λ found. found ≡ dii) (λ refusal. refusal ≡ TableRefusal.NoMemory) }
    ensures kind { (result ≡ Err (TableRefusal.Fault TableFault.Kind))
        ↔ ¬ IsOfKind indication section.now }
    ensures short { result ≡ Err (TableRefusal.Fault TableFault.Short)
        → IsOfKind indication section.now × ((dii : Dii) → ¬ IsDii section.now dii) }
    ensures reading { IsRead result (dii_in section.now) }
{
    law_of_dii();
    dii_of(alloc, section)
}

fn dii_of(alloc: Global, section: &[u8]) -> Result<Dii, TableRefusal>
    requires { 12 ≤ length section.now }
    ensures reading { IsRead result (dii_in section.now) }
    // The kind is tested before any memory is taken.
    ensures kind { result ≡ Err TableRefusal.NoMemory → is_of_kind indication section.now ≡ true }
{
    let message = message_in(INDICATION, section)?;
    fields(alloc, message)
}

const INDICATION: MessageKind = MessageKind {
    table_id: 0x3B,
    message_id: 0x1002,
};

#[tactic(auto, unfolding(crate::specs::Reading::indication_at))]
fn fields(alloc: Global, message: Message<'_>) -> Result<Dii, TableRefusal>
    ensures { IsRead result (ok_or
        (indication_at (message.entry.identifier, message.entry.payload.now)) TableFault.Short) }
{
    let mut cursor = Cursor::new(message.payload);
    let (download, block_size) = sizes(&mut cursor).ok_or(TableFault::Short)?;
    let entries = modules(alloc, &mut cursor)?;
    let _private_data = long_bytes(&mut cursor).ok_or(TableFault::Short)?;
    if !cursor.left().is_empty() {
        return Err(TableRefusal::Fault(TableFault::Short));
    }
    Ok(Dii {
        transaction: message.identifier,
        download,
        block_size,
        entries,
    })
}

// The downloadId and the blockSize, with all fields up to the entries.
#[tactic(auto, unfolding(crate::specs::Reading::sizes_at))]
fn sizes(cursor: &mut Cursor<'_>) -> Option<(u32, u16)>
    ensures { with_left (λ sizes. sizes) result cursor.new ≡ sizes_at cursor.old }
{
    let download = cursor.u32()?;
    let block_size = cursor.u16()?;
    let _window_size = cursor.u8()?;
    let _ack_period = cursor.u8()?;
    let _download_window = cursor.u32()?;
    let _download_scenario = cursor.u32()?;
    let _compatibility = long_bytes(cursor)?;
    Some((download, block_size))
}

// Bytes behind their length of two bytes.
#[tactic(auto, unfolding(crate::specs::Reading::long_bytes_at))]
fn long_bytes<'a>(cursor: &mut Cursor<'a>) -> Option<&'a [u8]>
    ensures { with_left (λ bytes. bytes.now) result cursor.new ≡ long_bytes_at cursor.old }
{
    let length = cursor.u16()?;
    cursor.take(usize::from(length))
}

// The entries behind their number.
#[tactic(auto, unfolding(crate::specs::Reading::modules_at))]
fn modules(alloc: Global, cursor: &mut Cursor<'_>) -> Result<Sequence<Entry>, TableRefusal>
    ensures { IsReadAt (λ entries. entries) result cursor.new (modules_at cursor.old) }
{
    let count = cursor.u16().ok_or(TableFault::Short)?;
    let mut entries = Vec::new(alloc);
    for _ in 0..count {
        let entry = entry(alloc, cursor)?;
        entries.push(entry)?;
    }
    Ok(Sequence::from(entries))
}

// The next entry.
fn entry(alloc: Global, cursor: &mut Cursor<'_>) -> Result<Entry, TableRefusal>
    ensures { IsReadAt (λ entry. entry) result cursor.new (entry_at cursor.old) }
{
    let fields = entry_fields(cursor).ok_or(TableFault::Short)?;
    let info = Vec::from_slice(alloc, fields.info)?;
    Ok(Entry {
        id: fields.id,
        size: fields.size,
        version: fields.version,
        info: Sequence::from(info),
    })
}

// An entry whose info is still a part of the section.
#[derive(Drop)]
struct EntryFields<'a> {
    id: u16,
    size: u32,
    version: u8,
    info: &'a [u8],
}

#[tactic(auto, unfolding(crate::specs::Reading::entry_at, crate::specs::Reading::short_bytes_at))]
fn entry_fields<'a>(cursor: &mut Cursor<'a>) -> Option<EntryFields<'a>>
    ensures { with_left (λ e. record {
      id = e.id;
      size = e.size;
      version = e.version;
      info = e.info.now;
    }) result cursor.new ≡ entry_at cursor.old }
{
    let id = cursor.u16()?;
    let size = cursor.u32()?;
    let version = cursor.u8()?;
    let length = cursor.u8()?;
    let info = cursor.take(usize::from(length))?;
    Some(EntryFields {
        id,
        size,
        version,
        info,
    })
}
