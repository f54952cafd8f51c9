//! The header that all download messages share, and what it says of the message behind it.

ghost use Rattle.std.specs.Prelude.{◌≡◌, ◌≤◌, ◌↔◌, length, option_map, ok_or, if◌then◌else◌, Ok, Err};
ghost use Rattle.dsmcc_messages.specs.Reading.{agree as agree_of, is_of_kind as has_kind, message_at, fields_in, seen};

use bml_bytes::{Cursor, TableFault};
use table_fields::body;

/// A kind of download message.
#[derive(Clone, Copy, Debug, PartialEq, Eq)]
pub struct MessageKind {
    /// The table_id of the sections that carry it.
    pub table_id: u8,
    pub message_id: u16,
}

/// What the header says of a message: the transactionId or downloadId, and what stands behind the
/// adaptation bytes up to the message's end.
#[derive(Debug, Drop)]
pub struct Message<'a> {
    pub identifier: u32,
    pub payload: &'a [u8],
}

/// The message of that kind which a section carries.
#[tactic(auto, unfolding(crate::specs::Reading::fields_in))]
pub fn message_in(kind: MessageKind, section: &[u8]) -> Result<Message<'_>, TableFault>
    requires { 12 ≤ length section.now }
    ensures { seen (λ message. (message.identifier, message.payload.now)) result
        ≡ fields_in kind Some section.now }
{
    if !is_of_kind(kind, section) {
        return Err(TableFault::Kind);
    }
    read_message(body(section)).ok_or(TableFault::Short)
}

fn is_of_kind(kind: MessageKind, section: &[u8]) -> bool
    requires { 12 ≤ length section.now }
    ensures { result ≡ has_kind kind section.now }
{
    let [high, low] = kind.message_id.to_be_bytes();
    section[0] == kind.table_id && agree(&[0x11, 0x03, high, low], body(section))
}

fn agree(wanted: &[u8], bytes: &[u8]) -> bool
    ensures { result ≡ agree_of wanted.now bytes.now }
{
    wanted
        .iter()
        .zip(bytes)
        .all(|(wanted, byte)| *wanted == *byte)
}

#[tactic(auto, unfolding(crate::specs::Reading::message_at))]
fn read_message(body: &[u8]) -> Option<Message<'_>>
    ensures { option_map (λ message. (message.identifier, message.payload.now)) result
        ≡ message_at body.now }
{
    let mut cursor = Cursor::new(body);
    let _kind = cursor.take(4)?;
    let identifier = cursor.u32()?;
    let _reserved = cursor.u8()?;
    let adaptation_length = cursor.u8()?;
    let message_length = cursor.u16()?;
    let mut message = Cursor::new(cursor.take(usize::from(message_length))?);
    let _adaptation = message.take(usize::from(adaptation_length))?;
    Some(Message {
        identifier,
        payload: message.left(),
    })
}
