//! What of a packet isn't taken in yet.
ghost use Rattle.std.specs.Prelude.{◌≡◌, ◌<◌, [], length, drop, MatchOption};
ghost use Rattle.ts_sections.specs.Sections.{tokens_of_packet, marked};
ghost use Rattle.ts_sections.specs.devices.Remainder.{tokens_of, is_done, IsWithin, Passes, Finds, Drains};

use crate::piece::{Piece, Taken, starts_section};
use ts_packets::Packet;

/// The bytes of a packet from `place` on, where a mark may stand before the byte at `mark`.
#[derive(Clone, Copy)]
pub struct Remainder {
    pub place: usize,
    pub mark: Option<usize>,
}

/// Where a section that was found stands.
#[derive(Clone, Copy)]
pub enum Found {
    /// In the piece's buffer.
    Gathered,
    /// In the packet, from the first place to before the second.
    InPacket(usize, usize),
}

impl Remainder {
    /// All that the packet carries.
    pub fn of(packet: &Packet) -> Remainder
        ensures tokens { tokens_of packet.now result ≡ tokens_of_packet packet.now }
        ensures within { IsWithin packet.now result }
    {
        let bytes = packet.bytes();
        let Some(payload) = packet.payload() else {
            return Remainder::none(bytes);
        };
        let place = bytes.len() - payload.len();
        if packet.starts_unit() {
            Remainder::of_unit(bytes, place)
        } else {
            Remainder { place, mark: None }
        }
    }

    /// What a payload that begins at `place` with a pointer field carries (ISO/IEC 13818-1,
    /// 2.4.4.1).
    fn of_unit(packet: &[u8], place: usize) -> Remainder
        requires within { place < length packet.now }
        ensures tokens { tokens_of packet.now result ≡ marked (drop place packet.now) }
        ensures within { IsWithin packet.now result }
    {
        let mark = place + 1 + packet[place] as usize;
        if mark > packet.len() {
            return Remainder::none(packet);
        }
        Remainder {
            place: place + 1,
            mark: Some(mark),
        }
    }

    /// Nothing.
    fn none(packet: &[u8]) -> Remainder
        ensures tokens { tokens_of packet.now result ≡ [] }
        ensures within { IsWithin packet.now result }
    {
        Remainder {
            place: packet.len(),
            mark: None,
        }
    }

    /// Whether no section of that piece, or of the next one, ends in it.
    pub fn is_done(&self, packet: &[u8], piece: &Piece) -> bool
        requires { IsWithin packet.now self.now }
        ensures { result ≡ is_done packet.now self.now piece.now }
    {
        match self.mark {
            None => !piece.ends_in(&packet[self.place..]),
            Some(mark) => {
                !piece.ends_in(&packet[self.place..mark]) && !starts_section(&packet[mark..])
            }
        }
    }

    /// Takes in bytes of the packet, up to the end of the next section that ends in it.
    pub fn next_section(&mut self, packet: &[u8], piece: &mut Piece) -> Option<Found>
        requires within { IsWithin packet.now self.old }
        ensures within { IsWithin packet.now self.new }
        ensures found { MatchOption result
            (Drains packet.now self.old self.new piece.old piece.new)
            (Finds packet.now self.old self.new piece.old piece.new) }
    {
        match self.next_in_piece(packet, piece) {
            Some(found) => Some(found),
            None => {
                if self.mark.is_none() {
                    return None;
                }
                self.mark = None;
                piece.begin();
                self.next_in_piece(packet, piece)
            }
        }
    }

    fn next_in_piece(&mut self, packet: &[u8], piece: &mut Piece) -> Option<Found>
        requires within { IsWithin packet.now self.old }
        ensures within { IsWithin packet.now self.new }
        ensures found { MatchOption result
            (Passes packet.now self.old self.new piece.old piece.new)
            (Finds packet.now self.old self.new piece.old piece.new) }
    {
        let start = self.place;
        let end = self.mark.unwrap_or(packet.len());
        match piece.take(&packet[start..end]) {
            Taken::All => {
                self.place = end;
                None
            }
            Taken::Joined(count) => {
                self.place = start + count;
                Some(Found::Gathered)
            }
            Taken::Whole(count) => {
                self.place = start + count;
                Some(Found::InPacket(start, start + count))
            }
        }
    }
}
