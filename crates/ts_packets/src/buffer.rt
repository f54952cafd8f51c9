//! Moves and searches in a byte slice, of which the cutter is made.
ghost use Rattle.std.specs.Prelude.{◌≡◌, ◌≢◌, ℕ, ◌+◌, ◌≤◌, ◌++◌, length, take, drop, slice_index, IfSome, IsNone};
ghost use Rattle.ts_packets.specs.Packet.{sync_byte};
ghost use Rattle.ts_packets.specs.Cutter.{IsCertainAt, IsFirstCertain};

use super::packet::{PACKET_LENGTH, SYNC_BYTE};

/// Moves `count` bytes from `start` to the front.
pub(crate) fn move_to_front(bytes: &mut [u8], start: usize, count: usize)
    requires within { start + count ≤ length bytes.old }
    ensures len { length bytes.new ≡ length bytes.old }
    ensures moved { take count bytes.new ≡ take count (drop start bytes.old) }
{
    for place in 0..count {
        bytes[place] = bytes[start + place];
    }
}

/// Writes `more` at `place`.
pub(crate) fn put(bytes: &mut [u8], place: usize, more: &[u8])
    requires within { place + length more.now ≤ length bytes.old }
    ensures len { length bytes.new ≡ length bytes.old }
    ensures written { take (place + length more.now) bytes.new ≡ take place bytes.old ++ more.now }
{
    bytes[place..place + more.len()].copy_from_slice(more);
}

/// The least place of what is held where a packet stands whatever follows.
pub(crate) fn first_certain(held: &[u8], ended: bool) -> Option<usize>
    ensures found { IfSome result (IsFirstCertain (record { held = held.now; ended = ended })) }
    ensures none { IsNone result
        → (place : ℕ) → ¬ (IsCertainAt (record { held = held.now; ended = ended }) place) }
{
    for place in 0..held.len().saturating_sub(PACKET_LENGTH) {
        if held[place] == SYNC_BYTE && held[place + PACKET_LENGTH] == SYNC_BYTE {
            return Some(place);
        }
    }
    if ended { last_place(held) } else { None }
}

/// The place 188 bytes before the end, where the sync byte stands there.
fn last_place(held: &[u8]) -> Option<usize>
    ensures found { IfSome result (λ place.
        (length held.now ≡ place + 188) × (slice_index held.now place ≡ sync_byte)) }
    ensures none { IsNone result
        → (place : ℕ) → length held.now ≡ place + 188 → slice_index held.now place ≢ sync_byte }
{
    if held.len() < PACKET_LENGTH {
        return None;
    }
    let place = held.len() - PACKET_LENGTH;
    if held[place] == SYNC_BYTE {
        Some(place)
    } else {
        None
    }
}
