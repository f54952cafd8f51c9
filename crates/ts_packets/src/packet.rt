//! A transport packet and the fields of its header (ISO/IEC 13818-1, 2.4.3.2).
ghost use Rattle.std.specs.Prelude.{◌≡◌, ◌+◌, ◌*◌, ◌^◌, ◌<◌, ◌≤◌, length, option_copied, IfSome};
ghost use Rattle.ts_packets.specs.Packet.{IsPacket, bits_of, pid_of, has_error, starts_unit, is_scrambled, counter_of, payload_of, is_readable};

use std::marker::Model;

/// The number of bytes of a packet (ISO/IEC 13818-1, 2.4.3.2).
pub const PACKET_LENGTH: usize = 188;

/// The first byte of every packet (ISO/IEC 13818-1, 2.4.3.3, sync_byte).
pub const SYNC_BYTE: u8 = 0x47;

/// One transport packet: 188 bytes, the first of which is the sync byte.
#[derive(Clone, Copy, Debug, PartialEq, Eq)]
pub struct Packet {
    bytes: [u8; PACKET_LENGTH],
}

impl Model for Packet {
    ghost use Rattle.std.specs.Prelude.{ℕ, List};
    ghost use Rattle.ts_packets.specs.Packet.{IsPacket};

    ghost Value = { List ℕ };

    ghost view = { λ p. p.bytes };

    ghost invariant = { λ p. IsPacket p.bytes };

    ghost inverse = { λ bytes. record { bytes = bytes } };
}

impl Packet {
    /// The packet that these 188 bytes are.
    pub fn from_bytes(bytes: &[u8]) -> Packet
        requires packet { IsPacket bytes.now }
        ensures { result ≡ bytes.now }
    {
        Packet {
            bytes: *bytes.first_chunk().unwrap(),
        }
    }

    /// The 188 bytes, in the stream's order.
    pub fn bytes(&self) -> &[u8]
        ensures bytes { result.now ≡ self.now }
        ensures packet { IsPacket self.now }
    {
        &self.bytes
    }

    /// The packet identifier, 0 to 8191 (ISO/IEC 13818-1, 2.4.3.3, PID).
    pub fn pid(&self) -> u16
        ensures pid { result ≡ pid_of self.now }
        ensures small { result < 2 ^ 13 }
    {
        pid_in(self.bytes[1], self.bytes[2])
    }

    /// Whether the stream marks the packet as damaged (transport_error_indicator).
    pub fn has_error(&self) -> bool
        ensures { result ≡ has_error self.now }
    {
        self.bytes[1] & 0x80 != 0
    }

    /// Whether a unit of the payload, as a section, starts in this packet
    /// (payload_unit_start_indicator).
    pub fn starts_unit(&self) -> bool
        ensures { result ≡ starts_unit self.now }
    {
        (self.bytes[1] >> 6) & 0x01 == 1
    }

    /// Whether the payload is scrambled in any way (transport_scrambling_control other than 0).
    pub fn is_scrambled(&self) -> bool
        ensures { result ≡ is_scrambled self.now }
    {
        self.bytes[3] & 0xC0 != 0
    }

    /// The continuity counter, 0 to 15, which counts a PID's packets with payload.
    pub fn counter(&self) -> u8
        ensures counter { result ≡ counter_of self.now }
        ensures small { result < 16 }
    {
        self.bytes[3] & 0x0F
    }

    /// The payload, at least one byte; `None` where the header says that there is none, and where
    /// the adaptation field leaves no byte or passes the packet's end.
    pub fn payload(&self) -> Option<&[u8]>
        ensures payload { option_copied result ≡ payload_of self.now }
        ensures size { IfSome result
            (λ payload. (1 ≤ length payload.now) × (length payload.now ≤ 184)) }
    {
        match (self.bytes[3] >> 4) & 0x03 {
            1 => Some(&self.bytes[4..]),
            3 if self.bytes[4] <= 182 => Some(&self.bytes[5 + self.bytes[4] as usize..]),
            _ => None,
        }
    }

    /// Whether the packet says anything: no error, not scrambled, and a payload.
    pub fn is_readable(&self) -> bool
        ensures { result ≡ is_readable self.now }
    {
        !self.has_error() && !self.is_scrambled() && self.payload().is_some()
    }
}

/// The PID that bytes 1 and 2 of a packet hold.
pub(crate) fn pid_in(high: u8, low: u8) -> u16
    ensures { result ≡ bits_of high 0 5 * 256 + low }
{
    (u16::from(high & 0x1F) << 8) | u16::from(low)
}
