//! Laws of the definitions, each the contract of a function that does nothing.
ghost use Rattle.std.specs.Prelude.{◌≡◌, ◌↔◌, ◌++◌, ℕ, ◌*◌, ◌≤◌, List, length, All};
ghost use Rattle.std.specs.List.{flat_map};
ghost use Rattle.ts_packets.specs.Packet.{IsPacket};
ghost use Rattle.ts_packets.specs.Cutter.{CutterState, MayFollow, IsCertainAt};
ghost use Rattle.ts_packets.specs.Packets.{StandsAt, ArePackets, packets_of};

/// The function on byte lists, of which the contracts speak, gives packets of the bytes.
pub fn packets_are_computed()
    ensures { (bytes : List ℕ) → ArePackets bytes (packets_of bytes) }
{}

/// It gives the only ones: bytes have one list of packets.
pub fn packets_are_unique()
    ensures { (bytes : List ℕ) (packets : List (List ℕ))
        → ArePackets bytes packets → packets ≡ packets_of bytes }
{}

/// Each of them is a packet, and together they are no longer than the bytes.
pub fn packets_fit()
    ensures packets { (bytes : List ℕ) → All IsPacket (packets_of bytes) }
    ensures apart { (bytes : List ℕ) → length (packets_of bytes) * 188 ≤ length bytes }
{}

/// Packets laid end to end, as ISO/IEC 13818-1 wants a stream, are cut into just these packets.
pub fn packets_laid_end_to_end()
    ensures { (packets : List (List ℕ))
        → All IsPacket packets → packets_of (flat_map (λ packet. packet) packets) ≡ packets }
{}

/// A packet is certain where it stands whatever follows, and only there.
pub fn certain_whatever_follows()
    ensures { (state : CutterState) (place : ℕ)
        → IsCertainAt state place
        ↔ ((more : List ℕ) → MayFollow state more → StandsAt (state.held ++ more) place) }
{}
