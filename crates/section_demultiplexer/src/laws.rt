//! Laws of the definitions, each the contract of a function with an empty body.

ghost use Rattle.std.specs.Prelude.{ℕ, List, ◌↔◌, Contains};
ghost use Rattle.section_demultiplexer.specs.Laws.{SameLists, WantedHaveRoom};
ghost use Rattle.section_demultiplexer.specs.Since.{ArePacketsSince, IsSince, Told, packets_since};

/// Where no more than 18 PIDs are wanted, and only such are followed, there is room for each that
/// is wanted.
pub fn law_of_room()
    ensures { WantedHaveRoom }
{}

/// It stands for packets and sections PID by PID, however these are told.
pub fn law_of_same_lists()
    ensures { SameLists }
{}

/// The packets for which a demultiplexer stands are, PID by PID, those since the PID was wanted
/// without a break: what its calls make of them is what they are in the list of all that was handed
/// in, and which these are is told by places of this list.
pub fn law_of_packets()
    ensures calls { ArePacketsSince }
    ensures places { (told : List Told) (pid : ℕ) (packet : List ℕ)
        → Contains (packets_since told pid) packet
        ↔ ((place : ℕ) × IsSince told pid packet place) }
{}
