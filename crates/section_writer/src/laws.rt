//! What the definitions say together. Each function is a law: its contract is what it is for, and it does nothing when it
//! runs.

ghost use Rattle.std.specs.Prelude.{◌≡◌, ◌≢◌, ◌≤◌, ◌<◌, ◌+◌, ℕ, List, [], length};
ghost use Rattle.std.specs.List.{All};
ghost use Rattle.ts_packets.specs.Packets.{packets_of};
ghost use Rattle.ts_sections.specs.Intact.{IsIntact};
ghost use Rattle.ts_sections.specs.Sending.{IsSection};
ghost use Rattle.section_writer.specs.declared.heads.SectionHead.{SectionHead};
ghost use Rattle.section_writer.specs.Packets.{stream_bytes, stream_packets};
ghost use Rattle.section_writer.specs.Received.{Carries, sections_on};
ghost use Rattle.section_writer.specs.Sections.{section_bytes};
ghost use Rattle.section_writer.specs.devices.LawsBelow.{Below};

use ts_packets::{packets_fit, packets_laid_end_to_end};
use ts_sections::{
    crc_behind_its_message, packets_in_one_run, pieces_behind_their_marks, section_before_stuffing,
};

/// A section that is written has the length of its body and twelve bytes more, and is intact; where its table_id isn't
/// that of stuffing, a reader finds it as one section.
pub fn law_of_written_sections()
    ensures size { (head : SectionHead) (body : List ℕ)
        → length (section_bytes head body) ≡ length body + 12 }
    ensures intact { (head : SectionHead) (body : List ℕ)
        → length body ≤ 4084 → IsIntact (section_bytes head body) }
    ensures one { (head : SectionHead) (body : List ℕ) → head.table_id ≢ 0xFF
        → length body ≤ 4084 → IsSection (section_bytes head body) }
{
    laws_below();
}

/// The packets of some sections on one PID, laid end to end, are cut into just these packets, and the sections that they
/// carry are those sent.
pub fn law_of_written_streams()
    ensures packets { (pid : ℕ) (sent : List (List ℕ))
        → packets_of (stream_bytes pid sent) ≡ stream_packets pid sent }
    ensures sections { (pid : ℕ) (sent : List (List ℕ)) → pid < 8192 → All IsSection sent
        → sections_on pid (stream_bytes pid sent) ≡ sent }
{
    laws_below();
}

/// No bytes carry no section on any PID. Where bytes carry some sections on a PID, a reader of this PID gets just these,
/// whatever the bytes carry on others.
pub fn law_of_carried_sections()
    ensures none { (pid : ℕ) → Carries [] pid 0 [] }
    ensures read { (bytes : List ℕ) (pid counter : ℕ) (sent : List (List ℕ)) → pid < 8192
        → All IsSection sent → Carries bytes pid counter sent → sections_on pid bytes ≡ sent }
{
    laws_below();
}

/// The laws of the crates below, as one.
pub fn laws_below()
    ensures { Below }
{
    packets_fit();
    packets_laid_end_to_end();
    packets_in_one_run();
    pieces_behind_their_marks();
    section_before_stuffing();
    crc_behind_its_message();
}
