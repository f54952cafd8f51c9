//! Sections in packets of their own.

ghost use Rattle.std.specs.Prelude.{◌≡◌, ◌≢◌, ◌<◌, ◌≤◌, ◌∷◌, ◌++◌, ◌+◌, ◌%◌, ◌/◌, ℕ, List, [], length, OnOk, IfOk, true};
ghost use Rattle.std.specs.Io.{StartsWith};
ghost use Rattle.ts_packets.specs.Packets.{packets_of};
ghost use Rattle.section_writer.specs.Packets.{cut_contents, laid, packet_bytes, packet_count, packets_from, section_contents, stuffed};
ghost use Rattle.section_writer.specs.Received.{Carries, IsCutWhole, IsStreamOf};
ghost use Rattle.section_writer.specs.devices.Appending.{Appends};

use crate::laws::laws_below;
use bml_bytes::NoMemory;
use std::alloc::Global;

/// The bytes of a packet's payload.
const PAYLOAD_LENGTH: usize = 184;

/// Appends a section in packets of its own on a PID, and tells the counter with which this PID goes on (ISO/IEC 13818-1,
/// 2.4.3.3 and 2.4.4.1). Bytes that are packets of these sections stay packets, of these sections and this one behind
/// them; and other PIDs carry what they did. After `NoMemory` what `out` held may be followed by a beginning of the
/// packets.
pub fn push_section(
    alloc: Global,
    out: &mut Vec<u8>,
    pid: u16,
    counter: u8,
    section: &[u8],
) -> Result<u8, NoMemory>
    requires pid { pid < 8192 }
    requires counter { counter < 16 }
    requires short { length section.now ≤ 4096 }
    ensures bytes { IfOk result (λ _. out.new.items
        ≡ out.old.items ++ laid (packets_from pid counter (section_contents section.now))) }
    ensures next { IfOk result (λ next. next ≡ (counter + packet_count section.now) % 16) }
    ensures small { IfOk result (λ next. next < 16) }
    ensures alone { IfOk result (λ next. (sent : List (List ℕ))
        → IsStreamOf out.old.items pid counter sent
        → IsStreamOf out.new.items pid next (sent ++ section.now ∷ [])) }
    ensures carried { IfOk result (λ next. (sent : List (List ℕ))
        → Carries out.old.items pid counter sent
        → Carries out.new.items pid next (sent ++ section.now ∷ [])) }
    ensures others { IfOk result (λ _. (other behind : ℕ) (sent : List (List ℕ)) → other ≢ pid
        → Carries out.old.items other behind sent → Carries out.new.items other behind sent) }
    ensures grows { StartsWith out.new.items out.old.items }
{
    laws_below();
    let next = push_contents(alloc, out, pid, counter, section)?;
    Ok(next)
}

/// Appends the packets that carry a section.
fn push_contents(
    alloc: Global,
    out: &mut Vec<u8>,
    pid: u16,
    counter: u8,
    section: &[u8],
) -> Result<u8, NoMemory>
    requires pid { pid < 8192 }
    requires counter { counter < 16 }
    requires short { length section.now ≤ 4096 }
    ensures appended { IfOk result (λ next.
        Appends out.old.items out.new.items pid counter (section_contents section.now) next) }
    ensures grows { StartsWith out.new.items out.old.items }
{
    let payloads = payloads_of(alloc, section)?;
    push_payloads(out, pid, counter, payloads.as_slice())
}

/// The section behind its pointer_field, with 0xFF behind it up to the end of its last packet.
fn payloads_of(alloc: Global, section: &[u8]) -> Result<Vec<u8>, NoMemory>
    requires short { length section.now ≤ 4096 }
    ensures { IfOk result (λ payloads. payloads.items ≡ 0 ∷ stuffed section.now) }
{
    let mut payloads = Vec::new(alloc);
    payloads.push(0)?;
    payloads.extend_from_slice(section)?;
    let count = (section.len() + PAYLOAD_LENGTH) / PAYLOAD_LENGTH;
    payloads.resize(count * PAYLOAD_LENGTH, 0xFF)?;
    Ok(payloads)
}

/// Appends packets with these payloads. A unit starts in the first.
fn push_payloads(out: &mut Vec<u8>, pid: u16, counter: u8, payloads: &[u8]) -> Result<u8, NoMemory>
    requires pid { pid < 8192 }
    requires counter { counter < 16 }
    requires whole { length payloads.now % 184 ≡ 0 }
    ensures appended { IfOk result (λ next. Appends out.old.items out.new.items pid counter
        (cut_contents true (length payloads.now / 184) payloads.now) next) }
    ensures grows { StartsWith out.new.items out.old.items }
{
    let mut next = counter;
    let mut starts = true;
    let mut rest = payloads;
    'payloads: while let Some((payload, behind)) = rest.split_at_checked(PAYLOAD_LENGTH) {
        append_packet(out, pid, next, starts, payload)?;
        next = (next + 1) % 16;
        starts = false;
        rest = behind;
    }
    Ok(next)
}

/// Appends a packet with this payload, in which a unit may start; then the payload begins with a pointer_field (ISO/IEC
/// 13818-1, 2.4.3.2 and 2.4.4.1). It has no adaptation field and isn't scrambled. Behind packets without rest it is one
/// more. After `NoMemory` what `out` held may be followed by a beginning of the packet.
pub fn push_packet(
    out: &mut Vec<u8>,
    pid: u16,
    counter: u8,
    starts: bool,
    payload: &[u8],
) -> Result<(), NoMemory>
    requires pid { pid < 8192 }
    requires counter { counter < 16 }
    requires size { length payload.now ≡ 184 }
    ensures bytes { OnOk result (out.new.items ≡ out.old.items
        ++ packet_bytes pid counter (record { starts = starts; payload = payload.now })) }
    ensures cut { OnOk result (IsCutWhole out.old.items
        → packets_of out.new.items ≡ packets_of out.old.items
        ++ packet_bytes pid counter (record { starts = starts; payload = payload.now }) ∷ []) }
    ensures grows { StartsWith out.new.items out.old.items }
{
    laws_below();
    append_packet(out, pid, counter, starts, payload)?;
    Ok(())
}

/// Appends the header and the payload.
fn append_packet(
    out: &mut Vec<u8>,
    pid: u16,
    counter: u8,
    starts: bool,
    payload: &[u8],
) -> Result<(), NoMemory>
    requires pid { pid < 8192 }
    requires counter { counter < 16 }
    ensures bytes { OnOk result (out.new.items ≡ out.old.items
        ++ packet_bytes pid counter (record { starts = starts; payload = payload.now })) }
    ensures grows { StartsWith out.new.items out.old.items }
{
    let start = if starts { 0x40 } else { 0x00 };
    let [high, low] = pid.to_be_bytes();
    out.extend_from_slice(&[0x47, start + high, low, 0x10 + counter])?;
    out.extend_from_slice(payload)?;
    Ok(())
}
