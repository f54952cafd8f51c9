//! Writes the pieces of the output.

ghost use Rattle.bml_ports.specs.Counters.{FaultedSince};
ghost use Rattle.std.specs.Prelude.{◌≡◌, ◌≤◌, OnOk, OnErr, IfErr};
ghost use Rattle.replay_run.specs.Writing.{Grows, WritesOn, WritesShort};

use crate::status::Status;
use bml_ports::Sink;

/// Writes a piece whole, by as many writes as it takes. An empty piece takes none.
pub fn write_piece<S: Sink>(out: &mut S, piece: &[u8]) -> Result<(), Status>
    ensures whole { OnOk result
        (WritesOn (S.told out.old).written (S.told out.new).written piece.now) }
    ensures short { OnErr result
        (WritesShort (S.told out.old).written (S.told out.new).written piece.now) }
    ensures fault { IfErr result (λ status. status ≡ Status.WriteFault) }
    ensures cause { OnErr result (FaultedSince (S.told out.old).writes (S.told out.new).writes) }
    ensures writes { (S.told out.old).writes.faults ≤ (S.told out.new).writes.faults }
    ensures grows { Grows (S.told out.old).written (S.told out.new).written }
{
    let mut rest = piece;
    'writes: while !rest.is_empty() {
        match out.write(rest) {
            Ok(count) => rest = &rest[count..],
            Err(_) => return Err(Status::WriteFault),
        }
    }
    Ok(())
}
