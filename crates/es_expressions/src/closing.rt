//! Open forms that end without a mark, in front of a token that doesn't go on with them.

ghost use Rattle.std.specs.Prelude.{◌≡◌, List, IfOk};
ghost use Rattle.es_expressions.specs.Phrases.{Phrase};
ghost use Rattle.es_expressions.specs.Machine.{Opening, closed as spec_closed, settled};
ghost use Rattle.es_expressions.specs.Standings.{Grows, Stands, FrameStands, AreStanding, MayStand};
ghost use Rattle.es_expressions.specs.Standings.{IsSettledAs};

use crate::forms::{assignment, binary, choice, creation, list, prefix};
use crate::frames::{Frame, Frames};
use crate::nodes::Nodes;
use crate::operands::Operand;
use bml_bytes::NoMemory;

/// The form with its last operand, and None where it can't end so: at a mark alone, or as `++` and
/// `--` in front of what is no target.
pub fn closed(
    frame: Frame,
    operand: Operand,
    nodes: &mut Nodes,
) -> Result<Option<Operand>, NoMemory>
    ensures grows { IfOk result (λ _. Grows nodes.old nodes.new) }
    ensures closed { IfOk result (λ whole. (f : Opening) (e : Phrase)
        → FrameStands frame nodes.old f → Stands nodes.old operand e
        → MayStand nodes.new whole (spec_closed f e)) }
{
    match frame {
        Frame::New(start) => {
            let whole = creation(start, operand, nodes)?;
            Ok(Some(whole))
        }
        Frame::Signed(start, symbol) => {
            let whole = prefix(start, symbol, operand, nodes)?;
            Ok(Some(whole))
        }
        Frame::Stepped(start, symbol) => {
            if !operand.is_target {
                return Ok(None);
            }
            let whole = prefix(start, symbol, operand, nodes)?;
            Ok(Some(whole))
        }
        Frame::Binary(left, symbol, strength) => {
            let whole = binary(left, symbol, strength, operand, nodes)?;
            Ok(Some(whole))
        }
        Frame::Other(test, chosen) => {
            let whole = choice(test, chosen, operand, nodes)?;
            Ok(Some(whole))
        }
        Frame::Assign(target, symbol) => {
            let whole = assignment(target, symbol, operand, nodes)?;
            Ok(Some(whole))
        }
        Frame::Comma(front) => {
            let whole = list(front, operand, nodes)?;
            Ok(Some(whole))
        }
        Frame::Group(_) | Frame::Key(_) | Frame::Call(_) => Ok(None),
        Frame::NewCall(_, _) | Frame::Chosen(_) => Ok(None),
    }
}

/// Ends the forms that end in front of a token that reaches so far. Gives the operand that they
/// make, and None where one of them can't end.
pub fn settle(
    frames: &mut Frames,
    reach: u8,
    operand: Operand,
    nodes: &mut Nodes,
) -> Result<Option<Operand>, NoMemory>
    ensures grows { IfOk result (λ _. Grows nodes.old nodes.new) }
    ensures settled { IfOk result (λ whole. (fs : List Opening) (e : Phrase)
        → AreStanding frames.old nodes.old fs → Stands nodes.old operand e
        → IsSettledAs nodes.new whole frames.new (settled fs reach e)) }
{
    let mut operand = operand;
    'forms: while let Some(frame) = frames.pop_before(reach) {
        match closed(frame, operand, nodes)? {
            Some(whole) => operand = whole,
            None => return Ok(None),
        }
    }
    Ok(Some(operand))
}
