//! Expressions read token by token.

ghost use Rattle.std.specs.Prelude.{◌≡◌, Some, true, IfOk};
ghost use Rattle.es_expressions.specs.Machine.{Opening, State, finish as spec_finish};
ghost use Rattle.es_expressions.specs.Standings.{FrameStands, MayStand, is_empty_call, emptied_by};
ghost use Rattle.es_expressions.specs.Standings.{Grows, Begins, Empties, Moves, PlaceStands};
ghost use Rattle.es_expressions.specs.Standings.{IsFoundAs, held};

use crate::closing::settle;
use crate::expressions::Found;
use crate::forms::{call_empty, creation_empty, leaf, member};
use crate::frames::{Frame, Frames};
use crate::joining::{join, open};
use crate::lexemes::Lexeme;
use crate::nodes::Nodes;
use crate::operands::Operand;
use crate::places::{Place, Step};
use crate::roles::{Front, front_of, joint_of};
use bml_bytes::NoMemory;

/// A token where an operand is to come.
fn begin(frames: &mut Frames, base: u8, token: &Lexeme, nodes: &mut Nodes) -> Result<Step, NoMemory>
    ensures grows { IfOk result (λ _. Grows nodes.old nodes.new) }
    ensures begins { IfOk result (λ step. Begins base token.now
        (held nodes.old frames.old) (held nodes.new frames.new) step) }
{
    match front_of(&token.symbol) {
        Front::Whole => {
            let whole = leaf(token, nodes)?;
            Ok(Step::Taken(Place::Behind(whole)))
        }
        Front::Group => open(frames, Frame::Group(token.start)),
        Front::Creation => open(frames, Frame::New(token.start)),
        Front::Sign => {
            if !frames.is_within(base, 14) {
                return Ok(Step::Left(Place::Before));
            }
            open(frames, Frame::Signed(token.start, token.symbol.share()?))
        }
        Front::Step => {
            if !frames.is_within(base, 14) {
                return Ok(Step::Left(Place::Before));
            }
            open(frames, Frame::Stepped(token.start, token.symbol.share()?))
        }
        Front::Nothing => end_empty(frames, token, nodes),
    }
}

// A `)` where no argument came.
fn end_empty(frames: &mut Frames, token: &Lexeme, nodes: &mut Nodes) -> Result<Step, NoMemory>
    ensures grows { IfOk result (λ _. Grows nodes.old nodes.new) }
    ensures empties { IfOk result (λ step. Empties token.now
        (held nodes.old frames.old) (held nodes.new frames.new) step) }
{
    if !joint_of(token).is_close() {
        return Ok(Step::Left(Place::Before));
    }
    let Some(frame) = frames.pop() else {
        return Ok(Step::Left(Place::Before));
    };
    if !frame.is_empty_call() {
        frames.push(frame)?;
        return Ok(Step::Left(Place::Before));
    }
    let whole = emptied(frame, token, nodes)?;
    Ok(Step::Taken(Place::Behind(whole)))
}

// A call, or a `new`, with no argument.
fn emptied(frame: Frame, close: &Lexeme, nodes: &mut Nodes) -> Result<Operand, NoMemory>
    requires { is_empty_call frame ≡ true }
    ensures grows { IfOk result (λ _. Grows nodes.old nodes.new) }
    ensures emptied { IfOk result (λ whole. (f : Opening) → FrameStands frame nodes.old f
        → MayStand nodes.new (Some whole) (emptied_by close.now f)) }
{
    match frame {
        Frame::Call(callee) => call_empty(callee, close, nodes),
        Frame::NewCall(start, callee) => creation_empty(start, callee, close, nodes),
        _ => unreachable!(),
    }
}

/// A token where the reader stands.
pub fn take(
    frames: &mut Frames,
    base: u8,
    place: Place,
    token: &Lexeme,
    nodes: &mut Nodes,
) -> Result<Step, NoMemory>
    ensures grows { IfOk result (λ _. Grows nodes.old nodes.new) }
    ensures moves { IfOk result (λ step. Moves base place token.now
        (held nodes.old frames.old) (held nodes.new frames.new) step) }
{
    match place {
        Place::Before => begin(frames, base, token, nodes),
        Place::Behind(operand) => {
            let joint = joint_of(token);
            match settle(frames, joint.reach(), operand, nodes)? {
                Some(operand) => join(frames, base, joint, token, operand, nodes),
                None => Ok(Step::Left(Place::Before)),
            }
        }
        Place::Naming(base) => {
            if !token.symbol.is_name() {
                return Ok(Step::Left(Place::Naming(base)));
            }
            let whole = member(base, token, nodes)?;
            Ok(Step::Taken(Place::Behind(whole)))
        }
    }
}

/// What the tokens that were read are together, where they are a whole expression.
pub fn finish(
    frames: &mut Frames,
    place: Place,
    nodes: &mut Nodes,
) -> Result<Option<Found>, NoMemory>
    ensures grows { IfOk result (λ _. Grows nodes.old nodes.new) }
    ensures found { IfOk result (λ found. (s : State) → PlaceStands place nodes.old frames.old s
        → IsFoundAs nodes.new found (spec_finish s)) }
{
    let Place::Behind(operand) = place else {
        return Ok(None);
    };
    let Some(whole) = settle(frames, 0, operand, nodes)? else {
        return Ok(None);
    };
    if !frames.is_empty() {
        return Ok(None);
    }
    let is_target = whole.is_target;
    let single = whole.single(nodes)?;
    Ok(Some(Found {
        node: single.node,
        height: single.height,
        is_target,
    }))
}
