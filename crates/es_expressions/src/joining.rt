//! Tokens behind an operand.

ghost use Rattle.std.specs.Prelude.{◌≡◌, ◌∷◌, ℕ, List, Some, true, IfOk};
ghost use Rattle.es_expressions.specs.Nodes.{NodeRow};
ghost use Rattle.es_expressions.specs.declared.lexemes.Lexeme.{Lexeme};
ghost use Rattle.es_expressions.specs.declared.frames.Frame.{Frame};
ghost use Rattle.es_expressions.specs.Phrases.{Phrase};
ghost use Rattle.es_expressions.specs.Machine.{Opening};
ghost use Rattle.es_expressions.specs.Standings.{Grows, Stands, FrameStands, MayStand, Joins};
ghost use Rattle.es_expressions.specs.Standings.{held, is_closing, is_key, completed_by, indexed_by};

use crate::forms::{call_with, creation_with, group, index, postfix};
use crate::frames::{Frame, Frames};
use crate::lexemes::Lexeme;
use crate::nodes::Nodes;
use crate::operands::Operand;
use crate::places::{Place, Step};
use crate::roles::Joint;
use bml_bytes::NoMemory;

/// The token behind an operand, where no form round it ends before.
pub fn join(
    frames: &mut Frames,
    base: u8,
    joint: Joint,
    token: &Lexeme,
    operand: Operand,
    nodes: &mut Nodes,
) -> Result<Step, NoMemory>
    ensures grows { IfOk result (λ _. Grows nodes.old nodes.new) }
    ensures joins { IfOk result (λ step. Joins base joint token.now operand
        (held nodes.old frames.old) (held nodes.new frames.new) step) }
{
    match joint {
        Joint::Dot => dot(operand, nodes),
        Joint::Key => key(frames, operand, nodes),
        Joint::Call => call(frames, operand, nodes),
        Joint::Step => step(token, operand, nodes),
        Joint::Operator(strength) => operator(frames, strength, token, operand, nodes),
        Joint::Choice => question(frames, operand, nodes),
        Joint::Assignment => assign(frames, token, operand, nodes),
        Joint::Comma => comma(frames, base, operand),
        Joint::Close => close(frames, token, operand, nodes),
        Joint::KeyEnd => end_key(frames, token, operand, nodes),
        Joint::Colon => colon(frames, operand, nodes),
        Joint::Nothing => Ok(Step::Left(Place::Behind(operand))),
    }
}

// A form is open, and its operand is to come.
pub fn open(frames: &mut Frames, frame: Frame) -> Result<Step, NoMemory>
    ensures place { IfOk result (λ step. step ≡ Step.Taken Place.Before) }
    ensures opened { IfOk result (λ _. frames.new ≡ frame ∷ frames.old) }
{
    frames.push(frame)?;
    Ok(Step::Taken(Place::Before))
}

fn dot(operand: Operand, nodes: &mut Nodes) -> Result<Step, NoMemory>
    ensures grows { IfOk result (λ _. Grows nodes.old nodes.new) }
    ensures joins { IfOk result (λ step. (base : ℕ) (t : Lexeme) (xs : List Frame) →
        Joins base Joint.Dot t operand (held nodes.old xs) (held nodes.new xs) step) }
{
    if !operand.takes_links() {
        return Ok(Step::Left(Place::Behind(operand)));
    }
    let base = operand.single(nodes)?;
    Ok(Step::Taken(Place::Naming(base)))
}

fn key(frames: &mut Frames, operand: Operand, nodes: &mut Nodes) -> Result<Step, NoMemory>
    ensures grows { IfOk result (λ _. Grows nodes.old nodes.new) }
    ensures joins { IfOk result (λ step. (base : ℕ) (t : Lexeme) →
        Joins base Joint.Key t operand
        (held nodes.old frames.old) (held nodes.new frames.new) step) }
{
    if !operand.takes_links() {
        return Ok(Step::Left(Place::Behind(operand)));
    }
    let base = operand.single(nodes)?;
    open(frames, Frame::Key(base))
}

fn call(frames: &mut Frames, operand: Operand, nodes: &mut Nodes) -> Result<Step, NoMemory>
    ensures grows { IfOk result (λ _. Grows nodes.old nodes.new) }
    ensures joins { IfOk result (λ step. (base : ℕ) (t : Lexeme) →
        Joins base Joint.Call t operand
        (held nodes.old frames.old) (held nodes.new frames.new) step) }
{
    if !operand.takes_links() {
        return Ok(Step::Left(Place::Behind(operand)));
    }
    let callee = operand.single(nodes)?;
    let Some(frame) = frames.pop() else {
        return open(frames, Frame::Call(callee));
    };
    match frame {
        Frame::New(start) => open(frames, Frame::NewCall(start, callee)),
        other => {
            frames.push(other)?;
            open(frames, Frame::Call(callee))
        }
    }
}

fn step(token: &Lexeme, operand: Operand, nodes: &mut Nodes) -> Result<Step, NoMemory>
    ensures grows { IfOk result (λ _. Grows nodes.old nodes.new) }
    ensures joins { IfOk result (λ step. (base : ℕ) (xs : List Frame) →
        Joins base Joint.Step token.now operand (held nodes.old xs) (held nodes.new xs) step) }
{
    if !operand.is_target {
        return Ok(Step::Left(Place::Behind(operand)));
    }
    let whole = postfix(operand, token, nodes)?;
    Ok(Step::Taken(Place::Behind(whole)))
}

fn operator(
    frames: &mut Frames,
    strength: u8,
    token: &Lexeme,
    operand: Operand,
    nodes: &mut Nodes,
) -> Result<Step, NoMemory>
    ensures grows { IfOk result (λ _. Grows nodes.old nodes.new) }
    ensures joins { IfOk result (λ step. (base : ℕ) →
        Joins base (Joint.Operator strength) token.now operand
        (held nodes.old frames.old) (held nodes.new frames.new) step) }
{
    if operand.level < strength {
        return Ok(Step::Left(Place::Behind(operand)));
    }
    let left = operand.single(nodes)?;
    open(frames, Frame::Binary(left, token.symbol.share()?, strength))
}

fn question(frames: &mut Frames, operand: Operand, nodes: &mut Nodes) -> Result<Step, NoMemory>
    ensures grows { IfOk result (λ _. Grows nodes.old nodes.new) }
    ensures joins { IfOk result (λ step. (base : ℕ) (t : Lexeme) →
        Joins base Joint.Choice t operand
        (held nodes.old frames.old) (held nodes.new frames.new) step) }
{
    if operand.level < 4 {
        return Ok(Step::Left(Place::Behind(operand)));
    }
    let test = operand.single(nodes)?;
    open(frames, Frame::Chosen(test))
}

fn assign(
    frames: &mut Frames,
    token: &Lexeme,
    operand: Operand,
    nodes: &mut Nodes,
) -> Result<Step, NoMemory>
    ensures grows { IfOk result (λ _. Grows nodes.old nodes.new) }
    ensures joins { IfOk result (λ step. (base : ℕ) →
        Joins base Joint.Assignment token.now operand
        (held nodes.old frames.old) (held nodes.new frames.new) step) }
{
    if !operand.is_target {
        return Ok(Step::Left(Place::Behind(operand)));
    }
    let target = operand.single(nodes)?;
    open(frames, Frame::Assign(target, token.symbol.share()?))
}

fn comma(frames: &mut Frames, base: u8, operand: Operand) -> Result<Step, NoMemory>
    ensures joins { IfOk result (λ step. (t : Lexeme) (rows : List NodeRow) →
        Joins base Joint.Comma t operand (held rows frames.old) (held rows frames.new) step) }
{
    if !frames.is_within(base, 1) {
        return Ok(Step::Left(Place::Behind(operand)));
    }
    open(frames, Frame::Comma(operand))
}

fn close(
    frames: &mut Frames,
    token: &Lexeme,
    operand: Operand,
    nodes: &mut Nodes,
) -> Result<Step, NoMemory>
    ensures grows { IfOk result (λ _. Grows nodes.old nodes.new) }
    ensures joins { IfOk result (λ step. (base : ℕ) →
        Joins base Joint.Close token.now operand
        (held nodes.old frames.old) (held nodes.new frames.new) step) }
{
    let Some(frame) = frames.pop() else {
        return Ok(Step::Left(Place::Behind(operand)));
    };
    if !frame.is_closing() {
        frames.push(frame)?;
        return Ok(Step::Left(Place::Behind(operand)));
    }
    let whole = completed(frame, operand, token, nodes)?;
    Ok(Step::Taken(Place::Behind(whole)))
}

// A form that a `)` ends, with what stands before the `)`.
fn completed(
    frame: Frame,
    operand: Operand,
    close: &Lexeme,
    nodes: &mut Nodes,
) -> Result<Operand, NoMemory>
    requires { is_closing frame ≡ true }
    ensures grows { IfOk result (λ _. Grows nodes.old nodes.new) }
    ensures completed { IfOk result (λ whole. (f : Opening) (e : Phrase)
        → FrameStands frame nodes.old f → Stands nodes.old operand e
        → MayStand nodes.new (Some whole) (completed_by close.now f e)) }
{
    match frame {
        Frame::Group(start) => group(start, operand, close, nodes),
        Frame::Call(callee) => call_with(callee, operand, close, nodes),
        Frame::NewCall(start, callee) => creation_with(start, callee, operand, close, nodes),
        _ => unreachable!(),
    }
}

fn end_key(
    frames: &mut Frames,
    token: &Lexeme,
    operand: Operand,
    nodes: &mut Nodes,
) -> Result<Step, NoMemory>
    ensures grows { IfOk result (λ _. Grows nodes.old nodes.new) }
    ensures joins { IfOk result (λ step. (base : ℕ) →
        Joins base Joint.KeyEnd token.now operand
        (held nodes.old frames.old) (held nodes.new frames.new) step) }
{
    let Some(frame) = frames.pop() else {
        return Ok(Step::Left(Place::Behind(operand)));
    };
    if !frame.is_key() {
        frames.push(frame)?;
        return Ok(Step::Left(Place::Behind(operand)));
    }
    let whole = indexed(frame, operand, token, nodes)?;
    Ok(Step::Taken(Place::Behind(whole)))
}

// `b[`, with the key and the `]`.
fn indexed(
    frame: Frame,
    operand: Operand,
    close: &Lexeme,
    nodes: &mut Nodes,
) -> Result<Operand, NoMemory>
    requires { is_key frame ≡ true }
    ensures grows { IfOk result (λ _. Grows nodes.old nodes.new) }
    ensures indexed { IfOk result (λ whole. (f : Opening) (e : Phrase)
        → FrameStands frame nodes.old f → Stands nodes.old operand e
        → MayStand nodes.new (Some whole) (indexed_by close.now f e)) }
{
    match frame {
        Frame::Key(base) => index(base, operand, close, nodes),
        _ => unreachable!(),
    }
}

fn colon(frames: &mut Frames, operand: Operand, nodes: &mut Nodes) -> Result<Step, NoMemory>
    ensures grows { IfOk result (λ _. Grows nodes.old nodes.new) }
    ensures joins { IfOk result (λ step. (base : ℕ) (t : Lexeme) →
        Joins base Joint.Colon t operand
        (held nodes.old frames.old) (held nodes.new frames.new) step) }
{
    let Some(frame) = frames.pop() else {
        return Ok(Step::Left(Place::Behind(operand)));
    };
    match frame {
        Frame::Chosen(test) => {
            let chosen = operand.single(nodes)?;
            open(frames, Frame::Other(test, chosen))
        }
        other => {
            frames.push(other)?;
            Ok(Step::Left(Place::Behind(operand)))
        }
    }
}
