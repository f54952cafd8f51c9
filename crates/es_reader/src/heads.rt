//! What stands before the statement that another one holds.

ghost use Rattle.std.specs.Prelude.{◌≡◌, ◌+◌, ◌≤◌, ◌<◌, ℕ, List, Option, ◌↔◌, true, IsTrue, length, IfOk, IfErr};
ghost use Rattle.es_lexer.specs.declared.words.ReservedWord.TheVariants.{For as ForWord, In, Var as VarWord};
ghost use Rattle.es_lexer.specs.declared.punctuators.Punctuator.TheVariants.{OpenParenthesis};
ghost use Rattle.es_expressions.specs.Phrases.{Phrase};
ghost use Rattle.es_reader.specs.Statements.{First, Visitor, Head};
ghost use Rattle.es_reader.specs.Grammar.{IsMark, IsWord};
ghost use Rattle.es_reader.specs.Programs.{first_names, visitor_names};
ghost use Rattle.es_reader.specs.Told.{with_names};
ghost use Rattle.es_reader.specs.Parts.{IfBad, IsThere, MayGrow, StopsIn};
ghost use Rattle.es_reader.specs.Stops.{BehindWord, HeadStops};
ghost use Rattle.es_expressions.specs.declared.expressions.Extent.TheVariants.{WithCommas};
ghost use Rattle.es_reader.specs.Heads.{IsHeadAt, IsTestWord, IsFirstAt, IsVisitorAt, IsPartAt, IsAbsentAt};

use crate::declarations::read_declarations;
use crate::faults::PartFault;
use crate::heights::higher;
use crate::marks::{expect_mark, is_mark_at, is_word_at};
use crate::names::Names;
use crate::wholes::read_whole;
use bml_bytes::NoMemory;
use es_expressions::{Extent, Form, Lexeme, Node, Nodes};
use es_lexer::{Punctuator, ReservedWord};

/// What stands before a statement that is to come: its form, the place of its first code, its
/// children so far, how deep these are nested, and the place of the token behind it.
#[derive(Drop)]
pub struct HeadRead {
    pub form: Form,
    pub start: usize,
    pub children: Vec<u32>,
    pub height: u8,
    pub behind: usize,
}

// A part of the head of a `for`: its node, how deep its nodes are nested, and the place of the
// token behind it.
#[derive(Clone, Copy)]
pub struct HeadPart {
    pub node: u32,
    pub height: u8,
    pub behind: usize,
}

/// The `if (..)` or `while (..)` at a place.
pub fn read_test(
    tokens: &[Lexeme],
    place: usize,
    form: Form,
    nodes: &mut Nodes,
) -> Result<HeadRead, PartFault>
    requires { IsThere (IsTestWord form) tokens.now place }
    ensures grows { IfOk result (λ _. MayGrow nodes.old nodes.new) }
    ensures head { IfOk result (λ read. (names : List (List ℕ))
        → (h : Head) × IsHeadAt tokens.now place nodes.new h names names read) }
    ensures bad { IfErr result (λ fault. IfBad fault
        (BehindWord (IsTestWord form) (λ _. HeadStops) tokens.now place)) }
{
    expect_mark(tokens, place + 1, Punctuator::OpenParenthesis)?;
    let inside = place + 2;
    let test = read_whole(tokens, inside, Extent::WithCommas, nodes)?;
    expect_mark(tokens, test.behind, Punctuator::CloseParenthesis)?;
    Ok(HeadRead {
        form,
        start: tokens[place].start,
        children: vec![in nodes.alloc(); test.node]?,
        height: test.height,
        behind: test.behind + 1,
    })
}

/// The `for (..)` at a place.
pub fn read_for(
    tokens: &[Lexeme],
    place: usize,
    nodes: &mut Nodes,
    names: &mut Names,
) -> Result<HeadRead, PartFault>
    requires { IsThere (IsWord ForWord) tokens.now place }
    ensures grows { IfOk result (λ _. MayGrow nodes.old nodes.new) }
    ensures head { IfOk result (λ read. (h : Head)
        × IsHeadAt tokens.now place nodes.new h names.old names.new read) }
    ensures bad { IfErr result (λ fault. IfBad fault
        (BehindWord (IsWord ForWord) (λ _. HeadStops) tokens.now place)) }
{
    expect_mark(tokens, place + 1, Punctuator::OpenParenthesis)?;
    let inside = place + 2;
    if is_word_at(tokens, inside, ReservedWord::Var) {
        return read_for_var(tokens, place, nodes, names);
    }
    if is_mark_at(tokens, inside, Punctuator::Semicolon) {
        let first = absent(tokens, inside, nodes)?;
        return read_for_parts(tokens, place, first, nodes);
    }
    let first = read_whole(tokens, inside, Extent::WithCommas, nodes)?;
    let part = HeadPart {
        node: first.node,
        height: first.height,
        behind: first.behind,
    };
    if is_in_behind(tokens, first.behind, first.is_target) {
        return read_for_in(tokens, place, part, nodes);
    }
    read_for_parts(tokens, place, part, nodes)
}

// One that begins with a `var`.
fn read_for_var(
    tokens: &[Lexeme],
    place: usize,
    nodes: &mut Nodes,
    names: &mut Names,
) -> Result<HeadRead, PartFault>
    requires word { IsThere (IsWord ForWord) tokens.now place }
    requires open { IsThere (IsMark OpenParenthesis) tokens.now (place + 1) }
    requires var { IsThere (IsWord VarWord) tokens.now (place + 2) }
    ensures grows { IfOk result (λ _. MayGrow nodes.old nodes.new) }
    ensures head { IfOk result (λ read. (h : Head)
        × IsHeadAt tokens.now place nodes.new h names.old names.new read) }
    ensures bad { IfErr result (λ fault. IfBad fault
        (BehindWord (IsWord ForWord) (λ _. HeadStops) tokens.now place)) }
{
    let declared = read_declarations(tokens, place + 3, nodes, names)?;
    let node = Node {
        form: Form::Var,
        start: tokens[place + 2].start,
        end: declared.end,
        symbol: None,
    };
    let node = nodes.push(node, declared.nodes)?;
    let part = HeadPart {
        node,
        height: declared.height,
        behind: declared.behind,
    };
    if is_in_behind(tokens, part.behind, declared.is_bare) {
        return read_for_in(tokens, place, part, nodes);
    }
    read_for_parts(tokens, place, part, nodes)
}

// What stands behind the first part of a `for` over parts.
fn read_for_parts(
    tokens: &[Lexeme],
    place: usize,
    first: HeadPart,
    nodes: &mut Nodes,
) -> Result<HeadRead, PartFault>
    requires word { IsThere (IsWord ForWord) tokens.now place }
    requires open { IsThere (IsMark OpenParenthesis) tokens.now (place + 1) }
    requires first { (f : First) × IsFirstAt tokens.now (place + 2) nodes.old f first }
    ensures grows { IfOk result (λ _. MayGrow nodes.old nodes.new) }
    ensures head { IfOk result (λ read. (f : First) (before after : List (List ℕ))
        → IsFirstAt tokens.now (place + 2) nodes.old f first
        → after ≡ with_names before (first_names f)
        → (h : Head) × IsHeadAt tokens.now place nodes.new h before after read) }
    ensures bad { IfErr result (λ fault. IfBad fault
        (BehindWord (IsWord ForWord) (λ _. HeadStops) tokens.now place)) }
{
    expect_mark(tokens, first.behind, Punctuator::Semicolon)?;
    let test = read_part(tokens, first.behind + 1, Punctuator::Semicolon, nodes)?;
    expect_mark(tokens, test.behind, Punctuator::Semicolon)?;
    let step = read_part(tokens, test.behind + 1, Punctuator::CloseParenthesis, nodes)?;
    expect_mark(tokens, step.behind, Punctuator::CloseParenthesis)?;
    Ok(HeadRead {
        form: Form::For,
        start: tokens[place].start,
        children: vec![in nodes.alloc(); first.node, test.node, step.node]?,
        height: higher(first.height, higher(test.height, step.height)),
        behind: step.behind + 1,
    })
}

// What stands behind the first part of a `for` over an object's names.
fn read_for_in(
    tokens: &[Lexeme],
    place: usize,
    visitor: HeadPart,
    nodes: &mut Nodes,
) -> Result<HeadRead, PartFault>
    requires word { IsThere (IsWord ForWord) tokens.now place }
    requires open { IsThere (IsMark OpenParenthesis) tokens.now (place + 1) }
    requires visitor { (v : Visitor) × IsVisitorAt tokens.now (place + 2) nodes.old v visitor }
    requires in_word { IsThere (IsWord In) tokens.now visitor.behind }
    ensures grows { IfOk result (λ _. MayGrow nodes.old nodes.new) }
    ensures head { IfOk result (λ read. (v : Visitor) (before after : List (List ℕ))
        → IsVisitorAt tokens.now (place + 2) nodes.old v visitor
        → after ≡ with_names before (visitor_names v)
        → (h : Head) × IsHeadAt tokens.now place nodes.new h before after read) }
    ensures bad { IfErr result (λ fault. IfBad fault
        (BehindWord (IsWord ForWord) (λ _. HeadStops) tokens.now place)) }
{
    let object = read_whole(tokens, visitor.behind + 1, Extent::WithCommas, nodes)?;
    expect_mark(tokens, object.behind, Punctuator::CloseParenthesis)?;
    Ok(HeadRead {
        form: Form::ForIn,
        start: tokens[place].start,
        children: vec![in nodes.alloc(); visitor.node, object.node]?,
        height: higher(visitor.height, object.height),
        behind: object.behind + 1,
    })
}

// A part that ends with a mark, or the node that stands for none.
fn read_part(
    tokens: &[Lexeme],
    place: usize,
    mark: Punctuator,
    nodes: &mut Nodes,
) -> Result<HeadPart, PartFault>
    requires { place ≤ length tokens.now }
    ensures grows { IfOk result (λ _. MayGrow nodes.old nodes.new) }
    ensures part { IfOk result (λ part. (e : Option Phrase)
        × IsPartAt mark tokens.now place nodes.new e part) }
    ensures bad { IfErr result (λ fault. IfBad fault (λ bad.
        StopsIn WithCommas tokens.now place bad
        × (IsThere (IsMark mark) tokens.now place → ⊥))) }
{
    if is_mark_at(tokens, place, mark) {
        return Ok(absent(tokens, place, nodes)?);
    }
    let whole = read_whole(tokens, place, Extent::WithCommas, nodes)?;
    Ok(HeadPart {
        node: whole.node,
        height: whole.height,
        behind: whole.behind,
    })
}

// The node of an absent part, in front of the token at the place.
fn absent(tokens: &[Lexeme], place: usize, nodes: &mut Nodes) -> Result<HeadPart, NoMemory>
    requires { place < length tokens.now }
    ensures grows { IfOk result (λ _. MayGrow nodes.old nodes.new) }
    ensures absent { IfOk result (IsAbsentAt tokens.now place nodes.new) }
{
    let start = tokens[place].start;
    let node = Node {
        form: Form::Empty,
        start,
        end: start,
        symbol: None,
    };
    let node = nodes.push(node, Vec::new(nodes.alloc()))?;
    Ok(HeadPart {
        node,
        height: 1,
        behind: place,
    })
}

// Whether `in` stands at the place, behind what may stand in front of it.
fn is_in_behind(tokens: &[Lexeme], place: usize, may_be: bool) -> bool
    ensures { IsTrue result ↔ ((may_be ≡ true) × IsThere (IsWord In) tokens.now place) }
{
    if may_be {
        is_word_at(tokens, place, ReservedWord::In)
    } else {
        false
    }
}
