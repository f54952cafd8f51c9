//! Whole expressions in a program, and the ends of statements.

ghost use Rattle.std.specs.Prelude.{◌≤◌, length, IfOk, IfErr, IfSome, IfNone};
ghost use Rattle.es_expressions.specs.Phrases.{Phrase};
ghost use Rattle.es_expressions.specs.Beginnings.{least};
ghost use Rattle.es_reader.specs.Parts.{IfBad, MayGrow, IsWholeAt, StopsIn, IsEndAt, IsReturnEndAt, NoEnd, NoReturnEnd};

use crate::faults::PartFault;
use crate::marks::{is_mark, token_at};
use es_expressions::{Extent, Lexeme, Nodes, Reading, read_expression};
use es_lexer::Punctuator;

/// A whole expression: its node, how deep its nodes are nested, whether it is a target, the places
/// of its codes in the text, and the place of the token behind it.
#[derive(Clone, Copy)]
pub struct Whole {
    pub node: u32,
    pub height: u8,
    pub is_target: bool,
    pub start: usize,
    pub end: usize,
    pub behind: usize,
}

/// The end of a statement: the place behind its last code, and the place of the token behind it.
#[derive(Clone, Copy)]
pub struct Ended {
    pub end: usize,
    pub behind: usize,
}

/// The expression at a place, read as long as it can be. Where it isn't whole then, nothing goes on
/// with the token at which it ends.
pub fn read_whole(
    tokens: &[Lexeme],
    place: usize,
    extent: Extent,
    nodes: &mut Nodes,
) -> Result<Whole, PartFault>
    requires { place ≤ length tokens.now }
    ensures grows { IfOk result (λ _. MayGrow nodes.old nodes.new) }
    ensures whole { IfOk result (λ whole. (e : Phrase)
        × IsWholeAt extent tokens.now place nodes.new e whole) }
    ensures stops { IfErr result (λ fault. IfBad fault (StopsIn extent tokens.now place)) }
{
    let Reading { end: behind, found } = read_expression(tokens, place, extent, nodes)?;
    match found {
        Some(found) => Ok(Whole {
            node: found.node,
            height: found.height,
            is_target: found.is_target,
            start: tokens[place].start,
            end: tokens[behind - 1].end,
            behind,
        }),
        None => Err(PartFault::Bad(behind)),
    }
}

/// The end of a statement whose other codes end at `end`: a `;`, or nothing where a `}`, a token
/// behind a line break or none follows.
pub fn read_end(tokens: &[Lexeme], place: usize, end: usize) -> Result<Ended, PartFault>
    requires { place ≤ length tokens.now }
    ensures ended { IfOk result (IsEndAt tokens.now place end) }
    ensures bad { IfErr result (NoEnd tokens.now place) }
{
    let Some(token) = token_at(tokens, place) else {
        return Ok(Ended { end, behind: place });
    };
    if is_mark(token, Punctuator::Semicolon) {
        return Ok(Ended {
            end: token.end,
            behind: place + 1,
        });
    }
    if token.after_break || is_mark(token, Punctuator::CloseBrace) {
        return Ok(Ended { end, behind: place });
    }
    Err(PartFault::Bad(place))
}

/// The end of a `return` without a value, where one stands there: a line break ends it also in
/// front of a `;`.
pub fn return_end(tokens: &[Lexeme], place: usize, end: usize) -> Option<Ended>
    requires { place ≤ length tokens.now }
    ensures ended { IfSome result (IsReturnEndAt tokens.now place end) }
    ensures none { IfNone result (NoReturnEnd tokens.now place) }
{
    let Some(token) = token_at(tokens, place) else {
        return Some(Ended { end, behind: place });
    };
    if token.after_break || is_mark(token, Punctuator::CloseBrace) {
        return Some(Ended { end, behind: place });
    }
    if is_mark(token, Punctuator::Semicolon) {
        return Some(Ended {
            end: token.end,
            behind: place + 1,
        });
    }
    None
}
