//! Expressions among tokens.

ghost use Rattle.std.specs.Prelude.{◌≡◌, ◌≤◌, [], length, IfOk};
ghost use Rattle.es_expressions.specs.Beginnings.{IsReading, least as spec_least};
ghost use Rattle.es_expressions.specs.Standings.{Grows, held};
ghost use Rattle.es_expressions.specs.Stops.{StopsAt};

use crate::frames::Frames;
use crate::lexemes::Lexeme;
use crate::nodes::Nodes;
use crate::places::{Place, Step};
use crate::reader::{finish, take};
use bml_bytes::NoMemory;

/// Whether a list with commas is read as one expression, or only what stands before the first
/// comma.
#[derive(Clone, Copy, Debug, PartialEq, Eq)]
pub enum Extent {
    /// An `Expression`.
    WithCommas,
    /// An `AssignmentExpression`.
    WithoutCommas,
}

/// What was read is a whole expression: the number of its node, how deep its nodes are nested,
/// where more than 64 levels count as 65, and whether it is a name or a member that isn't in
/// parentheses.
#[derive(Clone, Copy, Debug)]
pub struct Found {
    pub node: u32,
    pub height: u8,
    pub is_target: bool,
}

/// The place of the first token that wasn't read, and what the tokens before it are together, where
/// they are a whole expression.
#[derive(Clone, Copy, Debug)]
pub struct Reading {
    pub end: usize,
    pub found: Option<Found>,
}

impl Extent {
    // The least level of what is read.
    fn least(self) -> u8
        ensures { result ≡ spec_least self }
    {
        match self {
            Extent::WithCommas => 1,
            Extent::WithoutCommas => 2,
        }
    }
}

// Where the reader stopped, and where it stands there.
#[derive(Drop)]
pub struct Stop {
    pub end: usize,
    pub place: Place,
}

/// Reads an expression from a place among tokens on, as long as it can be: each token that is read
/// is one with which some expression goes on, and with the token at which it ends none does. Where
/// it succeeds, its nodes are added behind the others, which stay as they were. Where it finds no
/// memory, the nodes are spent: they may be any.
pub fn read_expression(
    tokens: &[Lexeme],
    start: usize,
    extent: Extent,
    nodes: &mut Nodes,
) -> Result<Reading, NoMemory>
    requires { start ≤ length tokens.now }
    ensures grows { IfOk result (λ _. Grows nodes.old nodes.new) }
    ensures reading { IfOk result (λ reading.
        IsReading (spec_least extent) tokens.now start nodes.new reading) }
{
    let mut frames = Frames::new(nodes.alloc());
    let Stop { end, place } = read_on(tokens, start, extent.least(), &mut frames, nodes)?;
    let found = finish(&mut frames, place, nodes)?;
    Ok(Reading { end, found })
}

// Takes tokens as long as an expression goes on with them.
fn read_on(
    tokens: &[Lexeme],
    start: usize,
    base: u8,
    frames: &mut Frames,
    nodes: &mut Nodes,
) -> Result<Stop, NoMemory>
    requires within { start ≤ length tokens.now }
    requires fresh { frames.old ≡ [] }
    ensures grows { IfOk result (λ _. Grows nodes.old nodes.new) }
    ensures stops { IfOk result (λ stop.
        StopsAt base tokens.now start (held nodes.new frames.new) stop) }
{
    let mut place = Place::Before;
    let mut end = start;
    'tokens: while let Some(token) = tokens.get(end) {
        match take(frames, base, place, token, nodes)? {
            Step::Taken(next) => place = next,
            Step::Left(last) => return Ok(Stop { end, place: last }),
        }
        end += 1;
    }
    Ok(Stop { end, place })
}
