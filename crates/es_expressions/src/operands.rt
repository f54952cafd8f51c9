//! Operands as they are kept: by the numbers of their nodes.

ghost use Rattle.std.specs.Prelude.{◌≡◌, ◌+◌, min, IfOk};
ghost use Rattle.es_expressions.specs.Phrases.{Phrase};
ghost use Rattle.es_expressions.specs.Grammar.{takes_links_at};
ghost use Rattle.es_expressions.specs.Meaning.{parts_of};
ghost use Rattle.es_expressions.specs.Standings.{Grows, IsSingle, Stands, StandAt};

use crate::nodes::{Form, Node, Nodes};
use bml_bytes::NoMemory;

/// One level more. More than 64 levels count as 65.
pub fn deeper(height: u8) -> u8
    ensures { result ≡ min 65 (height + 1) }
{
    if height < 64 { height + 1 } else { 65 }
}

/// An expression by its node.
#[derive(Clone, Copy)]
pub struct Single {
    pub node: u32,
    pub level: u8,
    pub height: u8,
    pub start: usize,
    pub end: usize,
}

/// What stands for an expression: its node, or for a list with commas that may go on, the nodes of
/// its parts.
#[derive(Drop)]
pub enum Content {
    Node(u32),
    Parts(Vec<u32>),
}

/// An expression with its level, with whether it is a target, with its places, and with the height
/// of its parts.
#[derive(Drop)]
pub struct Operand {
    pub level: u8,
    pub is_target: bool,
    pub height: u8,
    pub start: usize,
    pub end: usize,
    pub content: Content,
}

impl Operand {
    /// Whether `.x`, `[e]` and arguments may follow.
    pub fn takes_links(&self) -> bool
        ensures { result ≡ takes_links_at self.now.level }
    {
        16 <= self.level && self.level != 17
    }

    /// The expression by its node, which a list with commas gets here.
    pub fn single(self, nodes: &mut Nodes) -> Result<Single, NoMemory>
        ensures grows { IfOk result (λ _. Grows nodes.old nodes.new) }
        ensures single { IfOk result (λ single. (e : Phrase)
            → Stands nodes.old self e → IsSingle nodes.new single e) }
    {
        let level = self.level;
        let height = self.height;
        let start = self.start;
        let end = self.end;
        match self.content {
            Content::Node(node) => Ok(Single {
                node,
                level,
                height,
                start,
                end,
            }),
            Content::Parts(parts) => {
                let comma = Node {
                    form: Form::Comma,
                    start,
                    end,
                    symbol: None,
                };
                let node = nodes.push(comma, parts)?;
                Ok(Single {
                    node,
                    level,
                    height: deeper(height),
                    start,
                    end,
                })
            }
        }
    }

    /// The nodes of its parts.
    pub fn parts(self, nodes: &Nodes) -> Result<Vec<u32>, NoMemory>
        ensures { IfOk result (λ parts. (e : Phrase)
            → Stands nodes.now self e → StandAt (parts_of e) nodes.now parts.items) }
    {
        match self.content {
            Content::Node(node) => {
                let mut parts = Vec::new(nodes.alloc());
                parts.push(node)?;
                Ok(parts)
            }
            Content::Parts(parts) => Ok(parts),
        }
    }
}
