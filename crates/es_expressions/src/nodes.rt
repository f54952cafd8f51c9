//! The nodes of trees, by number.

ghost use Rattle.std.specs.Prelude.{◌≡◌, [], ◌∷◌, ◌++◌, length, IfOk, IsErr, OnOk, slice_get, option_map};

use crate::lexemes::Symbol;
use bml_bytes::NoMemory;
use std::alloc::Global;
use std::marker::Model;

/// What a node is: one form for each form of expression, and for each of statement, so that the
/// nodes of a whole program stand in one list.
#[derive(Clone, Copy, Debug, PartialEq, Eq)]
pub enum Form {
    This,
    Name,
    Null,
    True,
    False,
    Number,
    Text,
    Index,
    Member,
    Call,
    New,
    Postfix,
    Prefix,
    Binary,
    Choice,
    Assignment,
    Comma,
    Block,
    Var,
    Declarator,
    Empty,
    Expression,
    If,
    While,
    For,
    ForIn,
    Continue,
    Break,
    Return,
}

/// A node without its children: its form, the place of the first code of its first token and the
/// place behind the last code of its last token, and the symbol that tells it from others of its
/// form: of a name, number, text or word itself, of a member its name, and of an operator the
/// operator.
#[derive(Debug, Drop)]
pub struct Node {
    pub form: Form,
    pub start: usize,
    pub end: usize,
    pub symbol: Option<Symbol>,
}

// A node and the numbers of its children, in the order of the text.
#[derive(Debug, Drop)]
pub struct Row {
    node: Node,
    children: Vec<u32>,
}

/// Nodes by number, each behind its children. Contracts see the list of them, each with the numbers
/// of its children.
#[derive(Debug, Drop)]
pub struct Nodes {
    rows: Vec<Row>,
}

impl Model for Nodes {
    ghost use Rattle.std.specs.Prelude.{List, map};
    ghost use Rattle.es_expressions.specs.Nodes.{NodeRow, row_of};

    ghost Value = { List NodeRow };

    ghost view = { λ nodes. map row_of nodes.rows.items };
}

impl Nodes {
    /// None yet.
    pub fn new(alloc: Global) -> Nodes
        ensures { result ≡ [] }
    {
        Nodes {
            rows: Vec::new(alloc),
        }
    }

    /// Where its nodes are kept.
    pub fn alloc(&self) -> Global {
        *self.rows.allocator()
    }

    /// One node more, behind the others, with its children's numbers in their order. Gives its
    /// number. Where there is no memory for it, the nodes stay as they were; and so where there are
    /// 2^32 nodes already, since more have no number, which is told as want of memory.
    pub fn push(&mut self, node: Node, children: Vec<u32>) -> Result<u32, NoMemory>
        ensures number { IfOk result (λ number. number ≡ length self.old) }
        ensures pushed { OnOk result (self.new ≡ self.old
            ++ record { node = node; children = children.items } ∷ []) }
        ensures kept { IsErr result → self.new ≡ self.old }
    {
        let Ok(number) = u32::try_from(self.rows.len()) else {
            return Err(NoMemory);
        };
        self.rows.push(Row { node, children })?;
        Ok(number)
    }

    /// The node of a number, and None past the last one.
    pub fn node(&self, number: u32) -> Option<&Node>
        ensures { option_map (λ node. node.now) result
            ≡ option_map (λ row. row.node) (slice_get self.now number) }
    {
        let row = self.rows.get(number as usize)?;
        Some(&row.node)
    }

    /// The numbers of a node's children, in the order of the text, and None past the last node.
    pub fn children(&self, number: u32) -> Option<&[u32]>
        ensures { option_map (λ children. children.now) result
            ≡ option_map (λ row. row.children) (slice_get self.now number) }
    {
        let row = self.rows.get(number as usize)?;
        Some(row.children.as_slice())
    }
}
