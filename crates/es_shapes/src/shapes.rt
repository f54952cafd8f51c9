//! What stands at a node: which expression or statement it is, with the codes of its parts.

ghost use Rattle.std.specs.Prelude.{◌≡◌, IfOk};
ghost use Rattle.std.specs.Option.{option_map};
ghost use Rattle.es_shapes.specs.devices.Parts.{declarator_at, expression_at, statement_at};
ghost use Rattle.es_shapes.specs.devices.Shapes.{declared, shaped, stated};

use crate::codes::{Code, node, part};
use crate::expression_shapes::expression_shape;
use crate::operators::{Operator, Sign};
use crate::statement_shapes::{declared_name, statement_shape};
use bml_bytes::{NoMemory, Text};
use es_reader::Program;
use std::alloc::Global;

/// An expression. The arguments of a call or of `new` are its node's parts from the place 1 on, and
/// those of a list with commas from 0 on.
#[derive(Drop)]
pub enum Shape {
    This,
    Null,
    Truth(bool),
    Number(i32),
    Text(Text),
    Name(Text),
    Index(Code, Code),
    Member(Code, Text),
    Call(Code),
    New(Code),
    Signed(Sign, Code),
    Typeof(Code),
    Void(Code),
    Delete(Code),
    /// Whether the operator stands in front, whether it is `--`, and the target.
    Stepped(bool, bool, Code),
    Binary(Operator, Code, Code),
    And(Code, Code),
    Or(Code, Code),
    Choice(Code, Code, Code),
    Assign(Code, Code),
    Update(Operator, Code, Code),
    Comma,
}

/// What stands first in the head of a `for`.
#[derive(Clone, Copy)]
pub enum FirstShape {
    NoFirst,
    FirstExpression(Code),
    FirstVar(Code),
}

/// What stands before the `in` of a `for`.
#[derive(Drop)]
pub enum VisitorShape {
    VisitTarget(Code),
    /// The name that is declared, and its declarator.
    VisitVar(Text, Code),
}

impl VisitorShape {
    /// The same again, which takes no memory.
    pub fn share(&self) -> Result<VisitorShape, NoMemory>
        ensures { IfOk result (λ visitor. visitor ≡ self.now) }
    {
        match self {
            VisitorShape::VisitTarget(target) => Ok(VisitorShape::VisitTarget(*target)),
            VisitorShape::VisitVar(name, declarator) => {
                Ok(VisitorShape::VisitVar(name.share()?, *declarator))
            }
        }
    }
}

/// A statement.
#[derive(Drop)]
pub enum StatementShape {
    Block,
    Var,
    Empty,
    Evaluate(Code),
    If(Code, Code),
    IfElse(Code, Code, Code),
    While(Code, Code),
    /// The first part, the test, the part behind each turn, and the body.
    For(FirstShape, Option<Code>, Option<Code>, Code),
    ForIn(VisitorShape, Code, Code),
    Continue,
    Break,
    Return(Option<Code>),
}

/// The name that a `var` declares, and its value where it has one.
#[derive(Drop)]
pub struct DeclaratorShape {
    pub name: Text,
    pub value: Option<Code>,
}

/// The expression at a node.
#[tactic(auto, using(crate::proofs::ShapeLemmas::found_nodes), unfolding(crate::specs::devices::Shapes::shaped, crate::specs::devices::Shapes::stated))]
pub fn expression(programs: &[Program], code: Code) -> Result<Shape, NoMemory>
    ensures { IfOk result
        (λ shape. expression_at programs.now code ≡ shaped programs.now code shape) }
{
    match node(programs, code) {
        Some(node) => expression_shape(programs, code, node),
        None => Ok(Shape::This),
    }
}

/// The statement at a node.
#[tactic(auto, using(crate::proofs::ShapeLemmas::found_nodes), unfolding(crate::specs::devices::Shapes::shaped, crate::specs::devices::Shapes::stated))]
pub fn statement(
    alloc: Global,
    programs: &[Program],
    code: Code,
) -> Result<StatementShape, NoMemory>
    ensures { IfOk result
        (λ shape. statement_at programs.now code ≡ stated programs.now code shape) }
{
    match node(programs, code) {
        Some(node) => statement_shape(alloc, programs, code, node.form),
        None => Ok(StatementShape::Empty),
    }
}

/// What a `var` declares at a node.
pub fn declarator(
    alloc: Global,
    programs: &[Program],
    code: Code,
) -> Result<DeclaratorShape, NoMemory>
    ensures { IfOk result
        (λ shape. declarator_at programs.now code ≡ declared programs.now shape) }
{
    Ok(DeclaratorShape {
        name: declared_name(alloc, programs, code)?,
        value: part(programs, code, 0),
    })
}
