//! Which statements nodes are, form by form. What lacks a part is empty.

ghost use Rattle.std.specs.Prelude.{◌≡◌, IfOk, option_map};
ghost use Rattle.es_expressions.specs.declared.nodes.Form.TheVariants as form;
ghost use Rattle.es_shapes.specs.devices.Parts.{declarator_at, expression_at, tree_of, trees_from};
ghost use Rattle.es_shapes.specs.devices.Decoding.{first_name, form_of, formed_statement};
ghost use Rattle.es_shapes.specs.devices.Shapes.{first_shaped, stated, visitor_shaped};
ghost use Rattle.es_shapes.specs.Sources.{declarators_of, first_of, name_in, part_of, visitor_of};

use crate::codes::{Code, node, part, two_parts};
use crate::shapes::{FirstShape, StatementShape, VisitorShape};
use bml_bytes::{NoMemory, Text};
use es_expressions::{Form, Symbol};
use es_reader::Program;
use std::alloc::Global;

/// The statement of a node of this form.
#[tactic(auto, unfolding(crate::specs::devices::Shapes::stated, crate::specs::devices::Parts::listed))]
pub fn statement_shape(
    alloc: Global,
    programs: &[Program],
    code: Code,
    form: Form,
) -> Result<StatementShape, NoMemory>
    ensures { IfOk result (λ shape. stated programs.now code shape
        ≡ formed_statement programs.now code form) }
{
    match form {
        Form::Block => Ok(StatementShape::Block),
        Form::Var => Ok(StatementShape::Var),
        Form::Expression => Ok(evaluate(programs, code)),
        Form::If => Ok(if_statement(programs, code)),
        Form::While => Ok(while_statement(programs, code)),
        Form::For => Ok(for_statement(programs, code)),
        Form::ForIn => for_in_statement(alloc, programs, code),
        Form::Continue => Ok(StatementShape::Continue),
        Form::Break => Ok(StatementShape::Break),
        Form::Return => Ok(StatementShape::Return(part(programs, code, 0))),
        _ => Ok(StatementShape::Empty),
    }
}

// An expression as a statement.
#[tactic(auto, using(crate::proofs::StatementLemmas::evaluated), unfolding(crate::specs::devices::Shapes::stated))]
fn evaluate(programs: &[Program], code: Code) -> StatementShape
    ensures { stated programs.now code result
        ≡ formed_statement programs.now code form.Expression }
{
    match part(programs, code, 0) {
        Some(expression) => StatementShape::Evaluate(expression),
        None => StatementShape::Empty,
    }
}

// `if`, with or without `else`.
#[tactic(auto, using(crate::proofs::StatementLemmas::if_parts), unfolding(crate::specs::devices::Shapes::stated))]
fn if_statement(programs: &[Program], code: Code) -> StatementShape
    ensures { stated programs.now code result ≡ formed_statement programs.now code form.If }
{
    match (two_parts(programs, code, 0), part(programs, code, 2)) {
        (Some((test, body)), Some(other)) => StatementShape::IfElse(test, body, other),
        (Some((test, body)), None) => StatementShape::If(test, body),
        (None, _) => StatementShape::Empty,
    }
}

// `while`.
#[tactic(auto, using(crate::proofs::StatementLemmas::while_parts), unfolding(crate::specs::devices::Shapes::stated))]
fn while_statement(programs: &[Program], code: Code) -> StatementShape
    ensures { stated programs.now code result ≡ formed_statement programs.now code form.While }
{
    match two_parts(programs, code, 0) {
        Some((test, body)) => StatementShape::While(test, body),
        None => StatementShape::Empty,
    }
}

// `for`.
#[tactic(auto, using(crate::proofs::StatementLemmas::for_parts), unfolding(crate::specs::devices::Shapes::stated))]
fn for_statement(programs: &[Program], code: Code) -> StatementShape
    ensures { stated programs.now code result ≡ formed_statement programs.now code form.For }
{
    match (two_parts(programs, code, 0), two_parts(programs, code, 2)) {
        (Some((first, test)), Some((update, body))) => StatementShape::For(
            first_shape(programs, first),
            head_part(programs, test),
            head_part(programs, update),
            body,
        ),
        _ => StatementShape::Empty,
    }
}

// `for` with `in`.
#[tactic(auto, using(crate::proofs::StatementLemmas::for_in_parts), unfolding(crate::specs::devices::Shapes::stated))]
fn for_in_statement(
    alloc: Global,
    programs: &[Program],
    code: Code,
) -> Result<StatementShape, NoMemory>
    ensures { IfOk result (λ shape. stated programs.now code shape
        ≡ formed_statement programs.now code form.ForIn) }
{
    match (two_parts(programs, code, 0), part(programs, code, 2)) {
        (Some((visitor, object)), Some(body)) => {
            let visitor = visitor_shape(alloc, programs, visitor)?;
            Ok(StatementShape::ForIn(visitor, object, body))
        }
        _ => Ok(StatementShape::Empty),
    }
}

// The form of a node, and `this` where there is none.
#[tactic(auto, using(crate::proofs::ShapeLemmas::found_nodes))]
fn form_at(programs: &[Program], code: Code) -> Form
    ensures { result ≡ form_of (tree_of programs.now code) }
{
    match node(programs, code) {
        Some(node) => node.form,
        None => Form::This,
    }
}

// What stands first in the head of a `for`.
#[tactic(auto, using(crate::proofs::StatementLemmas::head_parts), unfolding(crate::specs::devices::Shapes::first_shaped))]
fn first_shape(programs: &[Program], code: Code) -> FirstShape
    ensures { first_shaped programs.now result ≡ first_of (tree_of programs.now code) }
{
    match form_at(programs, code) {
        Form::Empty => FirstShape::NoFirst,
        Form::Var => FirstShape::FirstVar(code),
        _ => FirstShape::FirstExpression(code),
    }
}

// Another part of the head of a `for`, unless it is absent.
#[tactic(auto, using(crate::proofs::StatementLemmas::head_parts), unfolding(crate::specs::devices::Shapes::stated))]
fn head_part(programs: &[Program], code: Code) -> Option<Code>
    ensures { option_map (expression_at programs.now) result
        ≡ part_of (tree_of programs.now code) }
{
    match form_at(programs, code) {
        Form::Empty => None,
        _ => Some(code),
    }
}

// What stands before the `in` of a `for`.
#[tactic(auto, using(crate::proofs::StatementLemmas::head_parts), unfolding(crate::specs::devices::Shapes::visitor_shaped))]
fn visitor_shape(alloc: Global, programs: &[Program], code: Code) -> Result<VisitorShape, NoMemory>
    ensures { IfOk result (λ shape. visitor_shaped programs.now shape
        ≡ visitor_of (tree_of programs.now code)) }
{
    match form_at(programs, code) {
        Form::Var => {
            let name = variable(alloc, programs, code)?;
            Ok(VisitorShape::VisitVar(name, first_declarator(programs, code)))
        }
        _ => Ok(VisitorShape::VisitTarget(code)),
    }
}

// The first declarator of a `var`, and the `var` itself where there is none.
fn first_declarator(programs: &[Program], code: Code) -> Code {
    part(programs, code, 0).unwrap_or(code)
}

// The name of the first declarator of a `var`, and none where there is no declarator.
fn variable(alloc: Global, programs: &[Program], code: Code) -> Result<Text, NoMemory>
    ensures { IfOk result (λ name. name
        ≡ first_name (declarators_of (trees_from programs.now code 0))) }
{
    match part(programs, code, 0) {
        Some(declarator) => declared_name(alloc, programs, declarator),
        None => Text::of_codes(alloc, &[]),
    }
}

/// The name of a declarator, and no codes where it has none.
pub fn declared_name(alloc: Global, programs: &[Program], code: Code) -> Result<Text, NoMemory>
    ensures { IfOk result (λ name. name ≡ (declarator_at programs.now code).name) }
{
    match node(programs, code) {
        Some(node) => name_of(alloc, &node.symbol),
        None => Text::of_codes(alloc, &[]),
    }
}

// The codes of a name, and none of what is no name.
fn name_of(alloc: Global, symbol: &Option<Symbol>) -> Result<Text, NoMemory>
    ensures { IfOk result (λ name. name ≡ name_in symbol.now) }
{
    match symbol {
        Some(Symbol::Name(name)) => name.share(),
        _ => Text::of_codes(alloc, &[]),
    }
}
