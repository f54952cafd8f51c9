//! Leaves: the names and the whole numbers among the nodes, which are read at once.

ghost use Rattle.std.specs.Prelude.{◌≡◌, false, MatchOption};
ghost use Rattle.es_shapes.specs.Sources.{expression_by};
ghost use Rattle.es_shapes.specs.Syntax.{Expressions};
ghost use Rattle.es_shapes.specs.Syntax.Expression.{Name};
ghost use Rattle.es_shapes.specs.devices.Leaves.{IsLeafOf, is_name};
ghost use Rattle.es_shapes.specs.devices.Parts.{expression_at};

use crate::codes::{Code, node};
use bml_bytes::Text;
use es_expressions::{Form, Node, Symbol};
use es_reader::Program;

/// The name at a node, and None where it is no name.
#[tactic(auto, using(crate::proofs::ShapeLemmas::found_nodes))]
pub fn name_at(programs: &[Program], code: Code) -> Option<&Text>
    ensures { MatchOption result (is_name (expression_at programs.now code) ≡ false)
        (λ name. expression_at programs.now code ≡ Name name.now) }
{
    let node = node(programs, code)?;
    name_of(node)
}

// The name of a node, and None where its expression is no name. Whatever kind of leaf a node is,
// its symbol says which expression it is.
#[tactic(auto, using(crate::proofs::LeafLemmas::named_leaves))]
fn name_of(node: &Node) -> Option<&Text>
    ensures { (parts : Expressions) → MatchOption result
        (is_name (expression_by node.now.form node.now.symbol parts) ≡ false)
        (λ name. expression_by node.now.form node.now.symbol parts ≡ Name name.now) }
{
    match (node.form, &node.symbol) {
        (Form::Name | Form::Number | Form::Text, Some(Symbol::Name(name))) => Some(name),
        _ => None,
    }
}

/// A leaf that is read at once: a name, or a whole number.
#[derive(Clone, Copy)]
pub enum Leaf<'a> {
    Name(&'a Text),
    Number(i32),
    Other,
}

/// The leaf at a node; it is Other of every other expression.
#[tactic(auto, using(crate::proofs::ShapeLemmas::found_nodes))]
pub fn leaf_at(programs: &[Program], code: Code) -> Leaf<'_>
    ensures { IsLeafOf (expression_at programs.now code) result }
{
    match node(programs, code) {
        Some(node) => leaf_of(node),
        None => Leaf::Other,
    }
}

// The leaf of a node, told by its symbol whatever kind of leaf the node is.
#[tactic(auto, using(crate::proofs::LeafLemmas::named_leaves))]
fn leaf_of(node: &Node) -> Leaf<'_>
    ensures { (parts : Expressions)
        → IsLeafOf (expression_by node.now.form node.now.symbol parts) result }
{
    match (node.form, &node.symbol) {
        (Form::Name | Form::Number | Form::Text, Some(Symbol::Name(name))) => Leaf::Name(name),
        (Form::Name | Form::Number | Form::Text, Some(Symbol::Number(number))) => {
            Leaf::Number(*number)
        }
        _ => Leaf::Other,
    }
}
