//! The names that a `var` declares.

ghost use Rattle.std.specs.Prelude.{◌≤◌, length, IfOk, IfErr};
ghost use Rattle.es_reader.specs.Statements.{Declaration, Declarations};
ghost use Rattle.es_lexer.specs.declared.punctuators.Punctuator.TheVariants.{Comma};
ghost use Rattle.es_reader.specs.Grammar.{IsMark};
ghost use Rattle.es_reader.specs.Parts.{IfBad, IsThere, MayGrow};
ghost use Rattle.es_reader.specs.Stops.{DeclarationStops, DeclarationsStop, StopsAt};
ghost use Rattle.es_reader.specs.Simples.{IsDeclaredAt, AreDeclaredAt};

use crate::faults::PartFault;
use crate::heights::{deeper, higher};
use crate::marks::{expect_name, is_mark_at};
use crate::names::Names;
use crate::wholes::read_whole;
use es_expressions::{Extent, Form, Lexeme, Node, Nodes, Symbol};
use es_lexer::Punctuator;

/// A declared name: its node, how deep its nodes are nested, whether it has a value, the place
/// behind its last code, and the place of the token behind it.
#[derive(Clone, Copy)]
pub struct Declared {
    pub node: u32,
    pub height: u8,
    pub has_value: bool,
    pub end: usize,
    pub behind: usize,
}

/// The declared names of a `var`: their nodes, how deep these are nested, whether it is one name
/// without a value, the place behind the last code, and the place of the token behind them.
#[derive(Drop)]
pub struct DeclaredNames {
    pub nodes: Vec<u32>,
    pub height: u8,
    pub is_bare: bool,
    pub end: usize,
    pub behind: usize,
}

/// The name at a place, with its value where it has one.
pub fn read_declaration(
    tokens: &[Lexeme],
    place: usize,
    nodes: &mut Nodes,
    names: &mut Names,
) -> Result<Declared, PartFault>
    requires { place ≤ length tokens.now }
    ensures grows { IfOk result (λ _. MayGrow nodes.old nodes.new) }
    ensures declared { IfOk result (λ declared. (d : Declaration)
        × IsDeclaredAt tokens.now place nodes.new d names.old names.new declared) }
    ensures bad { IfErr result (λ fault. IfBad fault (StopsAt DeclarationStops tokens.now place)) }
{
    let name = expect_name(tokens, place)?;
    names.add(name)?;
    let mut node = Node {
        form: Form::Declarator,
        start: tokens[place].start,
        end: tokens[place].end,
        symbol: Some(Symbol::Name(name.share()?)),
    };
    if !is_mark_at(tokens, place + 1, Punctuator::Assign) {
        let end = node.end;
        let node = nodes.push(node, Vec::new(nodes.alloc()))?;
        return Ok(Declared {
            node,
            height: 1,
            has_value: false,
            end,
            behind: place + 1,
        });
    }
    let value = read_whole(tokens, place + 2, Extent::WithoutCommas, nodes)?;
    node.end = value.end;
    let children = vec![in nodes.alloc(); value.node]?;
    let node = nodes.push(node, children)?;
    Ok(Declared {
        node,
        height: deeper(value.height),
        has_value: true,
        end: value.end,
        behind: value.behind,
    })
}

/// The names at a place, with commas between them.
pub fn read_declarations(
    tokens: &[Lexeme],
    place: usize,
    nodes: &mut Nodes,
    names: &mut Names,
) -> Result<DeclaredNames, PartFault>
    requires { place ≤ length tokens.now }
    ensures grows { IfOk result (λ _. MayGrow nodes.old nodes.new) }
    ensures declared { IfOk result (λ declared. (d : Declarations)
        × AreDeclaredAt tokens.now place nodes.new d names.old names.new declared) }
    ensures no_comma { IfOk result (λ declared.
        IsThere (IsMark Comma) tokens.now declared.behind → ⊥) }
    ensures bad { IfErr result (λ fault. IfBad fault (StopsAt DeclarationsStop tokens.now place)) }
{
    let first = read_declaration(tokens, place, nodes, names)?;
    let mut declared = DeclaredNames {
        nodes: vec![in nodes.alloc(); first.node]?,
        height: first.height,
        is_bare: !first.has_value,
        end: first.end,
        behind: first.behind,
    };
    'declarations: while is_mark_at(tokens, declared.behind, Punctuator::Comma) {
        let further = read_declaration(tokens, declared.behind + 1, nodes, names)?;
        declared.nodes.push(further.node)?;
        declared.height = higher(declared.height, further.height);
        declared.is_bare = false;
        declared.end = further.end;
        declared.behind = further.behind;
    }
    Ok(declared)
}
