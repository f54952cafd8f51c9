//! Statements that hold no other.

ghost use Rattle.std.specs.Prelude.{◌≡◌, ◌+◌, ◌≤◌, ◌<◌, ◌⊎◌, ℕ, List, true, length, IfOk, IfErr};
ghost use Rattle.es_lexer.specs.declared.words.ReservedWord.TheVariants.{Break, Continue, Var as VarWord, Return as ReturnWord};
ghost use Rattle.es_lexer.specs.declared.punctuators.Punctuator.TheVariants.{Semicolon};
ghost use Rattle.es_reader.specs.Statements.{Simple};
ghost use Rattle.es_reader.specs.Grammar.{IsMark, IsWord, Setting, setting};
ghost use Rattle.es_reader.specs.Meaning.{jump_form};
ghost use Rattle.es_reader.specs.Parts.{IfBad, IsThere, MayGrow, NoReturnEnd};
ghost use Rattle.es_reader.specs.Stops.{BehindWord, IsSimpleWord, SimpleBad, SimpleStops, StopsAt, ValueStops};
ghost use Rattle.es_reader.specs.Simples.{IsSimpleAt};

use crate::declarations::read_declarations;
use crate::faults::PartFault;
use crate::heights::deeper;
use crate::names::Names;
use crate::wholes::{read_end, read_whole, return_end};
use es_expressions::{Extent, Form, Lexeme, Node, Nodes, Symbol};
use es_lexer::{Punctuator, ReservedWord};

/// A statement: its node, how deep its nodes are nested, the place behind its last code, and the
/// place of the token behind it.
#[derive(Clone, Copy)]
pub struct Stated {
    pub node: u32,
    pub height: u8,
    pub end: usize,
    pub behind: usize,
}

/// The statement at a place, in or out of loops and functions, which holds no other.
pub fn read_simple(
    tokens: &[Lexeme],
    place: usize,
    in_loop: bool,
    in_function: bool,
    nodes: &mut Nodes,
    names: &mut Names,
) -> Result<Stated, PartFault>
    requires { place < length tokens.now }
    ensures grows { IfOk result (λ _. MayGrow nodes.old nodes.new) }
    ensures simple { IfOk result (λ stated. (x : Simple)
        × IsSimpleAt (setting in_loop in_function) tokens.now place nodes.new x
        names.old names.new stated) }
    ensures bad { IfErr result (λ fault. IfBad fault
        (SimpleBad (setting in_loop in_function) tokens.now place)) }
{
    match &tokens[place].symbol {
        Symbol::Word(ReservedWord::Var) => read_var(tokens, place, nodes, names),
        Symbol::Word(ReservedWord::Break) if in_loop => {
            read_jump(tokens, place, Form::Break, nodes)
        }
        Symbol::Word(ReservedWord::Continue) if in_loop => {
            read_jump(tokens, place, Form::Continue, nodes)
        }
        Symbol::Word(ReservedWord::Return) if in_function => read_return(tokens, place, nodes),
        Symbol::Mark(Punctuator::Semicolon) => read_empty(tokens, place, nodes),
        _ => read_alone(tokens, place, nodes),
    }
}

fn read_var(
    tokens: &[Lexeme],
    place: usize,
    nodes: &mut Nodes,
    names: &mut Names,
) -> Result<Stated, PartFault>
    requires { IsThere (IsWord VarWord) tokens.now place }
    ensures grows { IfOk result (λ _. MayGrow nodes.old nodes.new) }
    ensures simple { IfOk result (λ stated. (p : Setting) → (x : Simple)
        × IsSimpleAt p tokens.now place nodes.new x names.old names.new stated) }
    ensures bad { IfErr result (λ fault. IfBad fault (λ bad. (p : Setting)
        → BehindWord IsSimpleWord (λ _. SimpleStops p) tokens.now place bad)) }
{
    let declared = read_declarations(tokens, place + 1, nodes, names)?;
    let ended = read_end(tokens, declared.behind, declared.end)?;
    let node = Node {
        form: Form::Var,
        start: tokens[place].start,
        end: ended.end,
        symbol: None,
    };
    let node = nodes.push(node, declared.nodes)?;
    Ok(Stated {
        node,
        height: declared.height,
        end: ended.end,
        behind: ended.behind,
    })
}

fn read_empty(tokens: &[Lexeme], place: usize, nodes: &mut Nodes) -> Result<Stated, PartFault>
    requires { IsThere (IsMark Semicolon) tokens.now place }
    ensures grows { IfOk result (λ _. MayGrow nodes.old nodes.new) }
    ensures simple { IfOk result (λ stated. (p : Setting) (names : List (List ℕ))
        → (x : Simple) × IsSimpleAt p tokens.now place nodes.new x names names stated) }
    ensures bad { IfErr result (λ fault. IfBad fault (λ _. ⊥)) }
{
    let end = tokens[place].end;
    let node = Node {
        form: Form::Empty,
        start: tokens[place].start,
        end,
        symbol: None,
    };
    let node = nodes.push(node, Vec::new(nodes.alloc()))?;
    Ok(Stated {
        node,
        height: 1,
        end,
        behind: place + 1,
    })
}

// A `break` or `continue`.
fn read_jump(
    tokens: &[Lexeme],
    place: usize,
    form: Form,
    nodes: &mut Nodes,
) -> Result<Stated, PartFault>
    requires { IsThere (λ t. (IsWord Break t ⊎ IsWord Continue t)
        × (jump_form t.symbol ≡ form)) tokens.now place }
    ensures grows { IfOk result (λ _. MayGrow nodes.old nodes.new) }
    ensures simple { IfOk result (λ stated. (p : Setting) (names : List (List ℕ))
        → p.in_loop ≡ true → (x : Simple)
        × IsSimpleAt p tokens.now place nodes.new x names names stated) }
    ensures bad { IfErr result (λ fault. IfBad fault (λ bad. (p : Setting) → p.in_loop ≡ true
        → BehindWord IsSimpleWord (λ _. SimpleStops p) tokens.now place bad)) }
{
    let ended = read_end(tokens, place + 1, tokens[place].end)?;
    let node = Node {
        form,
        start: tokens[place].start,
        end: ended.end,
        symbol: None,
    };
    let node = nodes.push(node, Vec::new(nodes.alloc()))?;
    Ok(Stated {
        node,
        height: 1,
        end: ended.end,
        behind: ended.behind,
    })
}

// A `return`, with a value or without.
fn read_return(tokens: &[Lexeme], place: usize, nodes: &mut Nodes) -> Result<Stated, PartFault>
    requires { IsThere (IsWord ReturnWord) tokens.now place }
    ensures grows { IfOk result (λ _. MayGrow nodes.old nodes.new) }
    ensures simple { IfOk result (λ stated. (p : Setting) (names : List (List ℕ))
        → p.in_function ≡ true → (x : Simple)
        × IsSimpleAt p tokens.now place nodes.new x names names stated) }
    ensures bad { IfErr result (λ fault. IfBad fault (λ bad. (p : Setting) → p.in_function ≡ true
        → BehindWord IsSimpleWord (λ _. SimpleStops p) tokens.now place bad)) }
{
    let Some(ended) = return_end(tokens, place + 1, tokens[place].end) else {
        return read_value(tokens, place, nodes);
    };
    let node = Node {
        form: Form::Return,
        start: tokens[place].start,
        end: ended.end,
        symbol: None,
    };
    let node = nodes.push(node, Vec::new(nodes.alloc()))?;
    Ok(Stated {
        node,
        height: 1,
        end: ended.end,
        behind: ended.behind,
    })
}

// A `return` with a value on its line.
fn read_value(tokens: &[Lexeme], place: usize, nodes: &mut Nodes) -> Result<Stated, PartFault>
    requires word { IsThere (IsWord ReturnWord) tokens.now place }
    requires value { NoReturnEnd tokens.now (place + 1) }
    ensures grows { IfOk result (λ _. MayGrow nodes.old nodes.new) }
    ensures simple { IfOk result (λ stated. (p : Setting) (names : List (List ℕ))
        → p.in_function ≡ true → (x : Simple)
        × IsSimpleAt p tokens.now place nodes.new x names names stated) }
    ensures bad { IfErr result (λ fault. IfBad fault (λ bad. (p : Setting) → p.in_function ≡ true
        → BehindWord IsSimpleWord (λ _. SimpleStops p) tokens.now place bad)) }
{
    let value = read_whole(tokens, place + 1, Extent::WithCommas, nodes)?;
    let ended = read_end(tokens, value.behind, value.end)?;
    let node = Node {
        form: Form::Return,
        start: tokens[place].start,
        end: ended.end,
        symbol: None,
    };
    let children = vec![in nodes.alloc(); value.node]?;
    let node = nodes.push(node, children)?;
    Ok(Stated {
        node,
        height: deeper(value.height),
        end: ended.end,
        behind: ended.behind,
    })
}

// An expression that is a statement.
fn read_alone(tokens: &[Lexeme], place: usize, nodes: &mut Nodes) -> Result<Stated, PartFault>
    requires { place ≤ length tokens.now }
    ensures grows { IfOk result (λ _. MayGrow nodes.old nodes.new) }
    ensures simple { IfOk result (λ stated. (p : Setting) (names : List (List ℕ))
        → (x : Simple) × IsSimpleAt p tokens.now place nodes.new x names names stated) }
    ensures bad { IfErr result (λ fault. IfBad fault (StopsAt ValueStops tokens.now place)) }
{
    let whole = read_whole(tokens, place, Extent::WithCommas, nodes)?;
    let ended = read_end(tokens, whole.behind, whole.end)?;
    let node = Node {
        form: Form::Expression,
        start: whole.start,
        end: ended.end,
        symbol: None,
    };
    let children = vec![in nodes.alloc(); whole.node]?;
    let node = nodes.push(node, children)?;
    Ok(Stated {
        node,
        height: deeper(whole.height),
        end: ended.end,
        behind: ended.behind,
    })
}
