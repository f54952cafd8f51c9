//! The forms of expressions, made of their operands.

ghost use Rattle.std.specs.Prelude.{◌≡◌, ◌∷◌, [], ◌++◌, length, IfOk};
ghost use Rattle.es_expressions.specs.Roles.{strength as strength_of};
ghost use Rattle.es_expressions.specs.Phrases.{Phrase};
ghost use Rattle.es_expressions.specs.Phrases.Phrase.{Leaf, Group, Index, Member, CallEmpty};
ghost use Rattle.es_expressions.specs.Phrases.Phrase.{CallWith, NewPlain, NewEmpty, NewWith};
ghost use Rattle.es_expressions.specs.Phrases.Phrase.{Postfix, Signed, Stepped, Binary, Choice};
ghost use Rattle.es_expressions.specs.Phrases.Phrase.{Assign, Comma};
ghost use Rattle.es_expressions.specs.Meaning.{leaf_form as form_of_leaf, word_form, tree_of};
ghost use Rattle.es_expressions.specs.Meaning.{parts_of};
ghost use Rattle.es_expressions.specs.Trees.Trees.{OneMore};
ghost use Rattle.es_expressions.specs.Standings.{Grows, IsSingle, Stands, StandAt, noded};
ghost use Rattle.es_expressions.specs.declared.lexemes.Lexeme.{Lexeme};

use crate::lexemes::{Lexeme, Symbol};
use crate::nodes::{Form, Node, Nodes};
use crate::operands::{Content, Operand, Single, deeper};
use bml_bytes::NoMemory;
use es_lexer::ReservedWord;

// What is known of an expression before it has a node.
#[derive(Clone, Copy)]
struct Made {
    level: u8,
    is_target: bool,
    height: u8,
}

// The operand of a new node.
fn operand_of(
    made: Made,
    node: Node,
    children: Vec<u32>,
    nodes: &mut Nodes,
) -> Result<Operand, NoMemory>
    ensures is { IfOk result (λ operand. operand
        ≡ noded made.level made.is_target made.height node (length nodes.old)) }
    ensures pushed { IfOk result (λ _. nodes.new ≡ nodes.old
        ++ record { node = node; children = children.items } ∷ []) }
{
    let Made {
        level,
        is_target,
        height,
    } = made;
    let start = node.start;
    let end = node.end;
    let number = nodes.push(node, children)?;
    Ok(Operand {
        level,
        is_target,
        height,
        start,
        end,
        content: Content::Node(number),
    })
}

// The operand of a new node over the nodes of these numbers.
fn operand_over(
    made: Made,
    node: Node,
    numbers: &[u32],
    nodes: &mut Nodes,
) -> Result<Operand, NoMemory>
    ensures is { IfOk result (λ operand. operand
        ≡ noded made.level made.is_target made.height node (length nodes.old)) }
    ensures pushed { IfOk result (λ _. nodes.new ≡ nodes.old
        ++ record { node = node; children = numbers.now } ∷ []) }
{
    let mut children = Vec::new(nodes.alloc());
    children.extend_from_slice(numbers)?;
    operand_of(made, node, children, nodes)
}

fn form_of_word(word: ReservedWord) -> Form
    ensures { result ≡ word_form word }
{
    match word {
        ReservedWord::Null => Form::Null,
        ReservedWord::True => Form::True,
        ReservedWord::False => Form::False,
        _ => Form::This,
    }
}

fn leaf_form(symbol: &Symbol) -> Form
    ensures { result ≡ form_of_leaf symbol.now }
{
    match symbol {
        Symbol::Name(_) => Form::Name,
        Symbol::Word(word) => form_of_word(*word),
        Symbol::Number(_) => Form::Number,
        Symbol::Words(_) => Form::Text,
        Symbol::Mark(_) => Form::This,
    }
}

/// A token that is a whole operand.
pub fn leaf(token: &Lexeme, nodes: &mut Nodes) -> Result<Operand, NoMemory>
    ensures grows { IfOk result (λ _. Grows nodes.old nodes.new) }
    ensures leaf { IfOk result (λ operand. Stands nodes.new operand (Leaf token.now)) }
{
    let node = Node {
        form: leaf_form(&token.symbol),
        start: token.start,
        end: token.end,
        symbol: Some(token.symbol.share()?),
    };
    let made = Made {
        level: 19,
        is_target: token.symbol.is_name(),
        height: 1,
    };
    operand_over(made, node, &[], nodes)
}

/// `(e)`: no node of its own, but a level and places.
pub fn group(
    start: usize,
    inner: Operand,
    close: &Lexeme,
    nodes: &mut Nodes,
) -> Result<Operand, NoMemory>
    ensures grows { IfOk result (λ _. Grows nodes.old nodes.new) }
    ensures group { IfOk result (λ operand. (o : Lexeme) (e : Phrase) → start ≡ o.start
        → Stands nodes.old inner e → Stands nodes.new operand (Group o e close.now)) }
{
    let single = inner.single(nodes)?;
    Ok(Operand {
        level: 19,
        is_target: false,
        height: single.height,
        start,
        end: close.end,
        content: Content::Node(single.node),
    })
}

/// `b[e]`
pub fn index(
    base: Single,
    key: Operand,
    close: &Lexeme,
    nodes: &mut Nodes,
) -> Result<Operand, NoMemory>
    ensures grows { IfOk result (λ _. Grows nodes.old nodes.new) }
    ensures index { IfOk result (λ operand. (b e : Phrase) (o : Lexeme)
        → IsSingle nodes.old base b → Stands nodes.old key e
        → Stands nodes.new operand (Index b o e close.now)) }
{
    let key = key.single(nodes)?;
    let node = Node {
        form: Form::Index,
        start: base.start,
        end: close.end,
        symbol: None,
    };
    let made = Made {
        level: base.level.min(18),
        is_target: true,
        height: base.height.max(deeper(key.height)),
    };
    operand_over(made, node, &[base.node, key.node], nodes)
}

/// `b.x`
pub fn member(base: Single, name: &Lexeme, nodes: &mut Nodes) -> Result<Operand, NoMemory>
    ensures grows { IfOk result (λ _. Grows nodes.old nodes.new) }
    ensures member { IfOk result (λ operand. (b : Phrase) (d : Lexeme)
        → IsSingle nodes.old base b → Stands nodes.new operand (Member b d name.now)) }
{
    let node = Node {
        form: Form::Member,
        start: base.start,
        end: name.end,
        symbol: Some(name.symbol.share()?),
    };
    let made = Made {
        level: base.level.min(18),
        is_target: true,
        height: base.height,
    };
    operand_over(made, node, &[base.node], nodes)
}

/// `f()`
pub fn call_empty(callee: Single, close: &Lexeme, nodes: &mut Nodes) -> Result<Operand, NoMemory>
    ensures grows { IfOk result (λ _. Grows nodes.old nodes.new) }
    ensures call { IfOk result (λ operand. (f : Phrase) (o : Lexeme)
        → IsSingle nodes.old callee f → Stands nodes.new operand (CallEmpty f o close.now)) }
{
    let node = Node {
        form: Form::Call,
        start: callee.start,
        end: close.end,
        symbol: None,
    };
    let made = Made {
        level: 16,
        is_target: false,
        height: callee.height,
    };
    operand_over(made, node, &[callee.node], nodes)
}

/// `f(e)`
pub fn call_with(
    callee: Single,
    arguments: Operand,
    close: &Lexeme,
    nodes: &mut Nodes,
) -> Result<Operand, NoMemory>
    ensures grows { IfOk result (λ _. Grows nodes.old nodes.new) }
    ensures call { IfOk result (λ operand. (f e : Phrase) (o : Lexeme)
        → IsSingle nodes.old callee f → Stands nodes.old arguments e
        → Stands nodes.new operand (CallWith f o e close.now)) }
{
    let node = Node {
        form: Form::Call,
        start: callee.start,
        end: close.end,
        symbol: None,
    };
    let made = Made {
        level: 16,
        is_target: false,
        height: callee.height.max(deeper(arguments.height)),
    };
    let children = children_of(callee, arguments, nodes)?;
    operand_of(made, node, children, nodes)
}

/// `new f` without arguments
pub fn creation(start: usize, callee: Operand, nodes: &mut Nodes) -> Result<Operand, NoMemory>
    ensures grows { IfOk result (λ _. Grows nodes.old nodes.new) }
    ensures creation { IfOk result (λ operand. (n : Lexeme) (f : Phrase) → start ≡ n.start
        → Stands nodes.old callee f → Stands nodes.new operand (NewPlain n f)) }
{
    let callee = callee.single(nodes)?;
    let node = Node {
        form: Form::New,
        start: start,
        end: callee.end,
        symbol: None,
    };
    let made = Made {
        level: 17,
        is_target: false,
        height: deeper(callee.height),
    };
    operand_over(made, node, &[callee.node], nodes)
}

/// `new f()`
pub fn creation_empty(
    start: usize,
    callee: Single,
    close: &Lexeme,
    nodes: &mut Nodes,
) -> Result<Operand, NoMemory>
    ensures grows { IfOk result (λ _. Grows nodes.old nodes.new) }
    ensures creation { IfOk result (λ operand. (n o : Lexeme) (f : Phrase) → start ≡ n.start
        → IsSingle nodes.old callee f → Stands nodes.new operand (NewEmpty n f o close.now)) }
{
    let node = Node {
        form: Form::New,
        start: start,
        end: close.end,
        symbol: None,
    };
    let made = Made {
        level: 18,
        is_target: false,
        height: deeper(callee.height),
    };
    operand_over(made, node, &[callee.node], nodes)
}

/// `new f(e)`
pub fn creation_with(
    start: usize,
    callee: Single,
    arguments: Operand,
    close: &Lexeme,
    nodes: &mut Nodes,
) -> Result<Operand, NoMemory>
    ensures grows { IfOk result (λ _. Grows nodes.old nodes.new) }
    ensures creation { IfOk result (λ operand. (n o : Lexeme) (f e : Phrase) → start ≡ n.start
        → IsSingle nodes.old callee f → Stands nodes.old arguments e
        → Stands nodes.new operand (NewWith n f o e close.now)) }
{
    let node = Node {
        form: Form::New,
        start: start,
        end: close.end,
        symbol: None,
    };
    let made = Made {
        level: 18,
        is_target: false,
        height: deeper(callee.height.max(arguments.height)),
    };
    let children = children_of(callee, arguments, nodes)?;
    operand_of(made, node, children, nodes)
}

/// `e++`
pub fn postfix(target: Operand, operator: &Lexeme, nodes: &mut Nodes) -> Result<Operand, NoMemory>
    ensures grows { IfOk result (λ _. Grows nodes.old nodes.new) }
    ensures postfix { IfOk result (λ operand. (e : Phrase)
        → Stands nodes.old target e → Stands nodes.new operand (Postfix e operator.now)) }
{
    let target = target.single(nodes)?;
    let node = Node {
        form: Form::Postfix,
        start: target.start,
        end: operator.end,
        symbol: Some(operator.symbol.share()?),
    };
    let made = Made {
        level: 15,
        is_target: false,
        height: deeper(target.height),
    };
    operand_over(made, node, &[target.node], nodes)
}

/// `-e` and `++e`
pub fn prefix(
    start: usize,
    symbol: Symbol,
    operand: Operand,
    nodes: &mut Nodes,
) -> Result<Operand, NoMemory>
    ensures grows { IfOk result (λ _. Grows nodes.old nodes.new) }
    ensures signed { IfOk result (λ made. (k : Lexeme) (e : Phrase) → start ≡ k.start
        → symbol ≡ k.symbol → Stands nodes.old operand e → Stands nodes.new made (Signed k e)) }
    ensures stepped { IfOk result (λ made. (k : Lexeme) (e : Phrase) → start ≡ k.start
        → symbol ≡ k.symbol → Stands nodes.old operand e → Stands nodes.new made (Stepped k e)) }
{
    let operand = operand.single(nodes)?;
    let node = Node {
        form: Form::Prefix,
        start: start,
        end: operand.end,
        symbol: Some(symbol),
    };
    let made = Made {
        level: 14,
        is_target: false,
        height: deeper(operand.height),
    };
    operand_over(made, node, &[operand.node], nodes)
}

/// `a + b`
pub fn binary(
    left: Single,
    symbol: Symbol,
    strength: u8,
    right: Operand,
    nodes: &mut Nodes,
) -> Result<Operand, NoMemory>
    ensures grows { IfOk result (λ _. Grows nodes.old nodes.new) }
    ensures binary { IfOk result (λ operand. (a b : Phrase) (k : Lexeme) → symbol ≡ k.symbol
        → strength ≡ strength_of k → IsSingle nodes.old left a → Stands nodes.old right b
        → Stands nodes.new operand (Binary a k b)) }
{
    let right = right.single(nodes)?;
    let node = Node {
        form: Form::Binary,
        start: left.start,
        end: right.end,
        symbol: Some(symbol),
    };
    let made = Made {
        level: strength,
        is_target: false,
        height: left.height.max(deeper(right.height)),
    };
    operand_over(made, node, &[left.node, right.node], nodes)
}

/// `a ? b : c`
pub fn choice(
    test: Single,
    chosen: Single,
    other: Operand,
    nodes: &mut Nodes,
) -> Result<Operand, NoMemory>
    ensures grows { IfOk result (λ _. Grows nodes.old nodes.new) }
    ensures choice { IfOk result (λ operand. (a b d : Phrase) (q c : Lexeme)
        → IsSingle nodes.old test a → IsSingle nodes.old chosen b → Stands nodes.old other d
        → Stands nodes.new operand (Choice a q b c d)) }
{
    let other = other.single(nodes)?;
    let node = Node {
        form: Form::Choice,
        start: test.start,
        end: other.end,
        symbol: None,
    };
    let made = Made {
        level: 2,
        is_target: false,
        height: deeper(test.height.max(chosen.height.max(other.height))),
    };
    operand_over(made, node, &[test.node, chosen.node, other.node], nodes)
}

/// `a = b`
pub fn assignment(
    target: Single,
    symbol: Symbol,
    value: Operand,
    nodes: &mut Nodes,
) -> Result<Operand, NoMemory>
    ensures grows { IfOk result (λ _. Grows nodes.old nodes.new) }
    ensures assignment { IfOk result (λ operand. (a b : Phrase) (k : Lexeme) → symbol ≡ k.symbol
        → IsSingle nodes.old target a → Stands nodes.old value b
        → Stands nodes.new operand (Assign a k b)) }
{
    let value = value.single(nodes)?;
    let node = Node {
        form: Form::Assignment,
        start: target.start,
        end: value.end,
        symbol: Some(symbol),
    };
    let made = Made {
        level: 2,
        is_target: false,
        height: deeper(target.height.max(value.height)),
    };
    operand_over(made, node, &[target.node, value.node], nodes)
}

/// `a, b`, which may go on: no node yet.
pub fn list(front: Operand, last: Operand, nodes: &mut Nodes) -> Result<Operand, NoMemory>
    ensures grows { IfOk result (λ _. Grows nodes.old nodes.new) }
    ensures list { IfOk result (λ operand. (a b : Phrase) (k : Lexeme) → Stands nodes.old front a
        → Stands nodes.old last b → Stands nodes.new operand (Comma a k b)) }
{
    let last = last.single(nodes)?;
    let height = front.height.max(last.height);
    let start = front.start;
    let mut parts = front.parts(nodes)?;
    parts.push(last.node)?;
    Ok(Operand {
        level: 1,
        is_target: false,
        height,
        start,
        end: last.end,
        content: Content::Parts(parts),
    })
}

// What is called, and then its arguments.
fn children_of(callee: Single, arguments: Operand, nodes: &Nodes) -> Result<Vec<u32>, NoMemory>
    ensures { IfOk result (λ children. (f e : Phrase)
        → IsSingle nodes.now callee f → Stands nodes.now arguments e
        → StandAt (OneMore (tree_of f) (parts_of e)) nodes.now children.items) }
{
    let mut children = Vec::new(nodes.alloc());
    children.push(callee.node)?;
    let parts = arguments.parts(nodes)?;
    children.extend_from_slice(parts.as_slice())?;
    Ok(children)
}
