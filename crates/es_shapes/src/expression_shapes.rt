//! Which expressions nodes are, form by form. What lacks a part is `this`.

ghost use Rattle.std.specs.Prelude.{◌≡◌, IfOk, List};
ghost use Rattle.es_expressions.specs.declared.nodes.Form.TheVariants as form;
ghost use Rattle.es_reader.specs.Programs.{ToldProgram};
ghost use Rattle.es_shapes.specs.declared.codes.Code.{Code};
ghost use Rattle.es_shapes.specs.devices.Parts.{expression_at, parts_from};
ghost use Rattle.es_shapes.specs.devices.Decoding.{formed};
ghost use Rattle.es_shapes.specs.devices.Shapes.{shaped};
ghost use Rattle.es_shapes.specs.Sources.{assigned_by, is_decrement as is_decrement_mark, joined_by, operator_of_mark, of_leaf, of_list, of_three, of_two, signed_by_mark, signed_by_word, target_of};
ghost use Rattle.es_shapes.specs.Syntax.Expression.{Call, Choice, Index, New};

use crate::codes::{Code, part, two_parts};
use crate::operators::{Operator, Sign};
use crate::shapes::Shape;
use bml_bytes::NoMemory;
use es_expressions::{Form, Node, Symbol};
use es_lexer::{Punctuator, ReservedWord};
use es_reader::Program;

/// The expression of a node.
#[tactic(auto, unfolding(crate::specs::devices::Shapes::shaped))]
pub fn expression_shape(programs: &[Program], code: Code, node: &Node) -> Result<Shape, NoMemory>
    ensures { IfOk result (λ shape. shaped programs.now code shape
        ≡ formed programs.now code node.now.form node.now.symbol) }
{
    match node.form {
        Form::Name | Form::Number | Form::Text => leaf(&node.symbol),
        Form::Null => Ok(Shape::Null),
        Form::True => Ok(Shape::Truth(true)),
        Form::False => Ok(Shape::Truth(false)),
        Form::Index => Ok(index(programs, code)),
        Form::Member => member(programs, code, &node.symbol),
        Form::Call => Ok(call(programs, code)),
        Form::New => Ok(new(programs, code)),
        Form::Postfix => Ok(postfix(programs, code, &node.symbol)),
        Form::Prefix => Ok(prefix(programs, code, &node.symbol)),
        Form::Binary => Ok(binary(programs, code, &node.symbol)),
        Form::Choice => Ok(choice(programs, code)),
        Form::Assignment => Ok(assignment(programs, code, &node.symbol)),
        Form::Comma => Ok(Shape::Comma),
        _ => Ok(Shape::This),
    }
}

// A name, a number or a text.
#[tactic(auto, unfolding(crate::specs::devices::Shapes::shaped))]
fn leaf(symbol: &Option<Symbol>) -> Result<Shape, NoMemory>
    ensures { IfOk result (λ shape. (programs : List ToldProgram) (code : Code)
        → shaped programs code shape ≡ of_leaf symbol.now) }
{
    match symbol {
        Some(Symbol::Name(name)) => Ok(Shape::Name(name.share()?)),
        Some(Symbol::Number(number)) => Ok(Shape::Number(*number)),
        Some(Symbol::Words(words)) => Ok(Shape::Text(words.share()?)),
        _ => Ok(Shape::This),
    }
}

// `base[key]`.
#[tactic(auto, using(crate::proofs::ShapeLemmas::two_parts), unfolding(crate::specs::devices::Shapes::shaped))]
fn index(programs: &[Program], code: Code) -> Shape
    ensures { shaped programs.now code result ≡ of_two Index (parts_from programs.now code 0) }
{
    match two_parts(programs, code, 0) {
        Some((base, key)) => Shape::Index(base, key),
        None => Shape::This,
    }
}

// `base.name`.
#[tactic(auto, using(crate::proofs::ShapeLemmas::one_part), unfolding(crate::specs::devices::Shapes::shaped))]
fn member(programs: &[Program], code: Code, symbol: &Option<Symbol>) -> Result<Shape, NoMemory>
    ensures { IfOk result (λ shape. shaped programs.now code shape
        ≡ formed programs.now code form.Member symbol.now) }
{
    match (symbol, part(programs, code, 0)) {
        (Some(Symbol::Name(name)), Some(base)) => Ok(Shape::Member(base, name.share()?)),
        _ => Ok(Shape::This),
    }
}

// `callee(..)`.
#[tactic(auto, using(crate::proofs::ShapeLemmas::listed_parts), unfolding(crate::specs::devices::Shapes::shaped))]
fn call(programs: &[Program], code: Code) -> Shape
    ensures { shaped programs.now code result ≡ of_list Call (parts_from programs.now code 0) }
{
    match part(programs, code, 0) {
        Some(callee) => Shape::Call(callee),
        None => Shape::This,
    }
}

// `new callee(..)`.
#[tactic(auto, using(crate::proofs::ShapeLemmas::listed_parts), unfolding(crate::specs::devices::Shapes::shaped))]
fn new(programs: &[Program], code: Code) -> Shape
    ensures { shaped programs.now code result ≡ of_list New (parts_from programs.now code 0) }
{
    match part(programs, code, 0) {
        Some(callee) => Shape::New(callee),
        None => Shape::This,
    }
}

// `target++` and `target--`.
#[tactic(auto, using(crate::proofs::ShapeLemmas::one_part), unfolding(crate::specs::devices::Shapes::shaped))]
fn postfix(programs: &[Program], code: Code, symbol: &Option<Symbol>) -> Shape
    ensures { shaped programs.now code result
        ≡ formed programs.now code form.Postfix symbol.now }
{
    match (symbol, part(programs, code, 0)) {
        (Some(Symbol::Mark(mark)), Some(target)) => {
            Shape::Stepped(false, is_decrement(*mark), target)
        }
        _ => Shape::This,
    }
}

// Whether it is `--`.
fn is_decrement(mark: Punctuator) -> bool
    ensures { result ≡ is_decrement_mark mark }
{
    matches!(mark, Punctuator::Decrement)
}

// An expression with an operator in front.
#[tactic(auto, using(crate::proofs::ShapeLemmas::one_part), unfolding(crate::specs::devices::Shapes::shaped))]
fn prefix(programs: &[Program], code: Code, symbol: &Option<Symbol>) -> Shape
    ensures { shaped programs.now code result
        ≡ formed programs.now code form.Prefix symbol.now }
{
    match (symbol, part(programs, code, 0)) {
        (Some(Symbol::Mark(mark)), Some(operand)) => signed_by(*mark, operand),
        (Some(Symbol::Word(word)), Some(operand)) => worded_by(*word, operand),
        _ => Shape::This,
    }
}

// An expression with a mark in front.
#[tactic(auto, unfolding(crate::specs::devices::Shapes::shaped))]
fn signed_by(mark: Punctuator, operand: Code) -> Shape
    ensures { (programs : List ToldProgram) (code : Code) → shaped programs code result
        ≡ signed_by_mark mark (expression_at programs operand) }
{
    match mark {
        Punctuator::Minus => Shape::Signed(Sign::Minus, operand),
        Punctuator::Complement => Shape::Signed(Sign::Complement, operand),
        Punctuator::Not => Shape::Signed(Sign::Not, operand),
        Punctuator::Increment => Shape::Stepped(true, false, operand),
        Punctuator::Decrement => Shape::Stepped(true, true, operand),
        _ => Shape::Signed(Sign::Plus, operand),
    }
}

// An expression with a word in front.
#[tactic(auto, unfolding(crate::specs::devices::Shapes::shaped))]
fn worded_by(word: ReservedWord, operand: Code) -> Shape
    ensures { (programs : List ToldProgram) (code : Code) → shaped programs code result
        ≡ signed_by_word word (expression_at programs operand) }
{
    match word {
        ReservedWord::Delete => Shape::Delete(operand),
        ReservedWord::Typeof => Shape::Typeof(operand),
        _ => Shape::Void(operand),
    }
}

// Two operands with an operator between them.
#[tactic(auto, using(crate::proofs::ShapeLemmas::two_parts), unfolding(crate::specs::devices::Shapes::shaped))]
fn binary(programs: &[Program], code: Code, symbol: &Option<Symbol>) -> Shape
    ensures { shaped programs.now code result
        ≡ formed programs.now code form.Binary symbol.now }
{
    match (symbol, two_parts(programs, code, 0)) {
        (Some(Symbol::Mark(mark)), Some((left, right))) => joined(*mark, left, right),
        _ => Shape::This,
    }
}

// The expression that a mark makes of two.
#[tactic(auto, unfolding(crate::specs::devices::Shapes::shaped))]
fn joined(mark: Punctuator, left: Code, right: Code) -> Shape
    ensures { (programs : List ToldProgram) (code : Code) → shaped programs code result
        ≡ joined_by mark (expression_at programs left) (expression_at programs right) }
{
    match mark {
        Punctuator::LogicalAnd => Shape::And(left, right),
        Punctuator::LogicalOr => Shape::Or(left, right),
        _ => Shape::Binary(operator_of(mark), left, right),
    }
}

// A choice of two by a test.
#[tactic(auto, using(crate::proofs::ShapeLemmas::three_parts), unfolding(crate::specs::devices::Shapes::shaped))]
fn choice(programs: &[Program], code: Code) -> Shape
    ensures { shaped programs.now code result ≡ of_three Choice (parts_from programs.now code 0) }
{
    match (two_parts(programs, code, 0), part(programs, code, 2)) {
        (Some((test, first)), Some(second)) => Shape::Choice(test, first, second),
        _ => Shape::This,
    }
}

// `target = value`, or with an operator.
#[tactic(auto, using(crate::proofs::ShapeLemmas::two_parts), unfolding(crate::specs::devices::Shapes::shaped))]
fn assignment(programs: &[Program], code: Code, symbol: &Option<Symbol>) -> Shape
    ensures { shaped programs.now code result
        ≡ formed programs.now code form.Assignment symbol.now }
{
    match (symbol, two_parts(programs, code, 0)) {
        (Some(Symbol::Mark(mark)), Some((target, value))) => assigned(*mark, target, value),
        _ => Shape::This,
    }
}

// The assignment that a mark makes.
#[tactic(auto, unfolding(crate::specs::devices::Shapes::shaped))]
fn assigned(mark: Punctuator, target: Code, value: Code) -> Shape
    ensures { (programs : List ToldProgram) (code : Code) → shaped programs code result
        ≡ assigned_by mark (target_of (expression_at programs target))
        (expression_at programs value) }
{
    match mark {
        Punctuator::Assign => Shape::Assign(target, value),
        _ => Shape::Update(operator_of(mark), target, value),
    }
}

// The operator of a mark that is a binary operator, or of an assignment with one.
fn operator_of(mark: Punctuator) -> Operator
    ensures { result ≡ operator_of_mark mark }
{
    match mark {
        Punctuator::Times | Punctuator::TimesAssign => Operator::Times,
        Punctuator::Divide | Punctuator::DivideAssign => Operator::Divide,
        Punctuator::Remainder | Punctuator::RemainderAssign => Operator::Remainder,
        Punctuator::Minus | Punctuator::MinusAssign => Operator::Minus,
        Punctuator::ShiftLeft | Punctuator::ShiftLeftAssign => Operator::ShiftLeft,
        Punctuator::ShiftRight | Punctuator::ShiftRightAssign => Operator::ShiftRight,
        Punctuator::UnsignedShiftRight | Punctuator::UnsignedShiftRightAssign => {
            Operator::UnsignedShiftRight
        }
        Punctuator::Less => Operator::Less,
        Punctuator::Greater => Operator::Greater,
        Punctuator::LessOrEqual => Operator::LessOrEqual,
        Punctuator::GreaterOrEqual => Operator::GreaterOrEqual,
        Punctuator::Equal => Operator::Equal,
        Punctuator::NotEqual => Operator::NotEqual,
        Punctuator::StrictEqual => Operator::StrictEqual,
        Punctuator::StrictNotEqual => Operator::StrictNotEqual,
        Punctuator::BitAnd | Punctuator::AndAssign => Operator::BitAnd,
        Punctuator::BitXor | Punctuator::XorAssign => Operator::BitXor,
        Punctuator::BitOr | Punctuator::OrAssign => Operator::BitOr,
        _ => Operator::Plus,
    }
}
