//! What a token does in an expression: in front of an operand, and behind one.

ghost use Rattle.std.specs.Prelude.{◌≡◌};
ghost use Rattle.es_expressions.specs.Roles.{front_of as spec_front_of, mark_front, word_front};
ghost use Rattle.es_expressions.specs.Roles.{joint_of as spec_joint_of, mark_joint};
ghost use Rattle.es_expressions.specs.Roles.{joint as spec_joint};
ghost use Rattle.es_expressions.specs.Machine.{reach as spec_reach, is_close as spec_is_close};

use crate::lexemes::{Lexeme, Symbol};
use es_lexer::{Punctuator, ReservedWord};

/// What a token is where an operand is to come.
#[derive(Clone, Copy, Debug)]
pub enum Front {
    /// The whole of an operand: `this`, a name, `null`, `true`, `false`, a number or a text.
    Whole,
    /// `(`
    Group,
    /// `new`
    Creation,
    /// An operator in front: `delete`, `void`, `typeof`, `+`, `-`, `~`, `!`.
    Sign,
    /// `++` or `--`
    Step,
    /// Nothing that an operand begins with.
    Nothing,
}

/// What a token is behind an operand.
#[derive(Clone, Copy, Debug)]
pub enum Joint {
    /// `.`
    Dot,
    /// `[`
    Key,
    /// `(`
    Call,
    /// `++` or `--`, with no line break in front.
    Step,
    /// A binary operator, with its strength: 4 for `||` to 13 for `*`, `/` and `%`.
    Operator(u8),
    /// `?`
    Choice,
    /// `=` or another assignment operator.
    Assignment,
    /// `,`
    Comma,
    /// `)`
    Close,
    /// `]`
    KeyEnd,
    /// `:`
    Colon,
    /// Nothing that goes on with an expression.
    Nothing,
}

impl Joint {
    /// Whether it is `)`.
    pub fn is_close(self) -> bool
        ensures { result ≡ spec_is_close self }
    {
        matches!(self, Joint::Close)
    }

    /// How far the token reaches: the greatest level of an operand to come for which it goes on
    /// with what stands there, and 0 for a token that ends forms.
    pub fn reach(self) -> u8
        ensures { result ≡ spec_reach self }
    {
        match self {
            Joint::Dot | Joint::Key => 18,
            Joint::Call => 17,
            Joint::Step => 15,
            Joint::Operator(strength) => strength,
            Joint::Choice | Joint::Assignment => 2,
            Joint::Comma => 1,
            Joint::Close | Joint::KeyEnd | Joint::Colon | Joint::Nothing => 0,
        }
    }
}

#[tactic(auto, unfolding(crate::specs::Roles::front_of))]
pub fn front_of(symbol: &Symbol) -> Front
    ensures { result ≡ spec_front_of symbol.now }
{
    match symbol {
        Symbol::Name(_) | Symbol::Number(_) | Symbol::Words(_) => Front::Whole,
        Symbol::Word(word) => front_of_word(*word),
        Symbol::Mark(mark) => front_of_mark(*mark),
    }
}

#[tactic(auto, unfolding(crate::specs::Roles::word_front))]
fn front_of_word(word: ReservedWord) -> Front
    ensures { result ≡ word_front word }
{
    match word {
        ReservedWord::This | ReservedWord::Null | ReservedWord::True | ReservedWord::False => {
            Front::Whole
        }
        ReservedWord::New => Front::Creation,
        ReservedWord::Delete | ReservedWord::Void | ReservedWord::Typeof => Front::Sign,
        _ => Front::Nothing,
    }
}

#[tactic(auto, unfolding(crate::specs::Roles::mark_front))]
fn front_of_mark(mark: Punctuator) -> Front
    ensures { result ≡ mark_front mark }
{
    match mark {
        Punctuator::OpenParenthesis => Front::Group,
        Punctuator::Plus | Punctuator::Minus | Punctuator::Complement | Punctuator::Not => {
            Front::Sign
        }
        Punctuator::Increment | Punctuator::Decrement => Front::Step,
        _ => Front::Nothing,
    }
}

/// What the token does behind an operand. A `++` or `--` behind a line break does nothing there.
#[tactic(auto, unfolding(crate::specs::Roles::joint))]
pub fn joint_of(lexeme: &Lexeme) -> Joint
    ensures { result ≡ spec_joint lexeme.now }
{
    match joint_of_symbol(&lexeme.symbol) {
        Joint::Step if lexeme.after_break => Joint::Nothing,
        other => other,
    }
}

#[tactic(auto, unfolding(crate::specs::Roles::joint_of))]
fn joint_of_symbol(symbol: &Symbol) -> Joint
    ensures { result ≡ spec_joint_of symbol.now }
{
    match symbol {
        Symbol::Mark(mark) => joint_of_mark(*mark),
        _ => Joint::Nothing,
    }
}

#[tactic(auto, unfolding(crate::specs::Roles::mark_joint))]
fn joint_of_mark(mark: Punctuator) -> Joint
    ensures { result ≡ mark_joint mark }
{
    match mark {
        Punctuator::Dot => Joint::Dot,
        Punctuator::OpenBracket => Joint::Key,
        Punctuator::OpenParenthesis => Joint::Call,
        Punctuator::Increment | Punctuator::Decrement => Joint::Step,
        Punctuator::LogicalOr => Joint::Operator(4),
        Punctuator::LogicalAnd => Joint::Operator(5),
        Punctuator::BitOr => Joint::Operator(6),
        Punctuator::BitXor => Joint::Operator(7),
        Punctuator::BitAnd => Joint::Operator(8),
        Punctuator::Equal | Punctuator::NotEqual => Joint::Operator(9),
        Punctuator::StrictEqual | Punctuator::StrictNotEqual => Joint::Operator(9),
        Punctuator::Less | Punctuator::Greater => Joint::Operator(10),
        Punctuator::LessOrEqual | Punctuator::GreaterOrEqual => Joint::Operator(10),
        Punctuator::ShiftLeft | Punctuator::ShiftRight => Joint::Operator(11),
        Punctuator::UnsignedShiftRight => Joint::Operator(11),
        Punctuator::Plus | Punctuator::Minus => Joint::Operator(12),
        Punctuator::Times | Punctuator::Divide | Punctuator::Remainder => Joint::Operator(13),
        Punctuator::Question => Joint::Choice,
        Punctuator::Assign | Punctuator::TimesAssign | Punctuator::DivideAssign => {
            Joint::Assignment
        }
        Punctuator::RemainderAssign | Punctuator::PlusAssign | Punctuator::MinusAssign => {
            Joint::Assignment
        }
        Punctuator::ShiftLeftAssign | Punctuator::ShiftRightAssign => Joint::Assignment,
        Punctuator::UnsignedShiftRightAssign => Joint::Assignment,
        Punctuator::AndAssign | Punctuator::XorAssign | Punctuator::OrAssign => Joint::Assignment,
        Punctuator::Comma => Joint::Comma,
        Punctuator::CloseParenthesis => Joint::Close,
        Punctuator::CloseBracket => Joint::KeyEnd,
        Punctuator::Colon => Joint::Colon,
        _ => Joint::Nothing,
    }
}
