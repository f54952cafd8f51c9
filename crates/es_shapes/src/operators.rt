//! Operators of scripts.

/// A binary operator that reads both of its operands (ECMA-262 second edition, 11.5 to 11.10; `===`
/// and `!==` are the third edition's, 11.9.4 and 11.9.5).
#[derive(Clone, Copy, Debug, PartialEq, Eq)]
pub enum Operator {
    Times,
    Divide,
    Remainder,
    Plus,
    Minus,
    ShiftLeft,
    ShiftRight,
    UnsignedShiftRight,
    Less,
    Greater,
    LessOrEqual,
    GreaterOrEqual,
    Equal,
    NotEqual,
    StrictEqual,
    StrictNotEqual,
    BitAnd,
    BitXor,
    BitOr,
}

/// An operator in front of a value (11.4.6 to 11.4.9).
#[derive(Clone, Copy, Debug, PartialEq, Eq)]
pub enum Sign {
    Plus,
    Minus,
    Complement,
    Not,
}
