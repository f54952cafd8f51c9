//! Where the reader of an expression stands.

use crate::operands::{Operand, Single};

/// Before an operand, behind one, or behind one and a `.`.
#[derive(Drop)]
pub enum Place {
    Before,
    Behind(Operand),
    Naming(Single),
}

/// The reader took the token and stands behind it, or left it and stands before it.
#[derive(Drop)]
pub enum Step {
    Taken(Place),
    Left(Place),
}
