//! What a call of a built-in answers.

use es_values::Value as AnyValue;

/// What a call of a built-in answers: a value, that nothing can be called so, or that its charge
/// passes what is left, and then nothing was done.
#[derive(Debug, Drop)]
pub enum Built {
    Value(AnyValue),
    NotCallable,
    OverBudget,
}
