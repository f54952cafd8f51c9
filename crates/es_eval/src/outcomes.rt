//! How a script ends.

/// Why a script was stopped.
#[derive(Clone, Copy, Debug, PartialEq, Eq)]
pub enum StopCause {
    /// Fewer steps are left than are taken next.
    Budget,
    /// A call would be nested too deep.
    Depth,
    /// What is called is no function.
    NotCallable,
    /// A member of Undefined or Null is read, written or called.
    NotObject,
    /// A name that nothing has.
    Unresolved,
}

/// How a script ended: at its end, where its host ended it, or where it was stopped.
#[derive(Clone, Copy, Debug, PartialEq, Eq)]
pub enum Outcome {
    Normal,
    Ended,
    Stopped(StopCause),
}
