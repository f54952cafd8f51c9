//! What comes of a lock.

/// What comes of the wish to lock a module.
#[derive(Clone, Copy, Debug, PartialEq, Eq)]
pub enum LockAnswer {
    /// The module is held, and is kept from now on.
    Kept,
    /// It is kept already.
    Had,
    /// It isn't held yet, and will be kept from when it is.
    Wanted,
    /// It has no entry in force, or its entry is skipped.
    NoEntry,
    /// No lock stands on it, and so many stand on others as there may be.
    Full,
}
