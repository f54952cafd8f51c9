//! What became of a block.

/// What a carousel did with a block.
#[derive(Clone, Copy, Debug, PartialEq, Eq)]
pub enum Put {
    /// No unskipped entry of the DII in force asks for the block, or it is held already.
    Ignored,
    /// It is kept, and its module still lacks others.
    Kept,
    /// It was the last one that the module with this number lacked.
    Completed(u16),
}
