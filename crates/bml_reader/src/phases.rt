//! Where in a document the reader is.

/// Before a document type, before the root, inside the root, or behind it.
#[derive(Clone, Copy)]
pub enum Phase {
    BeforeDoctype,
    BeforeRoot,
    Inside,
    Behind,
}
