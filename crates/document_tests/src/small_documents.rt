//! Documents with their styles, for tests.

ghost use Rattle.std.specs.Prelude.{ℕ};
ghost use Rattle.style_cascade.specs.Keeping.{IsRight};
ghost use Rattle.style_cascade.specs.declared.states.State.{State};

use bml_bytes::Text;
use bml_reader::read_document;
use dom_tree::Tree;
use std::alloc::Global;
use std::process::Abort;
use style_cascade::{Focus, Styles};
use style_reader::{Rules, read_sheet};

/// Nothing has the focus.
pub const NO_FOCUS: Focus = Focus {
    focus: None,
    active: None,
};

pub fn word(rt: &impl Abort, alloc: Global, bytes: &[u8]) -> Text {
    Text::of_bytes(alloc, bytes).expect(rt, "memory")
}

/// The tree of bytes that the tests know to be a document.
pub fn tree_of(rt: &impl Abort, alloc: Global, bytes: &[u8]) -> Tree {
    read_document(alloc, bytes).expect(rt, "a document")
}

/// The styles of a document with this sheet.
pub fn styles_of(rt: &impl Abort, alloc: Global, tree: &Tree, sheet: &[u8]) -> Styles
    ensures { (states : ℕ → State) → IsRight tree.now states result }
{
    let mut rules = Rules::new(alloc);
    read_sheet(&word(rt, alloc, sheet), &mut rules).expect(rt, "memory");
    Styles::new(alloc, tree, rules).expect(rt, "memory")
}
