//! The texts that a document has for a node: what was given for the need that the node names, and
//! what is in the element itself.

ghost use Rattle.std.specs.Prelude.{◌≡◌, ◌++◌, ◌+◌, ◌<◌, [], IfOk, OnOk, length, option_copied};
ghost use Rattle.std.specs.Option.{unwrap_or};
ghost use Rattle.document_load.specs.StyleTexts.{child_text, given_for, own_text};
ghost use Rattle.document_load.specs.GiftViews.{Reaches};

use bml_bytes::{NoMemory, Text};
use dom_tree::{NodeId, Tree, law_of_children, law_of_parents};
use std::alloc::Global;

/// What was given for the need at a place, where the node of that number names it, and the place of
/// the first need of the nodes behind it.
pub fn gift_at<'a>(
    named: &[u32],
    given: &'a [Option<Text>],
    place: usize,
    number: u32,
) -> (Option<&'a Text>, usize)
    requires one_each { length given.now ≡ length named.now }
    requires reached { Reaches named.now given.now place number }
    ensures gift { unwrap_or (option_copied result.0) [] ≡ given_for named.now given.now number }
    ensures next { Reaches named.now given.now result.1 (number + 1) }
{
    if place < named.len() && named[place] == number {
        (given[place].as_ref(), place + 1)
    } else {
        (None, place)
    }
}

/// What was given, without a copy, and the empty text where nothing was.
pub fn shared_text(alloc: Global, gift: Option<&Text>) -> Result<Text, NoMemory>
    ensures { IfOk result (λ text. text ≡ unwrap_or (option_copied gift.entry) []) }
{
    match gift {
        Some(text) => text.share(),
        None => Text::of_codes(alloc, &[]),
    }
}

/// The text in an element itself: those of its children that are texts, joined.
pub fn own_text(alloc: Global, tree: &Tree, node: NodeId) -> Result<Text, NoMemory>
    requires { node.0 < length tree.now }
    ensures { IfOk result (λ text. text ≡ own_text tree.now node.0) }
{
    law_of_children();
    law_of_parents();
    let mut codes = Vec::new(alloc);
    let mut next = tree.first_child(node);
    'children: while let Some(child) = next {
        push_child_text(tree, child, &mut codes)?;
        next = tree.next_sibling(child);
    }
    let text = Text::of_codes(alloc, codes.as_slice())?;
    Ok(text)
}

// Appends the codes of a child that is a text.
fn push_child_text(tree: &Tree, child: NodeId, codes: &mut Vec<u16>) -> Result<(), NoMemory>
    requires { child.0 < length tree.now }
    ensures { OnOk result (codes.new.items ≡ codes.old.items ++ child_text tree.now child.0) }
{
    if let Some(text) = tree.text(child) {
        codes.extend_from_slice(text.codes())?;
    }
    Ok(())
}
