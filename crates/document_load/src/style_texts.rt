//! The style texts of a document, and the rules that they give.

ghost use Rattle.std.specs.Prelude.{◌≡◌, ◌++◌, ◌<◌, [], IfOk, OnOk, length, option_copied};
ghost use Rattle.std.specs.Option.{option_map_or, unwrap_or};
ghost use Rattle.style_reader.specs.Readings.{rules_of};
ghost use Rattle.document_load.specs.StyleTexts.{rules_by_texts, text_at};
ghost use Rattle.document_load.specs.GiftViews.{AscendsFrom};

use crate::node_texts::{gift_at, own_text, shared_text};
use bml_bytes::{NoMemory, Text};
use dom_tree::{NodeId, Tree};
use std::alloc::Global;
use style_reader::{Rules, read_sheet};

/// The rules of the style texts of a document, in document order. The nodes with these numbers name
/// its needs, for which this was given. Each node is looked at once, and once more where it hangs
/// in a `style`.
pub fn rules_of_styles(
    alloc: Global,
    tree: &Tree,
    named: &[u32],
    given: &[Option<Text>],
) -> Result<Rules, NoMemory>
    requires ascending { AscendsFrom 0 named.now }
    requires one_each { length given.now ≡ length named.now }
    ensures { IfOk result (λ rules. rules ≡ rules_by_texts tree.now named.now given.now) }
{
    let mut rules = Rules::new(alloc);
    let mut place = 0;
    'nodes: for number in 0..tree.node_count() {
        let (gift, next_place) = gift_at(named, given, place, number);
        push_rules(alloc, tree, NodeId(number), gift, &mut rules)?;
        place = next_place;
    }
    Ok(rules)
}

// Appends the rules of the style text that a node is, where it is one, with what was given for its
// need.
fn push_rules(
    alloc: Global,
    tree: &Tree,
    node: NodeId,
    gift: Option<&Text>,
    rules: &mut Rules,
) -> Result<(), NoMemory>
    requires { node.0 < length tree.now }
    ensures { OnOk result (rules.new ≡ rules.old ++ option_map_or rules_of
        (text_at tree.now node.0 (unwrap_or (option_copied gift.entry) [])) []) }
{
    match style_text(alloc, tree, node, gift)? {
        Some(text) => read_sheet(&text, rules),
        None => Ok(()),
    }
}

// The style text that a node is, with what was given for its need.
fn style_text(
    alloc: Global,
    tree: &Tree,
    node: NodeId,
    gift: Option<&Text>,
) -> Result<Option<Text>, NoMemory>
    requires { node.0 < length tree.now }
    ensures { IfOk result
        (λ text. text ≡ text_at tree.now node.0 (unwrap_or (option_copied gift.entry) [])) }
{
    let Some(tag) = tree.tag(node) else {
        return Ok(None);
    };
    if tag.is_word("style") {
        let text = own_text(alloc, tree, node)?;
        return Ok(Some(text));
    }
    if tag.is_word("link") {
        let text = shared_text(alloc, gift)?;
        return Ok(Some(text));
    }
    Ok(None)
}
