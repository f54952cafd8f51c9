//! Elements as selectors see them.

ghost use Rattle.std.specs.Prelude.{◌≡◌, ◌<◌, codes, length, option_map, IfOk};
ghost use Rattle.std.specs.List.{list_any};
ghost use Rattle.bml_bytes.specs.Words.{is_same};
ghost use Rattle.dom_tree.specs.Items.{value_of};
ghost use Rattle.style_reader.specs.Values.{words_of as spec_words_of};
ghost use Rattle.style_cascade.specs.Candidates.{inline_rules as spec_inline_rules};
ghost use Rattle.style_cascade.specs.devices.Kept.{styled_by};
ghost use Rattle.style_cascade.specs.Matching.{has_mark as spec_has_mark, has_tag as spec_has_tag, is_for_state as spec_is_for_state, matches as spec_matches, subject_of as spec_subject_of, words_in};

use crate::states::State;
use bml_bytes::{NoMemory, Sequence, Text};
use dom_tree::{NodeId, Tree};
use std::alloc::Global;
use style_reader::{Mark, PseudoClass, Rules, Selector, next_word, read_inline};

/// What styles ask of an element.
#[derive(Drop)]
pub struct Subject {
    pub tag: Text,
    pub id: Option<Text>,
    pub classes: Sequence<Text>,
    pub style: Option<Text>,
}

/// An element, and the rules of its attribute `style`.
#[derive(Drop)]
pub struct Styled {
    pub subject: Subject,
    pub inline: Rules,
}

// What the attributes of an element say to styles.
#[derive(Drop)]
struct Attributes {
    id: Option<Text>,
    classes: Sequence<Text>,
    style: Option<Text>,
}

/// The names of the attributes that styles ask for.
#[derive(Drop)]
pub struct Names {
    pub id: Text,
    pub class: Text,
    pub style: Text,
    ghost id_is: { id ≡ codes "id" },
    ghost class_is: { class ≡ codes "class" },
    ghost style_is: { style ≡ codes "style" },
}

impl Names {
    pub fn new(alloc: Global) -> Result<Names, NoMemory> {
        let id = Text::of_bytes(alloc, b"id")?;
        let class = Text::of_bytes(alloc, b"class")?;
        let style = Text::of_bytes(alloc, b"style")?;
        Ok(Names { id, class, style })
    }
}

impl Subject {
    /// Whether the selector matches the element in the state.
    #[tactic(auto, unfolding(crate::specs::Matching::matches))]
    pub fn matches(&self, selector: &Selector, state: State) -> bool
        ensures { result ≡ spec_matches selector.now self.now state }
    {
        self.has_tag(&selector.tag)
            && self.has_mark(&selector.mark)
            && is_for_state(selector.pseudo_class, state)
    }

    fn has_tag(&self, tag: &Option<Text>) -> bool
        ensures { result ≡ spec_has_tag tag.now self.now }
    {
        match tag {
            None => true,
            Some(tag) => self.tag == *tag,
        }
    }

    fn has_mark(&self, mark: &Option<Mark>) -> bool
        ensures { result ≡ spec_has_mark mark.now self.now }
    {
        match mark {
            None => true,
            Some(Mark::Class(name)) => has_class(self.classes.as_slice(), name),
            Some(Mark::Id(name)) => match &self.id {
                Some(id) => *name == *id,
                None => false,
            },
        }
    }
}

impl Attributes {
    fn at(alloc: Global, tree: &Tree, names: &Names, node: NodeId) -> Result<Attributes, NoMemory>
        requires { node.0 < length tree.now }
        ensures id { IfOk result (λ found. found.id ≡ value_of tree.now node.0 (codes "id")) }
        ensures classes { IfOk result
            (λ found. found.classes ≡ words_in (value_of tree.now node.0 (codes "class"))) }
        ensures style { IfOk result
            (λ found. found.style ≡ value_of tree.now node.0 (codes "style")) }
    {
        let texts = texts_at(tree, names, node)?;
        let classes = classes_at(alloc, tree, node, &names.class)?;
        Ok(Attributes {
            id: texts.0,
            classes,
            style: texts.1,
        })
    }
}

impl Styled {
    // An element, with the rules of its inline text.
    fn of(alloc: Global, subject: Subject) -> Result<Styled, NoMemory>
        ensures { IfOk result (λ styled. styled ≡ styled_by subject) }
    {
        let inline = inline_rules(alloc, &subject)?;
        Ok(Styled { subject, inline })
    }
}

/// What styles ask of a node of a tree, with the rules of its inline text. None of a text.
pub fn styled_at(
    alloc: Global,
    tree: &Tree,
    names: &Names,
    node: NodeId,
) -> Result<Option<Styled>, NoMemory>
    requires { node.0 < length tree.now }
    ensures { IfOk result
        (λ styled. styled ≡ option_map styled_by (spec_subject_of tree.now node.0)) }
{
    match subject_at(alloc, tree, names, node)? {
        Some(subject) => {
            let styled = Styled::of(alloc, subject)?;
            Ok(Some(styled))
        }
        None => Ok(None),
    }
}

#[tactic(auto, unfolding(crate::specs::Matching::subject_of))]
fn subject_at(
    alloc: Global,
    tree: &Tree,
    names: &Names,
    node: NodeId,
) -> Result<Option<Subject>, NoMemory>
    requires { node.0 < length tree.now }
    ensures { IfOk result (λ subject. subject ≡ spec_subject_of tree.now node.0) }
{
    let Some(tag) = tree.tag(node) else {
        return Ok(None);
    };
    let tag = tag.share()?;
    let attributes = Attributes::at(alloc, tree, names, node)?;
    Ok(Some(Subject {
        tag,
        id: attributes.id,
        classes: attributes.classes,
        style: attributes.style,
    }))
}

// The values of `id` and `style`.
fn texts_at(
    tree: &Tree,
    names: &Names,
    node: NodeId,
) -> Result<(Option<Text>, Option<Text>), NoMemory>
    requires { node.0 < length tree.now }
    ensures id { IfOk result (λ texts. texts.0 ≡ value_of tree.now node.0 (codes "id")) }
    ensures style { IfOk result (λ texts. texts.1 ≡ value_of tree.now node.0 (codes "style")) }
{
    let id = attribute_at(tree, node, &names.id)?;
    let style = attribute_at(tree, node, &names.style)?;
    Ok((id, style))
}

fn attribute_at(tree: &Tree, node: NodeId, name: &Text) -> Result<Option<Text>, NoMemory>
    requires { node.0 < length tree.now }
    ensures { IfOk result (λ value. value ≡ value_of tree.now node.0 name.now) }
{
    match tree.attribute(node, name) {
        Some(value) => {
            let value = value.share()?;
            Ok(Some(value))
        }
        None => Ok(None),
    }
}

fn inline_rules(alloc: Global, subject: &Subject) -> Result<Rules, NoMemory>
    ensures { IfOk result (λ rules. rules ≡ spec_inline_rules subject.now) }
{
    match &subject.style {
        Some(text) => read_inline(alloc, text),
        None => Ok(Rules::new(alloc)),
    }
}

// Whether the class is among them, case included.
fn has_class(classes: &[Text], name: &Text) -> bool
    ensures { result ≡ list_any (is_same name.now) classes.now }
{
    let mut rest = classes;
    'classes: while let Some((first, more)) = rest.split_first() {
        if *name == *first {
            return true;
        }
        rest = more;
    }
    false
}

// The words of a text, parted by white.
fn words_of(alloc: Global, text: &Text) -> Result<Vec<Text>, NoMemory>
    ensures { IfOk result (λ words. words.items ≡ spec_words_of text.now) }
{
    let mut words = Vec::new(alloc);
    let mut rest = text.codes();
    'words: while let Some((first, more)) = next_word(rest) {
        let word = Text::of_codes(alloc, first)?;
        words.push(word)?;
        rest = more;
    }
    Ok(words)
}

// The classes of an element.
fn classes_at(
    alloc: Global,
    tree: &Tree,
    node: NodeId,
    name: &Text,
) -> Result<Sequence<Text>, NoMemory>
    requires { node.0 < length tree.now }
    ensures { IfOk result (λ classes. classes ≡ words_in (value_of tree.now node.0 name.now)) }
{
    let words = match tree.attribute(node, name) {
        Some(text) => words_of(alloc, text)?,
        None => Vec::new(alloc),
    };
    Ok(Sequence::from(words))
}

fn is_for_state(pseudo_class: Option<PseudoClass>, state: State) -> bool
    ensures { result ≡ spec_is_for_state pseudo_class state }
{
    match (pseudo_class, state) {
        (None, _) => true,
        (Some(PseudoClass::Focus), State::Focus) => true,
        (Some(PseudoClass::Active), State::Active) => true,
        _ => false,
    }
}
