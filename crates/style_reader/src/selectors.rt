//! Selectors.

ghost use Rattle.std.specs.Prelude.{◌≡◌, IfOk, option_map, position};
ghost use Rattle.style_reader.specs.Readings.{asked_tag, asked_of as spec_asked_of, before_pseudo_class, begins_mark, mark_of as spec_mark_of, marked as spec_marked, pseudo_class_of as spec_pseudo_class_of, selector_of as spec_selector_of, selectors_of as spec_selectors_of, tag_of as spec_tag_of};
ghost use Rattle.style_reader.specs.Selectors.{specificity as spec_specificity};
ghost use Rattle.style_reader.specs.devices.Views.{seen_asked, seen_before};

use crate::characters::{is_name, trimmed};
use crate::pieces::{first_piece, split_at_code};
use bml_bytes::{NoMemory, Text, is_word, is_word_in_any_case};
use std::alloc::Global;

/// What a selector asks for beside a tag.
#[derive(Debug, Drop)]
pub enum Mark {
    /// A word of the attribute `class`.
    Class(Text),
    /// The attribute `id`.
    Id(Text),
}

/// The state in which a selector matches.
#[derive(Clone, Copy, Debug, PartialEq, Eq)]
pub enum PseudoClass {
    Focus,
    Active,
}

/// Which elements a rule is for. Without a tag and a mark it is for each.
#[derive(Debug, Drop)]
pub struct Selector {
    pub tag: Option<Text>,
    pub mark: Option<Mark>,
    pub pseudo_class: Option<PseudoClass>,
}

// What a selector asks of an element itself.
#[derive(Drop)]
struct Asked {
    tag: Option<Text>,
    mark: Option<Mark>,
}

const COLON: u16 = 0x3A;

const COMMA: u16 = 0x2C;

const DOT: u16 = 0x2E;

const NUMBER_SIGN: u16 = 0x23;

impl Selector {
    /// How specific it is: of two rules that give an element a property, that one counts whose
    /// selector is more specific.
    #[tactic(auto, unfolding(crate::specs::Selectors::specificity))]
    pub fn specificity(&self) -> u8
        ensures { result ≡ spec_specificity self.now }
    {
        let mark = match &self.mark {
            None => 0,
            Some(Mark::Class(_)) => 10,
            Some(Mark::Id(_)) => 100,
        };
        let pseudo_class = if self.pseudo_class.is_some() { 10 } else { 0 };
        let tag = if self.tag.is_some() { 1 } else { 0 };
        mark + pseudo_class + tag
    }

    /// The same selector again. Both share their texts.
    pub fn copy(&self) -> Result<Selector, NoMemory>
        ensures { IfOk result (λ selector. selector ≡ self.now) }
    {
        let tag = match &self.tag {
            Some(tag) => Some(tag.share()?),
            None => None,
        };
        let mark = match &self.mark {
            Some(mark) => Some(mark.copy()?),
            None => None,
        };
        Ok(Selector {
            tag,
            mark,
            pseudo_class: self.pseudo_class,
        })
    }
}

impl Mark {
    // The same again, with a shared text.
    fn copy(&self) -> Result<Mark, NoMemory>
        ensures { IfOk result (λ mark. mark ≡ self.now) }
    {
        match self {
            Mark::Class(name) => {
                let name = name.share()?;
                Ok(Mark::Class(name))
            }
            Mark::Id(name) => {
                let name = name.share()?;
                Ok(Mark::Id(name))
            }
        }
    }
}

/// The same selectors in a vector of their own.
pub fn copied_selectors(alloc: Global, selectors: &[Selector]) -> Result<Vec<Selector>, NoMemory>
    ensures { IfOk result (λ copy. copy.items ≡ selectors.now) }
{
    let mut copy = Vec::with_capacity(alloc, selectors.len())?;
    'selectors: for selector in selectors {
        copy.push(selector.copy()?)?;
    }
    Ok(copy)
}

/// The selectors that stand between commas, where each of the texts there is one.
pub fn selectors_of(alloc: Global, text: &[u16]) -> Result<Option<Vec<Selector>>, NoMemory>
    ensures { IfOk result
        (λ found. option_map (λ selectors. selectors.items) found ≡ spec_selectors_of text.now) }
{
    let mut selectors = Vec::new(alloc);
    let mut rest = text;
    'selectors: loop {
        let (piece, behind) = first_piece(rest, COMMA);
        match selector_of(alloc, trimmed(piece))? {
            Some(selector) => selectors.push(selector)?,
            None => return Ok(None),
        }
        match behind {
            Some(more) => rest = more,
            None => return Ok(Some(selectors)),
        }
    }
}

// The selector that a text is, where it is one.
#[tactic(auto, unfolding(crate::specs::Readings::selector_of))]
fn selector_of(alloc: Global, text: &[u16]) -> Result<Option<Selector>, NoMemory>
    ensures { IfOk result (λ selector. selector ≡ spec_selector_of text.now) }
{
    match split_pseudo_class(text) {
        None => Ok(None),
        Some((subject, pseudo_class)) => match asked_of(alloc, subject)? {
            None => Ok(None),
            Some(Asked { tag, mark }) => Ok(Some(Selector {
                tag,
                mark,
                pseudo_class,
            })),
        },
    }
}

// What stands before the pseudo-class of a selector, and the pseudo-class, where it has one. None
// where something else stands behind a colon.
fn split_pseudo_class(text: &[u16]) -> Option<(&[u16], Option<PseudoClass>)>
    ensures { option_map seen_before result ≡ before_pseudo_class text.now }
{
    match split_at_code(text, COLON) {
        None => Some((text, None)),
        Some((subject, word)) => {
            let pseudo_class = pseudo_class_of(word)?;
            Some((subject, Some(pseudo_class)))
        }
    }
}

fn pseudo_class_of(word: &[u16]) -> Option<PseudoClass>
    ensures { result ≡ spec_pseudo_class_of word.now }
{
    if is_word_in_any_case(word, "focus") {
        Some(PseudoClass::Focus)
    } else if is_word_in_any_case(word, "active") {
        Some(PseudoClass::Active)
    } else {
        None
    }
}

// What a selector without a pseudo-class asks of an element.
#[tactic(auto, unfolding(crate::specs::Readings::asked_of))]
fn asked_of(alloc: Global, text: &[u16]) -> Result<Option<Asked>, NoMemory>
    ensures { IfOk result (λ asked. option_map seen_asked asked ≡ spec_asked_of text.now) }
{
    if is_word(text, "*") {
        return Ok(Some(Asked {
            tag: None,
            mark: None,
        }));
    }
    match place_of_mark(text) {
        Some(place) => marked(alloc, &text[..place], &text[place..]),
        None => tag_alone(alloc, text),
    }
}

fn place_of_mark(text: &[u16]) -> Option<usize>
    ensures { result ≡ position begins_mark text.now }
{
    text.iter()
        .position(|code| *code == DOT || *code == NUMBER_SIGN)
}

fn tag_alone(alloc: Global, text: &[u16]) -> Result<Option<Asked>, NoMemory>
    ensures { IfOk result (λ asked. option_map seen_asked asked ≡ asked_tag text.now) }
{
    if !is_name(text) {
        return Ok(None);
    }
    let tag = Text::of_codes(alloc, text)?;
    Ok(Some(Asked {
        tag: Some(tag),
        mark: None,
    }))
}

// What is asked by a tag, or nothing, and a mark behind it.
fn marked(alloc: Global, tag: &[u16], mark: &[u16]) -> Result<Option<Asked>, NoMemory>
    ensures { IfOk result
        (λ asked. option_map seen_asked asked ≡ spec_marked tag.now mark.now) }
{
    match tag_of(alloc, tag)? {
        None => Ok(None),
        Some(tag) => match mark_of(alloc, mark)? {
            None => Ok(None),
            Some(mark) => Ok(Some(Asked {
                tag,
                mark: Some(mark),
            })),
        },
    }
}

fn tag_of(alloc: Global, text: &[u16]) -> Result<Option<Option<Text>>, NoMemory>
    ensures { IfOk result (λ tag. tag ≡ spec_tag_of text.now) }
{
    if text.is_empty() {
        return Ok(Some(None));
    }
    if !is_name(text) {
        return Ok(None);
    }
    let tag = Text::of_codes(alloc, text)?;
    Ok(Some(Some(tag)))
}

fn mark_of(alloc: Global, text: &[u16]) -> Result<Option<Mark>, NoMemory>
    ensures { IfOk result (λ mark. mark ≡ spec_mark_of text.now) }
{
    let Some((first, name)) = text.split_first() else {
        return Ok(None);
    };
    if !is_name(name) {
        return Ok(None);
    }
    let name = Text::of_codes(alloc, name)?;
    if *first == DOT {
        Ok(Some(Mark::Class(name)))
    } else if *first == NUMBER_SIGN {
        Ok(Some(Mark::Id(name)))
    } else {
        Ok(None)
    }
}
