//! Reading a document piece by piece.

ghost use Rattle.std.specs.Prelude.{◌≡◌, not, codes as ascii};
ghost use Rattle.bml_bytes.specs.Codes.{codes};
ghost use Rattle.bml_bytes.specs.Words.{is_same};
ghost use Rattle.std.specs.List.{list_all};
ghost use Rattle.bml_reader.specs.Bytes.{is_white as spec_is_white};
ghost use Rattle.bml_reader.specs.Grammar.{is_left_out as spec_is_left_out, drops_white as spec_drops_white};
ghost use Rattle.bml_reader.specs.devices.MarkupViews.{seen_markup};
ghost use Rattle.bml_reader.specs.devices.MarkupKinds.{is_misc as spec_is_misc};

use crate::builders::TreeBuilder;
use crate::bytes::{ByteClass, behind_run};
use crate::faults::DocFault;
use crate::markup::{Markup, StartTag};
use crate::phases::Phase;
use crate::references::push_read;
use bml_bytes::{NoMemory, Text};
use dom_tree::Tree;
use std::alloc::Global;

/// The most levels of elements.
const MOST_LEVELS: usize = 64;

/// What is known of a document once some of its pieces are read.
#[derive(Drop)]
pub struct Reader {
    pub alloc: Global,
    pub phase: Phase,
    // the tags of the open elements, the innermost last
    pub tags: Vec<Text>,
    // the text since the last tag
    pub text: Vec<u8>,
    pub builder: TreeBuilder,
    // whether the root is another element than `bml`, and whether an element stood past the last
    // level
    pub has_other_root: bool,
    pub is_deep: bool,
}

impl Reader {
    ghost use Rattle.std.specs.Prelude.{◌≢◌, ◌↔◌, [], Some, None, Err, true, false, IfOk, IfErr, OnOk, IfSome, IsTrue, option_map, reverse};
    ghost use Rattle.bml_reader.specs.devices.Machine.{start_state};
    ghost use Rattle.bml_reader.specs.devices.AttributeViews.{attributes_in_map};
    ghost use Rattle.bml_reader.specs.Markup.{NamesDiffer};
    ghost use Rattle.bml_reader.specs.devices.Nodes.{IsRootNext};
    ghost use Rattle.bml_reader.specs.declared.phases.Phase.TheVariants.{BeforeDoctype, BeforeRoot, Inside, Behind};
    ghost use Rattle.bml_reader.specs.devices.ReaderViews.{seen_of, seen_by, seen_step, seen_before_doctype, seen_before_root, seen_inside, seen_started, seen_flushed, seen_ended, with_root, seen_in_phase, phase_of_tags, tags_with, IsTaken, IsReady, IsReadyIn, HasDifferentNames, Refuses};

    /// Nothing is read yet.
    pub fn new(alloc: Global) -> Reader
        ensures { seen_by result ≡ seen_of start_state }
    {
        Reader {
            alloc,
            phase: Phase::BeforeDoctype,
            tags: Vec::new(alloc),
            text: Vec::new(alloc),
            builder: TreeBuilder::new(alloc),
            has_other_root: false,
            is_deep: false,
        }
    }

    /// Takes one piece more, and answers whether it can stand there.
    pub fn take(&mut self, markup: Markup) -> Result<bool, NoMemory>
        requires ready { IsReady (seen_by self.old) }
        requires names { HasDifferentNames (seen_markup markup) }
        ensures { IfOk result
            (λ taken. IsTaken (seen_step (seen_markup markup.entry) (seen_by self.old)) taken
            (seen_by self.new)) }
    {
        self.take_in_phase(&markup)
    }

    /// Whether the root has ended.
    pub fn is_whole(&self) -> bool
        ensures { IsTrue result ↔ (self.now.phase ≡ Behind) }
    {
        matches!(self.phase, Phase::Behind)
    }

    /// The tree, or the first fault of a document in the grammar that is read whole.
    pub fn finish(self) -> Result<Tree, DocFault>
        requires { IfSome self.builder (λ k. k.items ≢ []) }
        ensures root { IfOk result (λ tree. self.has_other_root ≡ false) }
        ensures depth { IfOk result (λ tree. self.is_deep ≡ false) }
        ensures tree { IfOk result (λ tree. option_map (λ k. k.items) self.builder ≡ Some tree) }
        ensures err { IfErr result
            (λ fault. Refuses fault self.has_other_root self.is_deep self.builder) }
    {
        if self.has_other_root {
            return self.refuse(DocFault::WrongRoot);
        }
        if self.is_deep {
            return self.refuse(DocFault::TooDeep);
        }
        match self.builder.into_tree() {
            Some(tree) => Ok(tree),
            None => Err(DocFault::TooManyNodes),
        }
    }

    /// This fault, and no tree.
    pub fn refuse(self, fault: DocFault) -> Result<Tree, DocFault>
        ensures { result ≡ Err fault }
    {
        Err(fault)
    }

    // Takes a piece where the reader is.
    #[tactic(auto, unfolding(crate::specs::devices::ReaderViews::seen_step))]
    fn take_in_phase(&mut self, markup: &Markup) -> Result<bool, NoMemory>
        requires ready { IsReady (seen_by self.old) }
        requires names { HasDifferentNames (seen_markup markup.now) }
        ensures { IfOk result
            (λ taken. IsTaken (seen_step (seen_markup markup.now) (seen_by self.old)) taken
            (seen_by self.new)) }
    {
        match self.phase {
            Phase::BeforeDoctype => self.take_before_doctype(markup),
            Phase::BeforeRoot => self.take_before_root(markup),
            Phase::Inside => self.take_inside(markup),
            Phase::Behind => Ok(is_misc(markup)),
        }
    }

    fn take_before_doctype(&mut self, markup: &Markup) -> Result<bool, NoMemory>
        requires ready { IsReadyIn BeforeRoot (seen_by self.old) }
        requires names { HasDifferentNames (seen_markup markup.now) }
        ensures { IfOk result
            (λ taken. IsTaken
            (seen_before_doctype (seen_markup markup.now) (seen_by self.old)) taken
            (seen_by self.new)) }
    {
        match markup {
            Markup::Doctype => {
                self.phase = Phase::BeforeRoot;
                Ok(true)
            }
            Markup::StartTag(start) => self.start_root(start),
            _ => Ok(is_misc(markup)),
        }
    }

    fn take_before_root(&mut self, markup: &Markup) -> Result<bool, NoMemory>
        requires ready { IsReadyIn BeforeRoot (seen_by self.old) }
        requires names { HasDifferentNames (seen_markup markup.now) }
        ensures { IfOk result
            (λ taken. IsTaken (seen_before_root (seen_markup markup.now) (seen_by self.old)) taken
            (seen_by self.new)) }
    {
        match markup {
            Markup::StartTag(start) => self.start_root(start),
            _ => Ok(is_misc(markup)),
        }
    }

    fn take_inside(&mut self, markup: &Markup) -> Result<bool, NoMemory>
        requires ready { IsReadyIn Inside (seen_by self.old) }
        requires names { HasDifferentNames (seen_markup markup.now) }
        ensures { IfOk result
            (λ taken. IsTaken (seen_inside (seen_markup markup.now) (seen_by self.old)) taken
            (seen_by self.new)) }
    {
        match markup {
            Markup::StartTag(start) => self.start_inside(start),
            Markup::EndTag(name) => self.end_named(name),
            Markup::Run(bytes) => {
                push_read(bytes, &mut self.text)?;
                Ok(true)
            }
            Markup::Cdata(bytes) => {
                self.text.extend_from_slice(bytes)?;
                Ok(true)
            }
            Markup::Remark => Ok(true),
            Markup::Doctype => Ok(false),
        }
    }

    // Takes the start tag of the root.
    fn start_root(&mut self, start: &StartTag) -> Result<bool, NoMemory>
        requires ready { IsReadyIn BeforeRoot (seen_by self.old) }
        requires names { NamesDiffer [] (attributes_in_map start.now.inside.attributes) }
        ensures { IfOk result
            (λ taken. IsTaken
            (Some (seen_started start.now.tag
            (attributes_in_map start.now.inside.attributes) start.now.inside.is_empty
            (with_root start.now.tag (seen_by self.old)))) taken (seen_by self.new)) }
    {
        self.has_other_root = is_other_root(&start.tag);
        self.start(start)?;
        Ok(true)
    }

    // Takes a start tag inside the root.
    fn start_inside(&mut self, start: &StartTag) -> Result<bool, NoMemory>
        requires ready { IsReadyIn Inside (seen_by self.old) }
        requires names { NamesDiffer [] (attributes_in_map start.now.inside.attributes) }
        ensures { IfOk result
            (λ taken. IsTaken
            (Some (seen_started start.now.tag
            (attributes_in_map start.now.inside.attributes) start.now.inside.is_empty
            (seen_flushed (seen_by self.old)))) taken (seen_by self.new)) }
    {
        self.flush()?;
        self.start(start)?;
        Ok(true)
    }

    // Adds the element of a start tag, which stays open unless it is empty.
    fn start(&mut self, start: &StartTag) -> Result<(), NoMemory>
        requires root { IfSome self.old.builder IsRootNext }
        requires names { NamesDiffer [] (attributes_in_map start.now.inside.attributes) }
        ensures { OnOk result
            (seen_by self.new
            ≡ seen_started start.now.tag
            (attributes_in_map start.now.inside.attributes) start.now.inside.is_empty
            (seen_by self.old)) }
    {
        self.is_deep = self.is_deep || self.tags.len() >= MOST_LEVELS;
        self.builder.add_element(
            self.alloc,
            start.tag.share()?,
            &start.inside.attributes,
            start.inside.is_empty,
        )?;
        self.keep_open(start)
    }

    // Keeps the element of a start tag open, unless it is empty.
    fn keep_open(&mut self, start: &StartTag) -> Result<(), NoMemory>
        ensures { OnOk result
            (let before = seen_by self.old in
            let tags = tags_with start.now.inside.is_empty start.now.tag before.tags in
            seen_by self.new ≡ record before { phase = phase_of_tags tags; tags = tags }) }
    {
        if !start.inside.is_empty {
            self.tags.push(start.tag.share()?)?;
        }
        self.settle();
        Ok(())
    }

    // Ends the innermost element, where this is the name of its tag.
    fn end_named(&mut self, name: &[u8]) -> Result<bool, NoMemory>
        requires ready { IsReadyIn Inside (seen_by self.old) }
        ensures { IfOk result
            (λ taken. IsTaken
            (seen_ended (codes name.now) (seen_by self.old).tags (seen_by self.old)) taken
            (seen_by self.new)) }
    {
        let tag = Text::of_bytes(self.alloc, name)?;
        self.end(&tag)
    }

    // Ends the innermost element, where this is its tag.
    fn end(&mut self, tag: &Text) -> Result<bool, NoMemory>
        requires ready { IsReadyIn Inside (seen_by self.old) }
        ensures { IfOk result
            (λ taken. IsTaken (seen_ended tag.now (seen_by self.old).tags (seen_by self.old)) taken
            (seen_by self.new)) }
    {
        match self.tags.last() {
            Some(innermost) if *tag == *innermost => {}
            _ => return Ok(false),
        }
        self.flush()?;
        self.tags.pop();
        self.builder.close();
        self.settle();
        Ok(true)
    }

    // Makes a node of the text in front of a tag, unless it is left out.
    fn flush(&mut self) -> Result<(), NoMemory>
        requires { IfSome self.old.builder (λ k. k.path ≢ []) }
        ensures flushed { OnOk result (seen_by self.new ≡ seen_flushed (seen_by self.old)) }
        ensures next { OnOk result (IfSome self.new.builder IsRootNext) }
    {
        match self.tags.last() {
            Some(tag) if !is_left_out(tag, self.text.as_slice()) => {
                let text = Text::of_bytes(self.alloc, self.text.as_slice())?;
                self.builder.add_text(text)?;
            }
            _ => {}
        }
        self.text.clear();
        Ok(())
    }

    // Notes whether the root has ended.
    fn settle(&mut self)
        ensures { seen_by self.new
            ≡ seen_in_phase (phase_of_tags (reverse self.old.tags.items)) (seen_by self.old) }
    {
        self.phase = if self.tags.is_empty() {
            Phase::Behind
        } else {
            Phase::Inside
        };
    }
}

// Whether the piece is white space or a remark.
fn is_misc(markup: &Markup) -> bool
    ensures { result ≡ spec_is_misc (seen_markup markup.now) }
{
    match markup {
        Markup::Run(bytes) => is_white(bytes),
        Markup::Remark => true,
        _ => false,
    }
}

// Whether the tag isn't that of a document's root.
fn is_other_root(tag: &Text) -> bool
    ensures { result ≡ not (is_same tag.now (ascii "bml")) }
{
    !tag.is_word("bml")
}

fn is_white(bytes: &[u8]) -> bool
    ensures { result ≡ list_all spec_is_white bytes.now }
{
    bytes.iter().all(|byte| ByteClass::White.has(*byte))
}

// Whether the text is no node of an element with this tag.
fn is_left_out(tag: &Text, text: &[u8]) -> bool
    ensures { result ≡ spec_is_left_out tag.now text.now }
{
    text.is_empty() || (drops_white(tag) && is_white(text))
}

// Whether a text that is all white is no node of an element with this tag.
fn drops_white(tag: &Text) -> bool
    ensures { result ≡ spec_drops_white tag.now }
{
    tag.is_word("bml")
        || tag.is_word("head")
        || tag.is_word("body")
        || tag.is_word("div")
        || tag.is_word("bevent")
}
