//! The scripts of a document: the programs of its script elements and handlers.

ghost use Rattle.std.specs.Prelude.{◌≡◌, ◌+◌, ◌<◌, ◌∷◌, ◌++◌, [], IfOk, OnOk, length, map, option_copied, option_map, option_to_list};
ghost use Rattle.std.specs.Option.{unwrap_or};
ghost use Rattle.dom_tree.specs.Items.{attributes_of};
ghost use Rattle.es_reader.specs.Readers.{Reader, IsReader};
ghost use Rattle.document_load.specs.StyleTexts.{own_text as spec_own_text};
ghost use Rattle.document_load.specs.Scripts.{AreScripts, HavePlaces, script_places_by, script_sources, script_text as spec_script_text, sources_at};
ghost use Rattle.document_load.specs.ScriptViews.{told_handler};
ghost use Rattle.document_load.specs.ScriptSteps.{Adds, HasRead, IsSaidOf, element_place, handler_at, handlers_at, script_at};
ghost use Rattle.document_load.specs.GiftViews.{AscendsFrom};

use crate::handler_kinds::HandlerKind;
use crate::node_texts::{gift_at, own_text, shared_text};
use bml_bytes::{NoMemory, Text};
use dom_tree::{NodeId, Tree};
use es_reader::{Program, SyntaxFault, law_of_readers, read_program};
use std::alloc::Global;

/// A handler: the element that has it, its kind, and the place of its program among the document's
/// programs.
#[derive(Clone, Copy, Debug)]
pub struct Handler {
    pub node: NodeId,
    pub kind: HandlerKind,
    pub program: u32,
}

/// What is read of the script sources of a document.
#[derive(Drop)]
pub struct Scripts {
    pub programs: Vec<Program>,
    pub elements: Vec<u32>,
    pub handlers: Vec<Handler>,
    pub bad: Vec<u32>,
}

// Reads script sources one by one, in document order.
#[derive(Drop)]
struct ScriptReader {
    alloc: Global,

    // what is read of the sources so far
    scripts: Scripts,

    // how many these are
    count: u32,
}

/// Reads the script sources of a document. The nodes with these numbers name its needs, for which
/// this was given. Each node is looked at once, and once more where it hangs in a `script`.
pub fn scripts_of(
    alloc: Global,
    tree: &Tree,
    named: &[u32],
    given: &[Option<Text>],
) -> Result<Scripts, NoMemory>
    requires ascending { AscendsFrom 0 named.now }
    requires one_each { length given.now ≡ length named.now }
    ensures scripts { IfOk result (λ scripts. (read : Reader) → IsReader read
        → AreScripts read (script_sources tree.now named.now given.now) scripts.programs.items
        (map told_handler scripts.handlers.items) scripts.bad.items) }
    ensures elements { IfOk result (λ scripts. (read : Reader) → IsReader read
        → scripts.elements.items
        ≡ script_places_by read (script_sources tree.now named.now given.now)) }
    ensures places { IfOk result (λ scripts. HavePlaces scripts.elements.items
        (length scripts.programs.items) (map told_handler scripts.handlers.items)) }
{
    let mut reader = ScriptReader::new(alloc);
    let mut place = 0;
    'nodes: for number in 0..tree.node_count() {
        let (gift, next_place) = gift_at(named, given, place, number);
        reader.push_node(tree, NodeId(number), gift)?;
        place = next_place;
    }
    Ok(reader.scripts)
}

/// The same programs, places, handlers and numbers in vectors of their own.
pub fn copied_scripts(
    alloc: Global,
    programs: &[Program],
    elements: &[u32],
    handlers: &[Handler],
    bad: &[u32],
) -> Result<Scripts, NoMemory>
    ensures programs { IfOk result (λ scripts. scripts.programs.items ≡ programs.now) }
    ensures elements { IfOk result (λ scripts. scripts.elements.items ≡ elements.now) }
    ensures handlers { IfOk result (λ scripts. scripts.handlers.items ≡ handlers.now) }
    ensures bad { IfOk result (λ scripts. scripts.bad.items ≡ bad.now) }
{
    let elements = Vec::from_slice(alloc, elements)?;
    let handlers = Vec::from_slice(alloc, handlers)?;
    let bad = Vec::from_slice(alloc, bad)?;
    let programs = copied_programs(alloc, programs)?;
    Ok(Scripts {
        programs,
        elements,
        handlers,
        bad,
    })
}

// The same programs in a vector of their own.
fn copied_programs(alloc: Global, programs: &[Program]) -> Result<Vec<Program>, NoMemory>
    ensures { IfOk result (λ copy. copy.items ≡ programs.now) }
{
    let mut copy = Vec::with_capacity(alloc, programs.len())?;
    'programs: for program in programs {
        copy.push(program.copy()?)?;
    }
    Ok(copy)
}

impl ScriptReader {
    // One that has read no source.
    fn new(alloc: Global) -> ScriptReader
        ensures { HasRead [] result }
    {
        ScriptReader {
            alloc,
            scripts: Scripts {
                programs: Vec::new(alloc),
                elements: Vec::new(alloc),
                handlers: Vec::new(alloc),
                bad: Vec::new(alloc),
            },
            count: 0,
        }
    }

    // Reads the sources of a node, for whose need this was given: the script that it is, and then
    // its handlers.
    fn push_node(&mut self, tree: &Tree, node: NodeId, gift: Option<&Text>) -> Result<(), NoMemory>
        requires { node.0 < length tree.now }
        ensures { OnOk result (Adds
            (sources_at tree.now node.0 (unwrap_or (option_copied gift.entry) []))
            self.old self.new) }
    {
        self.push_script(tree, node, gift)?;
        self.push_handlers(tree, node)
    }

    // Reads the script that a node is, where it is one.
    fn push_script(
        &mut self,
        tree: &Tree,
        node: NodeId,
        gift: Option<&Text>,
    ) -> Result<(), NoMemory>
        requires { node.0 < length tree.now }
        ensures { OnOk result (Adds
            (script_at tree.now node.0 (unwrap_or (option_copied gift.entry) []))
            self.old self.new) }
    {
        let Some(tag) = tree.tag(node) else {
            return Ok(());
        };
        if tag.is_word("script") {
            let text = script_text(self.alloc, tree, node, gift)?;
            self.push(node, None, &text)?;
        }
        Ok(())
    }

    // Reads the handlers of a node, in the order written.
    fn push_handlers(&mut self, tree: &Tree, node: NodeId) -> Result<(), NoMemory>
        requires { node.0 < length tree.now }
        ensures { OnOk result (Adds (handlers_at tree.now node.0) self.old self.new) }
    {
        'attributes: for place in 0..tree.attribute_count(node) {
            self.push_attribute(tree, node, place)?;
        }
        Ok(())
    }

    // Reads the handler that an attribute is, where it is one.
    fn push_attribute(&mut self, tree: &Tree, node: NodeId, place: usize) -> Result<(), NoMemory>
        requires { node.0 < length tree.now }
        ensures { OnOk result (Adds (handler_at tree.now node.0 place) self.old self.new) }
    {
        let Some((name, value)) = tree.attribute_at(node, place) else {
            return Ok(());
        };
        if let Some(kind) = HandlerKind::named(name) {
            self.push(node, Some(kind), value)?;
        }
        Ok(())
    }

    // Reads one source more: a text that a node has, as a handler where it has a kind.
    fn push(
        &mut self,
        node: NodeId,
        handler: Option<HandlerKind>,
        text: &Text,
    ) -> Result<(), NoMemory>
        ensures { OnOk result (Adds (record {
          node = node.0;
          handler = handler;
          text = text.now;
        } ∷ []) self.old self.new) }
    {
        let Some(number) = self.count.checked_add(1) else {
            return Err(NoMemory);
        };
        match program_of(self.alloc, text)? {
            Some(program) => self.scripts.push_program(node, handler, program)?,
            None => self.scripts.bad.push(number)?,
        }
        self.count = number;
        Ok(())
    }
}

impl Scripts {
    // One program more: that of a handler, where it has a kind, or of a script element.
    fn push_program(
        &mut self,
        node: NodeId,
        handler: Option<HandlerKind>,
        program: Program,
    ) -> Result<(), NoMemory>
        ensures programs { OnOk result
            (self.new.programs.items ≡ self.old.programs.items ++ program ∷ []) }
        ensures elements { OnOk result (self.new.elements.items ≡ self.old.elements.items
            ++ element_place (length self.old.programs.items) handler) }
        ensures handlers { OnOk result (map told_handler self.new.handlers.items
            ≡ map told_handler self.old.handlers.items ++ option_to_list (option_map (λ kind.
            record { node = node.0; kind = kind; program = length self.old.programs.items })
            handler)) }
        ensures bad { OnOk result (self.new.bad.items ≡ self.old.bad.items) }
    {
        self.push_place(node, handler)?;
        self.programs.push(program)?;
        Ok(())
    }

    // The place of the next program, as that of a handler or of a script element.
    fn push_place(&mut self, node: NodeId, handler: Option<HandlerKind>) -> Result<(), NoMemory>
        ensures programs { self.new.programs ≡ self.old.programs }
        ensures elements { OnOk result (self.new.elements.items ≡ self.old.elements.items
            ++ element_place (length self.old.programs.items) handler) }
        ensures handlers { OnOk result (map told_handler self.new.handlers.items
            ≡ map told_handler self.old.handlers.items ++ option_to_list (option_map (λ kind.
            record { node = node.0; kind = kind; program = length self.old.programs.items })
            handler)) }
        ensures bad { self.new.bad ≡ self.old.bad }
    {
        let Ok(program) = u32::try_from(self.programs.len()) else {
            return Err(NoMemory);
        };
        match handler {
            Some(kind) => self.handlers.push(Handler {
                node,
                kind,
                program,
            })?,
            None => self.elements.push(program)?,
        }
        Ok(())
    }
}

// The program that a text is, and None where it is bad, or nested too deep.
fn program_of(alloc: Global, text: &Text) -> Result<Option<Program>, NoMemory>
    ensures { IfOk result (λ program. IsSaidOf program text.now) }
{
    law_of_readers();
    match read_program(alloc, text) {
        Ok(program) => Ok(Some(program)),
        Err(SyntaxFault::Bad { .. }) => Ok(None),
        Err(SyntaxFault::TooDeep) => Ok(None),
        Err(SyntaxFault::NoMemory) => Err(NoMemory),
    }
}

// The text of a script element: where it has `src`, what was given for its need, if anything; else
// the text in it.
fn script_text(
    alloc: Global,
    tree: &Tree,
    node: NodeId,
    gift: Option<&Text>,
) -> Result<Text, NoMemory>
    requires { node.0 < length tree.now }
    ensures { IfOk result (λ text. text ≡ spec_script_text (attributes_of tree.now node.0)
        (spec_own_text tree.now node.0) (unwrap_or (option_copied gift.entry) [])) }
{
    let src = Text::of_bytes(alloc, b"src")?;
    match tree.attribute(node, &src) {
        Some(_) => shared_text(alloc, gift),
        None => own_text(alloc, tree, node),
    }
}
