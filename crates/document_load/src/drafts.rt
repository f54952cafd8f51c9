//! Documents that were read, and what is given for their needs.

ghost use Rattle.std.specs.Prelude.{◌≡◌, ◌≢◌, ◌<◌, ◌↔◌, List, None, Ok, Err, IfOk, IsSome, MatchResult, OnErr, OnOk, length, map, option_copied, replicate, slice_get};
ghost use Rattle.bml_bytes.specs.Codes.{codes};
ghost use Rattle.bml_reader.specs.Readings.{reading_of};
ghost use Rattle.dom_tree.specs.Items.{Item};
ghost use Rattle.document_load.specs.Drafts.{with_gift, draft_of};
ghost use Rattle.document_load.specs.StyleTexts.{document_rules};
ghost use Rattle.document_load.specs.Scripts.{AreScripts, HavePlaces, script_places_by, sources_of};
ghost use Rattle.document_load.specs.ScriptViews.{told_handler};
ghost use Rattle.document_load.specs.ToldDocuments.{told_document};
ghost use Rattle.es_reader.specs.Readers.{Reader, IsReader};

use crate::needs::{Needs, needs_of};
use crate::scripts::{Handler, Scripts, copied_scripts, scripts_of};
use crate::style_texts::rules_of_styles;
use bml_bytes::{NoMemory, Text};
use bml_reader::{DocFault, read_document};
use dom_tree::Tree;
use es_reader::Program;
use multipart_entities::Path;
use std::alloc::Global;
use std::marker::Model;
use style_reader::Rules;

/// A document: the tree of its nodes, the rules of its style texts, and its scripts.
#[derive(Drop)]
pub struct Document {
    pub tree: Tree,
    pub rules: Rules,

    /// The programs of the script sources that are good, in document order.
    pub programs: Vec<Program>,

    /// The places of those of script elements among the programs, ascending.
    pub scripts: Vec<u32>,

    /// The handlers whose sources are good, in document order.
    pub handlers: Vec<Handler>,

    /// The numbers of the sources that are bad, ascending, where the first source has the number 1.
    pub bad: Vec<u32>,
}

impl Document {
    /// An equal document of its own: what is written to one of the two doesn't change the other.
    /// They share their texts and programs. The cost is the size of the tree and the rules, and the
    /// number of the programs and handlers.
    pub fn copy(&self) -> Result<Document, NoMemory>
        ensures { IfOk result (λ document. told_document document ≡ told_document self.now) }
    {
        let scripts = copied_scripts(
            *self.programs.allocator(),
            self.programs.as_slice(),
            self.scripts.as_slice(),
            self.handlers.as_slice(),
            self.bad.as_slice(),
        )?;
        copied_with(&self.tree, &self.rules, scripts)
    }
}

/// A document that was read, whose needs are waited for.
#[derive(Drop)]
pub struct Draft {
    tree: Tree,
    needs: Vec<Path>,

    // for each need the number of the node that names it
    named: Vec<u32>,

    // for each need its text, where it was given
    given: Vec<Option<Text>>,
}

impl Model for Draft {
    ghost use Rattle.document_load.specs.Drafts.{DraftState};
    ghost use Rattle.document_load.specs.GiftViews.{HasOneEach};

    ghost Value = { DraftState };

    ghost view = { λ draft. record {
      items = draft.tree;
      needs = draft.needs.items;
      named = draft.named.items;
      given = draft.given.items;
    } };

    ghost invariant = { λ draft.
        HasOneEach draft.needs.items draft.named.items draft.given.items };
}

/// Reads a document that lies at a path, and finds its needs. The faults are those of
/// `read_document`, in its order.
pub fn read_draft(alloc: Global, bytes: &[u8], path: &Path) -> Result<Draft, DocFault>
    ensures reading { MatchResult result
        (λ draft. (items : List Item) × (reading_of bytes.now ≡ Ok items)
        × (draft ≡ draft_of path.now items))
        (λ fault. fault ≢ DocFault.NoMemory → reading_of bytes.now ≡ Err fault) }
{
    let tree = read_document(alloc, bytes)?;
    let draft = Draft::open(alloc, tree, path)?;
    Ok(draft)
}

impl Draft {
    // The draft of a document at a path.
    fn open(alloc: Global, tree: Tree, path: &Path) -> Result<Draft, NoMemory>
        ensures { IfOk result (λ draft. draft ≡ draft_of path.now tree) }
    {
        let Needs {
            paths: needs,
            named,
        } = needs_of(alloc, &tree, path)?;
        let given = nothing_given(alloc, needs.len())?;
        Ok(Draft {
            tree,
            needs,
            named,
            given,
        })
    }

    /// The path of a need, counted from 0 in document order, and None exactly past the last. This
    /// takes no memory.
    pub fn need(&self, number: usize) -> Option<&Path>
        ensures path { option_copied result ≡ slice_get self.now.needs number }
        ensures known { IsSome result ↔ (number < length self.now.needs) }
    {
        self.needs.as_slice().get(number)
    }

    /// The paths of all needs, in document order. This takes no memory.
    pub fn needs(&self) -> &[Path]
        ensures { result.now ≡ self.now.needs }
    {
        self.needs.as_slice()
    }

    /// Gives the bytes of a need, which are kept as text. A second gift of one number replaces the
    /// first. After `NoMemory` the draft is as before.
    pub fn give(&mut self, number: usize, bytes: &[u8]) -> Result<(), NoMemory>
        requires need { number < length self.old.needs }
        ensures ok { OnOk result (self.new ≡ with_gift number (codes bytes.now) self.old) }
        ensures err { OnErr result (self.new ≡ self.old) }
    {
        let text = Text::of_bytes(*self.given.allocator(), bytes)?;
        self.given[number] = Some(text);
        Ok(())
    }

    /// The document with the tree that was read, the rules of its style texts, and its scripts. A
    /// link or a script that wasn't given is an empty one.
    pub fn finish(self) -> Result<Document, NoMemory>
        ensures tree { IfOk result (λ document. document.tree ≡ self.items) }
        ensures rules { IfOk result (λ document. document.rules ≡ document_rules self) }
        ensures scripts { IfOk result (λ document. (read : Reader) → IsReader read
            → AreScripts read (sources_of self) document.programs.items
            (map told_handler document.handlers.items) document.bad.items) }
        ensures elements { IfOk result (λ document. (read : Reader) → IsReader read
            → document.scripts.items ≡ script_places_by read (sources_of self)) }
        ensures places { IfOk result (λ document. HavePlaces document.scripts.items
            (length document.programs.items) (map told_handler document.handlers.items)) }
    {
        let alloc = *self.given.allocator();
        let rules = rules_of_styles(
            alloc,
            &self.tree,
            self.named.as_slice(),
            self.given.as_slice(),
        )?;
        let Scripts {
            programs,
            elements: scripts,
            handlers,
            bad,
        } = scripts_of(
            alloc,
            &self.tree,
            self.named.as_slice(),
            self.given.as_slice(),
        )?;
        Ok(Document {
            tree: self.tree,
            rules,
            programs,
            scripts,
            handlers,
            bad,
        })
    }
}

// The document with a copy of this tree, a copy of these rules, and these scripts.
fn copied_with(tree: &Tree, rules: &Rules, scripts: Scripts) -> Result<Document, NoMemory>
    ensures { IfOk result (λ document. told_document document ≡ record {
      items = tree.now;
      rules = rules.now;
      programs = scripts.programs.items;
      scripts = scripts.elements.items;
      handlers = map told_handler scripts.handlers.items;
      bad = scripts.bad.items;
    }) }
{
    let (tree, rules) = copied_tree_and_rules(tree, rules)?;
    Ok(Document {
        tree,
        rules,
        programs: scripts.programs,
        scripts: scripts.elements,
        handlers: scripts.handlers,
        bad: scripts.bad,
    })
}

// An equal tree and equal rules of their own.
fn copied_tree_and_rules(tree: &Tree, rules: &Rules) -> Result<(Tree, Rules), NoMemory>
    ensures tree { IfOk result (λ copies. copies.0 ≡ tree.now) }
    ensures rules { IfOk result (λ copies. copies.1 ≡ rules.now) }
{
    let tree = tree.copy()?;
    let rules = rules.copy()?;
    Ok((tree, rules))
}

// That many needs of which nothing is given.
fn nothing_given(alloc: Global, count: usize) -> Result<Vec<Option<Text>>, NoMemory>
    ensures { IfOk result (λ given. given.items ≡ replicate count None) }
{
    let mut given = Vec::with_capacity(alloc, count)?;
    'needs: for _need in 0..count {
        given.push(None)?;
    }
    Ok(given)
}
