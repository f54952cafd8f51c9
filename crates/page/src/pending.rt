//! A document that was read, and the needs that it waits for.

ghost use Rattle.std.specs.Io.{StartsWith};
ghost use Rattle.std.specs.Prelude.{◌≡◌, ◌<◌, true, None, IfOk, IfSome, OnOk, length};
ghost use Rattle.document_load.specs.ToldDocuments.{told_document};
ghost use Rattle.module_locks.specs.Standing.{ForModules};
ghost use Rattle.page.specs.Loading.{are_settled};
ghost use Rattle.page.specs.declared.loading.Loading.TheVariants as kept;
ghost use Rattle.page.specs.devices.Gifts.{GivesFound, IsFinished, with_found};
ghost use Rattle.page.specs.devices.Memories.{HasPlaces, Keeps};
ghost use Rattle.page.specs.devices.Pendings.{KnowsItsPlace, Loads, LoadsDocument, LoadsSettled, Provides, WaitsAt, unread_loading};

use crate::lines::push_load_lines;
use crate::loading::{Load, Loading};
use crate::memory::{Memory, numbered};
use acting_documents::ActingDocument;
use bml_bytes::NoMemory;
use document_load::{Document, Draft};
use module_locks::{Look, Modules, law_of_seen_numbers};
use multipart_entities::Path;
use std::alloc::Global;
use std::marker::Model;

/// A document that was read, and waits until nothing that it needs is waited for.
#[derive(Drop)]
pub struct Pending {
    /// Whether it is the start document.
    is_start: bool,
    path: Path,
    draft: Draft,
    /// Where the need stands that was waited for last. Look-ups begin there, so that a document
    /// with many needs costs little as long as one of them stays away.
    place: usize,
}

impl Model for Pending {
    ghost use Rattle.std.specs.Prelude.{◌≤◌, length};
    ghost use Rattle.page.specs.devices.PendingStates.{PendingState};

    ghost Value = { PendingState };

    ghost view = { λ p. record {
      is_start = p.is_start;
      path = p.path;
      draft = p.draft;
      place = p.place;
    } };

    ghost invariant = { λ p. p.place ≤ length p.draft.needs };
}

impl Pending {
    /// A document that was read at a path: the start document, or one that a script launched.
    pub fn new(is_start: bool, path: Path, draft: Draft) -> Pending
        ensures is_start { result.is_start ≡ is_start }
        ensures path { result.path ≡ path }
        ensures draft { result.draft ≡ draft }
    {
        Pending {
            is_start,
            path,
            draft,
            place: 0,
        }
    }

    /// The path at which it was read.
    pub fn path(&self) -> &Path
        ensures { result.now ≡ self.now.path }
    {
        &self.path
    }

    /// The same document is wanted, and is to be read once more.
    pub fn anew(self) -> Loading
        ensures { result ≡ unread_loading self.is_start self.path }
    {
        let Pending { is_start, path, .. } = self;
        Loading::unread(is_start, path)
    }

    /// Loads the document with what is found of its needs, where none of them is waited for, and
    /// appends its lines. Else it goes on waiting.
    pub fn load(
        self,
        alloc: Global,
        modules: &Modules,
        memory: &mut Memory,
        out: &mut Vec<u8>,
    ) -> Result<Load, NoMemory>
        ensures loads { IfOk result (λ load. Loads modules.now (kept.Pending self) load
            memory.old memory.new out.old.items out.new.items) }
        ensures knows { IfOk result (λ load. KnowsItsPlace modules.now load) }
        ensures grows { StartsWith out.new.items out.old.items }
    {
        let waited = self.waited_for(modules);
        let Pending {
            is_start,
            path,
            draft,
            ..
        } = self;
        match waited {
            Some(place) => Ok(Load::Waits(Loading::Pending(Pending {
                is_start,
                path,
                draft,
                place,
            }))),
            None => {
                let acting = load_settled(alloc, modules, memory, path, draft, out)?;
                Ok(Load::Loaded(acting))
            }
        }
    }

    // Where a need stands that is waited for.
    fn waited_for(&self, modules: &Modules) -> Option<usize>
        ensures settled { result ≡ None → ForModules modules.now
            (λ modules. are_settled modules self.now.draft.needs ≡ true) }
        ensures waits { IfSome result (λ place. WaitsAt modules.now self.now.draft.needs place) }
    {
        let (before, behind) = self.draft.needs().split_at(self.place);
        match first_waited(modules, behind) {
            Some(place) => Some(self.place + place),
            None => first_waited(modules, before),
        }
    }
}

// The document at a path that is loaded of a draft, of whose needs none is waited for. Appends its
// lines.
fn load_settled(
    alloc: Global,
    modules: &Modules,
    memory: &mut Memory,
    path: Path,
    draft: Draft,
    out: &mut Vec<u8>,
) -> Result<ActingDocument, NoMemory>
    ensures loads { IfOk result (λ acting. LoadsSettled modules.now path draft acting
        memory.old memory.new out.old.items out.new.items) }
    ensures grows { StartsWith out.new.items out.old.items }
{
    let document = document_of(alloc, modules, memory, &path, draft)?;
    let acting = acting_of(alloc, path, document, out)?;
    Ok(acting)
}

// The document of a draft at a path: the one that is remembered, or else the one that is made of it
// with what is found of its needs.
fn document_of(
    alloc: Global,
    modules: &Modules,
    memory: &mut Memory,
    path: &Path,
    draft: Draft,
) -> Result<Document, NoMemory>
    ensures provides { IfOk result (λ document. Provides modules.now path.now draft
        (told_document document) memory.old memory.new) }
    ensures places { IfOk result (λ document. HasPlaces (told_document document)) }
{
    law_of_seen_numbers();
    match memory.recall(modules, path)? {
        Some(document) => Ok(document),
        None => read_and_keep(alloc, modules, memory, path, draft),
    }
}

// The document of a draft at a path, with what is found of its needs, which is remembered then.
fn read_and_keep(
    alloc: Global,
    modules: &Modules,
    memory: &mut Memory,
    path: &Path,
    draft: Draft,
) -> Result<Document, NoMemory>
    ensures finished { IfOk result
        (λ document. IsFinished modules.now draft (told_document document)) }
    ensures keeps { IfOk result (λ document. Keeps modules.now path.now draft.needs
        (told_document document) memory.old memory.new) }
    ensures places { IfOk result (λ document. HasPlaces (told_document document)) }
{
    let needs = numbered(alloc, modules, draft.needs())?;
    let document = finish(modules, draft)?;
    memory.keep(modules, path, needs, &document)?;
    Ok(document)
}

/// A document at a path that acts, in which nothing happened yet. Appends the lines of its load.
pub fn acting_of(
    alloc: Global,
    path: Path,
    document: Document,
    out: &mut Vec<u8>,
) -> Result<ActingDocument, NoMemory>
    requires { HasPlaces (told_document document) }
    ensures loads { IfOk result (λ acting. LoadsDocument path (told_document document) acting
        out.old.items out.new.items) }
    ensures grows { StartsWith out.new.items out.old.items }
{
    if push_load_lines(&path, document.bad.as_slice(), out).is_err() {
        drop(document);
        return Err(NoMemory);
    }
    ActingDocument::new(alloc, path, document)
}

// The document of a draft, to which what is found of its needs is given.
fn finish(modules: &Modules, mut draft: Draft) -> Result<Document, NoMemory>
    ensures finished { IfOk result
        (λ document. IsFinished modules.now draft (told_document document)) }
    ensures places { IfOk result (λ document. HasPlaces (told_document document)) }
{
    give_all_found(modules, &mut draft)?;
    draft.finish()
}

// Where the first need stands that is waited for.
fn first_waited(modules: &Modules, needs: &[Path]) -> Option<usize>
    ensures settled { result ≡ None
        → ForModules modules.now (λ modules. are_settled modules needs.now ≡ true) }
    ensures waits { IfSome result (λ place. WaitsAt modules.now needs.now place) }
{
    'needs: for (place, need) in needs.iter().enumerate() {
        if let Look::Waiting = modules.resource(need) {
            return Some(place);
        }
    }
    None
}

// Gives a draft what is found of each of its needs.
fn give_all_found(modules: &Modules, draft: &mut Draft) -> Result<(), NoMemory>
    ensures { OnOk result (GivesFound modules.now draft.old draft.new) }
{
    let count = draft.needs().len();
    'gifts: for number in 0..count {
        give_found(modules, number, draft)?;
    }
    Ok(())
}

// Gives a draft what is found of its need of that number.
fn give_found(modules: &Modules, number: usize, draft: &mut Draft) -> Result<(), NoMemory>
    requires { number < length draft.old.needs }
    ensures found { OnOk result
        (ForModules modules.now (λ modules. draft.new ≡ with_found modules number draft.old)) }
    ensures needs { OnOk result (draft.new.needs ≡ draft.old.needs) }
{
    let Some(need) = draft.need(number) else {
        return Ok(());
    };
    if let Look::Found(bytes) = modules.resource(need) {
        draft.give(number, bytes)?;
    }
    Ok(())
}
