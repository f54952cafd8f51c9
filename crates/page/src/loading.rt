//! The load of a document.

ghost use Rattle.std.specs.Io.{StartsWith};
ghost use Rattle.std.specs.Prelude.{◌≡◌, ◌++◌, IfOk, OnOk};
ghost use Rattle.page.specs.Lines.{refuse_line};
ghost use Rattle.page.specs.declared.loading.Load.TheVariants as came;
ghost use Rattle.page.specs.declared.loading.Loading.TheVariants as kept;
ghost use Rattle.document_load.specs.ToldDocuments.{told_document};
ghost use Rattle.module_locks.specs.Locks.{look_up};
ghost use Rattle.module_locks.specs.Standing.{ForModules};
ghost use Rattle.module_store.specs.Resources.Resource.{Found};
ghost use Rattle.page.specs.devices.Memories.{HasPlaces};
ghost use Rattle.page.specs.devices.Pendings.{KnowsItsPlace, Loads, MayLoad, is_there, LoadsRemembered, LoadsUnread, is_told_by as told_by, loading_behind, unread_loading, wanted_anew};

use crate::lines::push_refuse_line;
use crate::memory::Memory;
use crate::pending::{Pending, acting_of};
use acting_documents::ActingDocument;
use bml_bytes::NoMemory;
use bml_reader::DocFault;
use document_load::{Document, read_draft};
use module_locks::{Change, Look, Modules, law_of_seen_numbers};
use multipart_entities::Path;
use std::alloc::Global;
use std::mem;

/// What is kept of the document that is wanted.
#[derive(Drop)]
pub enum Loading {
    /// The start document is wanted, and wasn't read yet.
    Start,
    /// The document at a path is wanted, which a script launched, and wasn't read yet.
    At(Path),
    /// It was read, and something that it needs is waited for.
    Pending(Pending),
    /// None is wanted.
    Nothing,
}

/// What comes of a load.
#[derive(Drop)]
pub enum Load {
    /// The document can't be loaded yet.
    Waits(Loading),
    /// It isn't a document that is shown.
    Refused,
    /// It is loaded, and its scripts are still to run.
    Loaded(ActingDocument),
}

impl Loading {
    /// The document is wanted that is to be read at a path: the start document, or one that a
    /// script launched.
    pub fn unread(is_start: bool, path: Path) -> Loading
        ensures { result ≡ unread_loading is_start path }
    {
        if is_start {
            Loading::Start
        } else {
            Loading::At(path)
        }
    }

    /// Whether a load may come of it: a document is wanted, and is found, or was read. It is looked at
    /// in place, so that a turn in which nothing is loaded moves nothing.
    pub fn may_load(&self, modules: &Modules) -> Result<bool, NoMemory>
        ensures { IfOk result (λ may. MayLoad may modules.now self.now) }
    {
        match self {
            Loading::Start => {
                let path = modules.start_path()?;
                Ok(is_found(modules, &path))
            }
            Loading::At(path) => Ok(is_found(modules, path)),
            Loading::Pending(_) => Ok(true),
            Loading::Nothing => Ok(false),
        }
    }

    /// Loads the document, where one is wanted, is found, and nothing that it needs is waited for;
    /// or refuses it. Appends the lines that tell it. A document that is remembered isn't read, and
    /// one that is loaded is remembered.
    pub fn load(
        self,
        alloc: Global,
        modules: &Modules,
        memory: &mut Memory,
        out: &mut Vec<u8>,
    ) -> Result<Load, NoMemory>
        ensures loads { IfOk result (λ load. Loads modules.now self load
            memory.old memory.new out.old.items out.new.items) }
        ensures grows { StartsWith out.new.items out.old.items }
    {
        match self {
            Loading::Start => load_start(alloc, modules, memory, out),
            Loading::At(path) => load_unread(alloc, modules, memory, false, path, out),
            Loading::Pending(pending) => pending.load(alloc, modules, memory, out),
            Loading::Nothing => Ok(Load::Waits(self)),
        }
    }

    /// Takes a change in a module of a component: a document that was read is wanted anew, where
    /// its module changed, and at a data event, at which locks end.
    pub fn follow(&mut self, component: u8, change: &Change)
        ensures { self.new ≡ loading_behind component change.now self.old }
    {
        if self.is_told_by(component, change) {
            let told = mem::replace(self, Loading::Nothing);
            drop(mem::replace(self, told.anew()));
        }
    }

    // The same document is wanted, and is to be read once more.
    fn anew(self) -> Loading
        ensures { result ≡ wanted_anew self }
    {
        match self {
            Loading::Pending(pending) => pending.anew(),
            Loading::Start | Loading::At(_) | Loading::Nothing => self,
        }
    }

    // Whether a document was read, and this change in a component is of its module, or of a data event.
    fn is_told_by(&self, component: u8, change: &Change) -> bool
        ensures { result ≡ told_by component change.now self.now }
    {
        match self {
            Loading::Pending(pending) => {
                let path = pending.path();
                change.is_data_event()
                    || (path.component == component && change.module == path.module)
            }
            Loading::Start | Loading::At(_) | Loading::Nothing => false,
        }
    }
}

// Whether something is found at a path.
fn is_found(modules: &Modules, path: &Path) -> bool
    ensures { ForModules modules.now (λ modules. result ≡ is_there (look_up modules path.now)) }
{
    matches!(modules.resource(path), Look::Found(_))
}

// Loads the start document, which is found at the path that it has now.
fn load_start(
    alloc: Global,
    modules: &Modules,
    memory: &mut Memory,
    out: &mut Vec<u8>,
) -> Result<Load, NoMemory>
    ensures loads { IfOk result (λ load. Loads modules.now kept.Start load
        memory.old memory.new out.old.items out.new.items) }
    ensures grows { StartsWith out.new.items out.old.items }
{
    let path = modules.start_path()?;
    load_unread(alloc, modules, memory, true, path, out)
}

// Loads the document at a path, where it is found, and is remembered, or nothing that it needs is
// waited for.
fn load_unread(
    alloc: Global,
    modules: &Modules,
    memory: &mut Memory,
    is_start: bool,
    path: Path,
    out: &mut Vec<u8>,
) -> Result<Load, NoMemory>
    ensures loads { IfOk result (λ load. LoadsUnread modules.now is_start path load
        memory.old memory.new out.old.items out.new.items) }
    ensures knows { IfOk result (λ load. KnowsItsPlace modules.now load) }
    ensures grows { StartsWith out.new.items out.old.items }
{
    law_of_seen_numbers();
    let Look::Found(bytes) = modules.resource(&path) else {
        return Ok(Load::Waits(Loading::unread(is_start, path)));
    };
    match memory.recall(modules, &path)? {
        Some(document) => load_remembered(alloc, path, document, out),
        None => load_read(alloc, modules, memory, is_start, path, bytes, out),
    }
}

// Loads the document at a path that was remembered.
fn load_remembered(
    alloc: Global,
    path: Path,
    document: Document,
    out: &mut Vec<u8>,
) -> Result<Load, NoMemory>
    requires { HasPlaces (told_document document) }
    ensures loads { IfOk result (λ load. LoadsRemembered path (told_document document) load
        out.old.items out.new.items) }
    ensures grows { StartsWith out.new.items out.old.items }
{
    let acting = acting_of(alloc, path, document, out)?;
    Ok(Load::Loaded(acting))
}

// Reads the document at a path, where these bytes are found, and loads it, where nothing that it
// needs is waited for.
fn load_read(
    alloc: Global,
    modules: &Modules,
    memory: &mut Memory,
    is_start: bool,
    path: Path,
    bytes: &[u8],
    out: &mut Vec<u8>,
) -> Result<Load, NoMemory>
    requires { ForModules modules.now (λ modules. look_up modules path ≡ Found bytes.now) }
    ensures loads { IfOk result (λ load. LoadsUnread modules.now is_start path load
        memory.old memory.new out.old.items out.new.items) }
    ensures knows { IfOk result (λ load. KnowsItsPlace modules.now load) }
    ensures grows { StartsWith out.new.items out.old.items }
{
    match read_draft(alloc, bytes, &path) {
        Ok(draft) => Pending::new(is_start, path, draft).load(alloc, modules, memory, out),
        Err(DocFault::NoMemory) => Err(NoMemory),
        Err(fault) => refuse(&path, fault, out),
    }
}

// Refuses the document at a path, and appends the line that tells it.
fn refuse(path: &Path, fault: DocFault, out: &mut Vec<u8>) -> Result<Load, NoMemory>
    ensures refused { IfOk result (λ load. load ≡ came.Refused) }
    ensures told { OnOk result (out.new.items ≡ out.old.items ++ refuse_line path.now fault) }
    ensures grows { StartsWith out.new.items out.old.items }
{
    push_refuse_line(path, fault, out)?;
    Ok(Load::Refused)
}
