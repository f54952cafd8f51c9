//! A document that acts.

ghost use Rattle.std.specs.Io.{StartsWith};
ghost use Rattle.std.specs.Prelude.{◌≡◌, ◌+◌, ◌<◌, ◌≤◌, ◌^◌, ◌++◌, ℕ, List, [], None, map, length, IfOk, OnOk};
ghost use Rattle.document_load.specs.Scripts.{HavePlaces, unnamed_places};
ghost use Rattle.document_load.specs.ScriptViews.{told_handler};
ghost use Rattle.es_shapes.specs.Codes.{declared_by};
ghost use Rattle.event_items.specs.Subscriptions.{first_items};
ghost use Rattle.module_locks.specs.Standing.{ModulesState};
ghost use Rattle.acting_documents.specs.Beginnings.{begin as spec_begin, load_effect, run_scripts as spec_run_scripts, script_places, unload_effect, without_waiting};
ghost use Rattle.acting_documents.specs.Documents.{Document as TheDocument, document_lines};
ghost use Rattle.acting_documents.specs.devices.Doings.{Changes, Does, DoesApart, lent_modules};
ghost use Rattle.acting_documents.specs.devices.Kept.{IsDocument, kept_first, first_stage};
ghost use Rattle.acting_documents.specs.Runs.{no_effect, run_function as spec_run_function, run_program as spec_run_program};

mod endings;
mod events;
mod posts;

use crate::handlers::Handlers;
use crate::stop_lines::push_stop_line;
use bml_bytes::{NoMemory, Text};
use browser_objects::BrowserState;
use display_list::body_of;
use document_load::{Document, Handler};
use document_stages::{ScriptHost, Stage};
use dom_objects::CurrentEvent;
use dom_tree::{NodeId, Tree};
use es_eval::{Globals, are_few_functions, run, run_global};
use es_reader::Program;
use es_values::Heap;
use event_items::Items;
use event_queue::Event;
use module_locks::Modules;
use multipart_entities::Path;
use std::alloc::Global;
use std::marker::Model;
use std::mem;
use style_cascade::Styles;
use style_reader::Rules;

/// The most steps of a script or a handler; this project's own limit.
const MOST_STEPS: u32 = 100_000;

/// A document with the world of its scripts, and the events that wait in it. While it acts it is
/// lent what belongs to the receiver, with the timers, and the modules of the service. Contracts see
/// its parts; which document it is is the relation `IsDocument`.
#[derive(Drop)]
pub struct ActingDocument {
    alloc: Global,
    host: ScriptHost,
    programs: Vec<Program>,
    scripts: Vec<u32>,
    handlers: Handlers,
    globals: Globals,
    heap: Heap,
    body: Option<NodeId>,
}

impl Model for ActingDocument {
    ghost use Rattle.dom_tree.specs.NodeNumbers.{number_of};
    ghost use Rattle.acting_documents.specs.devices.Kept.{IsActing, KeptDocument};

    ghost Value = { KeptDocument };

    ghost view = { λ d. record {
      path = d.host.stage.acting.path;
      tree = d.host.stage.acting.tree;
      items = d.host.stage.acting.items;
      queue = d.host.stage.acting.queue;
      programs = d.programs.items;
      handlers = d.handlers;
      globals = d.globals;
      heap = d.heap;
      body = number_of d.body;
      worked = d.host.stage.worked;
      owed = d.host.stage.owed;
      lent = d.host.stage.acting.browser;
      now = d.host.stage.acting.now;
      modules = d.host.modules;
      launched = d.host.stage.acting.launched;
    } };

    ghost invariant = { λ d.
        IsActing d.scripts.items d.programs.items d.handlers d.globals d.heap };
}

impl ActingDocument {
    /// A document that was read at a path, in which nothing happened yet. Its handlers and scripts
    /// name its programs, as `document_load` gives them. One whose programs declare 2^48 functions
    /// takes more memory than there is.
    pub fn new(alloc: Global, path: Path, document: Document) -> Result<ActingDocument, NoMemory>
        requires { HavePlaces document.scripts.items (length document.programs.items)
            (map told_handler document.handlers.items) }
        ensures { IfOk result (λ acting. acting
            ≡ kept_first path document.tree document.rules document.programs.items
            (map told_handler document.handlers.items) acting.owed acting.lent acting.now
            acting.modules) }
    {
        if are_few_functions(&document.programs) {
            ActingDocument::of(alloc, path, document)
        } else {
            drop((path, document));
            Err(NoMemory)
        }
    }

    // The same, where its programs declare few functions.
    fn of(alloc: Global, path: Path, document: Document) -> Result<ActingDocument, NoMemory>
        requires places { HavePlaces document.scripts.items (length document.programs.items)
            (map told_handler document.handlers.items) }
        requires few { length (declared_by document.programs.items) < 2 ^ 48 }
        ensures { IfOk result (λ acting. acting
            ≡ kept_first path document.tree document.rules document.programs.items
            (map told_handler document.handlers.items) acting.owed acting.lent acting.now
            acting.modules) }
    {
        let Document {
            tree,
            rules,
            programs,
            scripts,
            handlers,
            ..
        } = document;
        let body = body_of(&tree);
        let (stage, handlers, globals) = parts_of(alloc, path, tree, rules, handlers)?;
        Ok(ActingDocument {
            alloc,
            host: ScriptHost {
                stage,
                modules: Modules::new(alloc),
            },
            programs,
            scripts,
            handlers,
            globals,
            heap: Heap::new(alloc),
            body,
        })
    }

    /// Exchanges what it is lent with what stands there: what belongs to the receiver before it acts
    /// at this time, and back behind that.
    pub fn exchange(&mut self, browser: &mut BrowserState, now: u64)
        requires { now < 2 ^ 62 }
        ensures lent { self.new ≡ record self.old { lent = browser.old; now = now } }
        ensures given_back { browser.new ≡ self.old.lent }
    {
        self.host.stage.exchange(browser, now);
    }

    /// Exchanges the modules that it is lent with those that stand there: those of the service before
    /// it acts, and back behind that.
    pub fn exchange_modules(&mut self, modules: &mut Modules)
        ensures lent { self.new ≡ record self.old { modules = modules.old } }
        ensures given_back { modules.new ≡ self.old.modules }
    {
        mem::swap(&mut self.host.modules, modules);
    }

    /// Takes the path of the document that was launched.
    pub fn take_launched(&mut self) -> Option<Path>
        ensures path { result ≡ self.old.launched }
        ensures document { self.new ≡ record self.old { launched = None } }
    {
        self.host.stage.take_launched()
    }

    /// Begins the document: its scripts run one behind the other, an element gets the focus where
    /// no script gave it to one, and the first events are posted. Where a script launches another
    /// document, nothing is done behind that.
    pub fn begin(&mut self, out: &mut Vec<u8>) -> Result<(), NoMemory>
        ensures does { OnOk result
            (Does load_effect self.old self.new out.old.items out.new.items) }
        ensures grows { StartsWith out.new.items out.old.items }
    {
        self.run_scripts(out)?;
        if self.host.stage.has_launched() {
            return Ok(());
        }
        self.begin_events(out)
    }

    // Gives an element the focus where none has it, and posts the first events.
    fn begin_events(&mut self, out: &mut Vec<u8>) -> Result<(), NoMemory>
        ensures does { OnOk result
            (Does spec_begin self.old self.new out.old.items out.new.items) }
        ensures grows { StartsWith out.new.items out.old.items }
    {
        self.host.stage.prepare(CurrentEvent::none());
        self.host.stage.begin()?;
        self.host.stage.give_text(out)
    }

    /// Ends the document for another: what waits in it is dropped with its timers, and its body's
    /// `unload` is handled.
    pub fn unload(&mut self, out: &mut Vec<u8>) -> Result<(), NoMemory>
        ensures does { OnOk result
            (Does unload_effect self.old self.new out.old.items out.new.items) }
        ensures grows { StartsWith out.new.items out.old.items }
    {
        self.drop_waiting();
        self.handle(Event::Unload, out)
    }

    // Drops what waits, and the timers.
    fn drop_waiting(&mut self)
        ensures { Changes without_waiting self.old self.new }
    {
        self.host.stage.drop_waiting();
    }

    // Runs the programs of the script elements, one behind the other.
    fn run_scripts(&mut self, out: &mut Vec<u8>) -> Result<(), NoMemory>
        ensures does { OnOk result (Does (λ s. spec_run_scripts (script_places s.document) s)
            self.old self.new out.old.items out.new.items) }
        ensures grows { StartsWith out.new.items out.old.items }
    {
        let places = self.script_places()?;
        self.run_places(places.as_slice(), out)
    }

    // Runs the programs at these places, one behind the other.
    fn run_places(&mut self, places: &[u32], out: &mut Vec<u8>) -> Result<(), NoMemory>
        ensures does { OnOk result (Does (spec_run_scripts places.now)
            self.old self.new out.old.items out.new.items) }
        ensures grows { StartsWith out.new.items out.old.items }
    {
        self.do_nothing();
        'scripts: for place in places {
            if self.host.stage.has_launched() {
                return Ok(());
            }
            self.run_program("script", CurrentEvent::none(), *place as usize, out)?;
        }
        Ok(())
    }

    // The places of the programs of the script elements.
    fn script_places(&self) -> Result<Vec<u32>, NoMemory>
        ensures { IfOk result (λ places. places.items
            ≡ unnamed_places (length self.now.programs) self.now.handlers) }
    {
        let mut places = Vec::new(self.alloc);
        places.extend_from_slice(self.scripts.as_slice())?;
        Ok(places)
    }

    // Runs the program at a place, for the event of this name, as the handler of the current event.
    fn run_program(
        &mut self,
        name: &'static str,
        event: CurrentEvent,
        place: usize,
        out: &mut Vec<u8>,
    ) -> Result<(), NoMemory>
        ensures does { OnOk result (Does (spec_run_program name.now event place)
            self.old self.new out.old.items out.new.items) }
        ensures grows { StartsWith out.new.items out.old.items }
    {
        if place < self.programs.len() {
            self.run_there(name, event, place, out)
        } else {
            self.do_nothing();
            Ok(())
        }
    }

    // The same, where there is one.
    fn run_there(
        &mut self,
        name: &'static str,
        event: CurrentEvent,
        place: usize,
        out: &mut Vec<u8>,
    ) -> Result<(), NoMemory>
        requires { place < length self.old.programs }
        ensures does { OnOk result (Does (spec_run_program name.now event place)
            self.old self.new out.old.items out.new.items) }
        ensures grows { StartsWith out.new.items out.old.items }
    {
        self.host.stage.prepare(event);
        let outcome = run(
            self.programs.as_slice(),
            place,
            &mut self.globals,
            &mut self.heap,
            &mut self.host,
            MOST_STEPS,
        )?;
        self.host.stage.give_text(out)?;
        push_stop_line(outcome, name, out)
    }

    // Nothing is done, and so nothing is launched.
    fn do_nothing(&mut self)
        ensures does { (before : List ℕ) → Does no_effect self.old self.new before before }
        ensures apart { (before : List ℕ)
            → DoesApart no_effect self.old self.new before before }
        ensures modules { self.new.modules ≡ self.old.modules }
    {
        self.host.stage.prepare(CurrentEvent::none());
    }

    // Calls the global of a name, for the event of that other name.
    fn run_function(
        &mut self,
        name: &'static str,
        function: &Text,
        out: &mut Vec<u8>,
    ) -> Result<(), NoMemory>
        ensures does { OnOk result (Does (spec_run_function name.now function.now)
            self.old self.new out.old.items out.new.items) }
        ensures grows { StartsWith out.new.items out.old.items }
    {
        self.host.stage.prepare(CurrentEvent::none());
        let outcome = run_global(
            self.programs.as_slice(),
            function,
            &mut self.globals,
            &mut self.heap,
            &mut self.host,
            MOST_STEPS,
        )?;
        self.host.stage.give_text(out)?;
        push_stop_line(outcome, name, out)
    }

    /// Appends the boxes, texts and pictures of the document, and its focus. No more values of
    /// styles are worked out than were owed.
    pub fn show(&mut self, out: &mut Vec<u8>) -> Result<(), NoMemory>
        ensures shown { OnOk result ((d : TheDocument) → IsDocument self.old d
            → out.new.items ≡ out.old.items ++ document_lines d) }
        ensures kept { self.new
            ≡ record self.old { worked = self.new.worked; owed = self.new.owed } }
        ensures same { (modules : ModulesState)
            → Changes (λ s. s) (lent_modules modules self.old) (lent_modules modules self.new) }
        ensures worked { self.new.worked ≤ self.old.worked + self.old.owed }
        ensures owed { self.new.worked + self.new.owed ≤ self.old.worked + self.old.owed }
        ensures grows { StartsWith out.new.items out.old.items }
    {
        self.host.stage.show(out)
    }

    /// How many values its styles worked out.
    pub fn worked(&self) -> u64
        ensures { result ≡ self.now.worked }
    {
        self.host.stage.worked()
    }
}

// What a document that was read acts on, with its handlers, and the globals of its scripts.
fn parts_of(
    alloc: Global,
    path: Path,
    tree: Tree,
    rules: Rules,
    handlers: Vec<Handler>,
) -> Result<(Stage, Handlers, Globals), NoMemory>
    ensures stage { IfOk result (λ made. made.0
        ≡ first_stage path tree rules made.0.owed made.0.acting.browser made.0.acting.now) }
    ensures handlers { IfOk result (λ made. made.1 ≡ map told_handler handlers.items) }
    ensures globals { IfOk result (λ made. made.2 ≡ []) }
{
    let stage = stage_of(alloc, path, tree, rules)?;
    with_handlers(alloc, stage, handlers)
}

// What is acted on, with these handlers, and globals.
fn with_handlers(
    alloc: Global,
    stage: Stage,
    handlers: Vec<Handler>,
) -> Result<(Stage, Handlers, Globals), NoMemory>
    ensures stage { IfOk result (λ made. made.0 ≡ stage) }
    ensures handlers { IfOk result (λ made. made.1 ≡ map told_handler handlers.items) }
    ensures globals { IfOk result (λ made. made.2 ≡ []) }
{
    match handlers_of(alloc, handlers) {
        Ok((handlers, globals)) => Ok((stage, handlers, globals)),
        Err(NoMemory) => {
            drop(stage);
            Err(NoMemory)
        }
    }
}

// The handlers of a document, and its globals before scripts run.
fn handlers_of(alloc: Global, handlers: Vec<Handler>) -> Result<(Handlers, Globals), NoMemory>
    ensures handlers { IfOk result (λ made. made.0 ≡ map told_handler handlers.items) }
    ensures globals { IfOk result (λ made. made.1 ≡ []) }
{
    let globals = Globals::new(alloc)?;
    let handlers = Handlers::new(alloc, handlers)?;
    Ok((handlers, globals))
}

// What a document that was read acts on.
fn stage_of(alloc: Global, path: Path, tree: Tree, rules: Rules) -> Result<Stage, NoMemory>
    ensures { IfOk result (λ stage. stage
        ≡ first_stage path tree rules stage.owed stage.acting.browser stage.acting.now) }
{
    match Items::new(alloc, &path, &tree) {
        Ok(items) => stage_with(alloc, path, tree, rules, items),
        Err(NoMemory) => {
            drop((path, tree, rules));
            Err(NoMemory)
        }
    }
}

// The same with its event items.
fn stage_with(
    alloc: Global,
    path: Path,
    tree: Tree,
    rules: Rules,
    items: Items,
) -> Result<Stage, NoMemory>
    requires { items ≡ first_items path tree }
    ensures { IfOk result (λ stage. stage
        ≡ first_stage path tree rules stage.owed stage.acting.browser stage.acting.now) }
{
    match Styles::new(alloc, &tree, rules) {
        Ok(styles) => Ok(Stage::new(alloc, path, tree, styles, items)),
        Err(NoMemory) => {
            drop((path, tree, items));
            Err(NoMemory)
        }
    }
}
