//! What a document does while it is lent what belongs to the receiver, and the modules. Each call
//! lends it before the document acts, and takes it back behind that, also where no memory was found.

ghost use Rattle.std.specs.Io.{StartsWith};
ghost use Rattle.std.specs.Prelude.{◌≡◌, ◌<◌, ◌^◌, IfOk, OnOk};
ghost use Rattle.acting_documents.specs.Notices.{IsInTime, notice_effect};
ghost use Rattle.acting_documents.specs.devices.Doings.{Does};
ghost use Rattle.acting_documents.specs.Beginnings.{data_event_effect};
ghost use Rattle.page.specs.devices.Acts.{Acts, ActsApart, ActsLent, Ends, GivesWay, with_lent, task_effect};

use acting_documents::{ActingDocument, Notice};
use bml_bytes::NoMemory;
use browser_objects::BrowserState;
use event_queue::Event;
use module_locks::Modules;
use multipart_entities::Path;

/// What a document does in a dispatch: it begins, or it handles an event that was taken.
#[derive(Drop)]
pub enum Task {
    Begin,
    Handle(Event),
}

/// Lets a document do what it does in a dispatch. Answers the path of the document that it launched,
/// if it launched one: then its `unload` was handled.
pub fn act(
    document: &mut ActingDocument,
    browser: &mut BrowserState,
    modules: &mut Modules,
    clock: u64,
    task: Task,
    out: &mut Vec<u8>,
) -> Result<Option<Path>, NoMemory>
    requires { clock < 2 ^ 62 }
    ensures acts { IfOk result (λ launched.
        Acts (task_effect task) launched clock document.old document.new
        (record { browser = browser.old; modules = modules.old })
        (record { browser = browser.new; modules = modules.new }) out.old.items out.new.items) }
    ensures grows { StartsWith out.new.items out.old.items }
{
    exchange(document, browser, modules, clock);
    let acted = act_lent(document, task, out);
    exchange(document, browser, modules, clock);
    acted
}

/// Lets a document end for a data event.
pub fn end_for_data_event(
    document: &mut ActingDocument,
    browser: &mut BrowserState,
    modules: &mut Modules,
    clock: u64,
    out: &mut Vec<u8>,
) -> Result<(), NoMemory>
    requires { clock < 2 ^ 62 }
    ensures ends { OnOk result (Ends data_event_effect clock document.old
        (record { browser = browser.old; modules = modules.old })
        (record { browser = browser.new; modules = modules.new }) out.old.items out.new.items) }
    ensures grows { StartsWith out.new.items out.old.items }
{
    exchange(document, browser, modules, clock);
    let ended = document.end_for_data_event(out);
    exchange(document, browser, modules, clock);
    ended
}

// Exchanges what a document is lent with what stands there, at this time.
fn exchange(
    document: &mut ActingDocument,
    browser: &mut BrowserState,
    modules: &mut Modules,
    clock: u64,
)
    requires { clock < 2 ^ 62 }
    ensures lent { document.new ≡ with_lent document.old
        (record { browser = browser.old; modules = modules.old }) clock }
    ensures browser { browser.new ≡ document.old.lent }
    ensures modules { modules.new ≡ document.old.modules }
{
    document.exchange(browser, clock);
    document.exchange_modules(modules);
}

// The same of a document that is lent what it acts on.
fn act_lent(
    document: &mut ActingDocument,
    task: Task,
    out: &mut Vec<u8>,
) -> Result<Option<Path>, NoMemory>
    ensures acts { IfOk result (λ launched. ActsLent (task_effect task) launched
        document.old document.new out.old.items out.new.items) }
    ensures grows { StartsWith out.new.items out.old.items }
{
    perform(document, task, out)?;
    give_way(document, out)
}

// Begins the document, or lets it handle an event.
fn perform(document: &mut ActingDocument, task: Task, out: &mut Vec<u8>) -> Result<(), NoMemory>
    ensures does { OnOk result
        (Does (task_effect task) document.old document.new out.old.items out.new.items) }
    ensures grows { StartsWith out.new.items out.old.items }
{
    match task {
        Task::Begin => document.begin(out),
        Task::Handle(event) => document.handle(event, out),
    }
}

// Takes the path of the document that was launched. Where one was, this one's `unload` is handled.
fn give_way(document: &mut ActingDocument, out: &mut Vec<u8>) -> Result<Option<Path>, NoMemory>
    ensures gives { IfOk result (λ launched.
        GivesWay launched document.old document.new out.old.items out.new.items) }
    ensures grows { StartsWith out.new.items out.old.items }
{
    let launched = document.take_launched();
    if launched.is_some() {
        document.unload(out)?;
    }
    Ok(launched)
}

/// Tells a document something, which posts the events of that.
pub fn tell(
    document: &mut ActingDocument,
    browser: &mut BrowserState,
    clock: u64,
    notice: Notice<'_>,
    out: &mut Vec<u8>,
) -> Result<(), NoMemory>
    requires clock { clock < 2 ^ 62 }
    requires notice { IsInTime notice }
    ensures acts { OnOk result (ActsApart (notice_effect notice.entry) clock
        document.old document.new browser.old browser.new out.old.items out.new.items) }
    ensures grows { StartsWith out.new.items out.old.items }
{
    document.exchange(browser, clock);
    let told = document.tell(notice, out);
    document.exchange(browser, clock);
    told
}
