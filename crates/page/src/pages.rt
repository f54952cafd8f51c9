//! The page: what becomes of the documents that come, and of keys and the clock.

ghost use Rattle.std.specs.Io.{StartsWith};
ghost use Rattle.std.specs.Prelude.{◌≡◌, ◌+◌, ◌<◌, ◌≤◌, ◌≤ℤ◌, ◌^◌, ◌||◌, ◌∷◌, ◌++◌, ℕ, pos, List, [], false, true, None, IfOk, IsErr, OnErr, OnOk, is_err};
ghost use Rattle.acting_documents.specs.Notices.{IsInTime, notice_effect};
ghost use Rattle.es_reader.specs.Readers.{Reader, IsReader};
ghost use Rattle.carousel_blocks.specs.DataEvents.{is_data_event};
ghost use Rattle.event_queue.specs.Timers.{least_moment};
ghost use Rattle.module_locks.specs.Locks.{at_start};
ghost use Rattle.module_locks.specs.Standing.{ModulesState};
ghost use Rattle.module_locks.specs.Standing as of_modules;
ghost use Rattle.page.specs.Dispatches.{dispatch as spec_dispatch, next_data_event, next_event, next_load, turn as spec_turn};
ghost use Rattle.page.specs.Inputs.{display_of, document_step, due_step, key_step, message_step, told_step, with_date, with_random};
ghost use Rattle.page.specs.devices.Pendings.{loading_behind};
ghost use Rattle.page.specs.Standing.{Begins, EndsDocument, IsSpent, KeepsBeside, Makes, MakesAmid, MakesWith, MayMake, Posts, StandsFor, TakesLoad, behind_end, behind_launch, page_area, page_owed, Remembers, RemembersLoads, RemembersStill, memory_of, next_loads, wanted_loads};
ghost use Rattle.page.specs.Remembering.{loads_of_turn};
ghost use Rattle.page.specs.State.{State, opening};
ghost use Rattle.page.specs.declared.loading.Loading.TheVariants as kept;

use crate::acts::{Task, act, end_for_data_event, tell};
use crate::loading::{Load, Loading};
use crate::memory::Memory;
use acting_documents::{ActingDocument, Notice};
use bml_bytes::{AreaBytes, NoMemory, law_of_fronts};
use browser_objects::BrowserState;
use display_list::push_clock_line;
use event_messages::Message;
use module_locks::{Change, Modules, push_change_line};
use multipart_entities::Path;
use std::alloc::Global;
use std::marker::Model;
use std::mem;

/// The most dispatches of a turn; this project's own limit.
const MOST_DISPATCHES: u32 = 256;

/// A page of the data broadcast: the document that is there or wanted, the time, and what belongs
/// to the receiver: the registers, the persistent area, the random words and the date, with the timers.
///
/// What came to it before a turn is handled in it, by [`turn`](Page::turn). Once a call has
/// answered
/// `NoMemory` the page is spent: each later one that can answer it does.
#[derive(Drop)]
pub struct Page {
    alloc: Global,
    document: Option<ActingDocument>,
    loading: Loading,
    memory: Memory,
    /// Whether a data event waits.
    data_event: bool,
    clock: u64,
    browser: BrowserState,
    spent: bool,
}

impl Model for Page {
    ghost use Rattle.std.specs.Prelude.{◌<◌, ◌^◌};
    ghost use Rattle.std.specs.Option.{option_map_or};
    ghost use Rattle.page.specs.Standing.{IsAlone, PageState};

    ghost Value = { PageState };

    ghost view = { λ p. record {
      clock = p.clock;
      browser = p.browser;
      worked = option_map_or (λ document. document.worked) p.document 0;
      data_event = p.data_event;
      spent = p.spent;
      remembered = p.memory.remembered;
      hits = p.memory.hits;
      document = p.document;
      loading = p.loading;
      entries = p.memory.entries;
    } };

    ghost invariant = { λ p. (p.clock < 2 ^ 62) × IsAlone p.document p.loading };
}

impl Page {
    /// A page with this persistent area: there is no document, and the start document is wanted.
    pub fn fresh(alloc: Global, area: AreaBytes) -> Result<Page, NoMemory>
        ensures stands { IfOk result (λ page. (read : Reader) → IsReader read
            → (modules : ModulesState) → of_modules.StandsFor modules at_start
            → StandsFor page modules (opening read area)) }
        ensures unspent { IfOk result (λ page. page.spent ≡ false) }
        ensures worked { IfOk result (λ page. page.worked ≡ 0) }
        ensures clock { IfOk result (λ page. page.clock ≡ 0) }
        ensures area { IfOk result (λ page. page_area page ≡ area) }
        ensures remembered { IfOk result (λ page. page.remembered ≡ []) }
        ensures hits { IfOk result (λ page. page.hits ≡ 0) }
    {
        let memory = Memory::new(alloc)?;
        let browser = BrowserState::new(alloc, area)?;
        Ok(Page {
            alloc,
            document: None,
            loading: Loading::Start,
            memory,
            data_event: false,
            clock: 0,
            browser,
            spent: false,
        })
    }

    /// Takes a change in a module of a component: appends its line, and posts the events of the
    /// event items that are told of it. A data event waits from its change on. Changes behind it are
    /// still to be posted.
    pub fn post_change(
        &mut self,
        component: u8,
        change: &Change,
        out: &mut Vec<u8>,
    ) -> Result<(), NoMemory>
        ensures posted { OnOk result (Posts ((component, change.now) ∷ [])
            self.old self.new out.old.items out.new.items) }
        ensures loading { OnOk result
            (self.new.loading ≡ loading_behind component change.now self.old.loading) }
        ensures clock { self.new.clock ≡ self.old.clock }
        ensures grows { StartsWith out.new.items out.old.items }
        ensures unspent { OnOk result (self.new.spent ≡ false) }
        ensures spent { OnErr result (IsSpent self.new) }
        ensures after_spent { IsSpent self.old → IsErr result }
        ensures remembers { RemembersStill self.old self.new }
    {
        self.refuse_spent()?;
        self.loading.follow(component, change);
        self.note_data_event(change);
        let told = self.tell_change(component, change, out);
        self.spent_by(told)
    }

    // A data event waits from its change on.
    fn note_data_event(&mut self, change: &Change)
        ensures { self.new ≡ record self.old {
          data_event = self.old.data_event || is_data_event change.now;
        } }
    {
        if change.is_data_event() {
            self.data_event = true;
        }
    }

    // Appends the line of a change, and posts the events of the event items that are told of it.
    fn tell_change(
        &mut self,
        component: u8,
        change: &Change,
        out: &mut Vec<u8>,
    ) -> Result<(), NoMemory>
        ensures told { OnOk result (MakesAmid (told_step component change.now)
            self.old self.new out.old.items out.new.items) }
        ensures loading { self.new.loading ≡ self.old.loading }
        ensures clock { self.new.clock ≡ self.old.clock }
        ensures spent { self.new.spent ≡ self.old.spent }
        ensures grows { StartsWith out.new.items out.old.items }
        ensures remembers { RemembersStill self.old self.new }
    {
        law_of_fronts();
        push_change_line(component, change, out)?;
        self.tell(Notice::Change { component, change }, out)
    }

    // Tells the document something, where there is one, which posts the events of that.
    fn tell(&mut self, notice: Notice<'_>, out: &mut Vec<u8>) -> Result<(), NoMemory>
        requires { IsInTime notice }
        ensures told { OnOk result (MakesAmid (document_step (notice_effect notice.entry))
            self.old self.new out.old.items out.new.items) }
        ensures kept { KeepsBeside self.old self.new }
        ensures grows { StartsWith out.new.items out.old.items }
    {
        match &mut self.document {
            Some(document) => tell(document, &mut self.browser, self.clock, notice, out),
            None => Ok(()),
        }
    }

    /// Posts the events of the event items of the document that fire for a message of a component,
    /// in document order. A post where 256 events wait is lost, which a line tells, and its firing
    /// isn't noted. Nothing is dispatched.
    pub fn post_message(
        &mut self,
        component: u8,
        message: &Message,
        out: &mut Vec<u8>,
    ) -> Result<(), NoMemory>
        ensures posted { OnOk result (Makes (message_step component message.now)
            self.old self.new out.old.items out.new.items) }
        ensures loading { self.new.loading ≡ self.old.loading }
        ensures clock { self.new.clock ≡ self.old.clock }
        ensures grows { StartsWith out.new.items out.old.items }
        ensures unspent { OnOk result (self.new.spent ≡ false) }
        ensures spent { OnErr result (IsSpent self.new) }
        ensures after_spent { IsSpent self.old → IsErr result }
        ensures remembers { RemembersStill self.old self.new }
    {
        self.refuse_spent()?;
        let told = self.tell(Notice::Message { component, message }, out);
        self.spent_by(told)
    }

    /// Posts what a key does that is pressed (`down`) or released: where the used-key-list of the
    /// document's body has the key's group, `keydown` and then `default`, or `keyup`; and behind
    /// the data button the events of the event items that are told of it. A post where 256 events
    /// wait is lost, which a line tells. Nothing is dispatched.
    pub fn post_key(&mut self, code: u8, down: bool, out: &mut Vec<u8>) -> Result<(), NoMemory>
        ensures posted { OnOk result
            (Makes (key_step code down) self.old self.new out.old.items out.new.items) }
        ensures loading { self.new.loading ≡ self.old.loading }
        ensures clock { self.new.clock ≡ self.old.clock }
        ensures grows { StartsWith out.new.items out.old.items }
        ensures unspent { OnOk result (self.new.spent ≡ false) }
        ensures spent { OnErr result (IsSpent self.new) }
        ensures after_spent { IsSpent self.old → IsErr result }
        ensures remembers { RemembersStill self.old self.new }
    {
        self.refuse_spent()?;
        let told = self.tell(Notice::Key { key: code, down }, out);
        self.spent_by(told)
    }

    /// The moment when a timer of the document is due next, and None where none is.
    pub fn next_due(&self) -> Option<u64>
        ensures { result ≡ least_moment self.now.browser.timers.timers }
    {
        self.browser.timers.next_due()
    }

    /// The clock goes to a moment, in milliseconds, and the timers that are due then post their
    /// events. A post where 256 events wait is lost, which a line tells. Nothing is dispatched.
    pub fn post_due(&mut self, moment: u64, out: &mut Vec<u8>) -> Result<(), NoMemory>
        requires { moment < 2 ^ 62 }
        ensures moved { OnOk result
            (Makes (due_step moment) self.old self.new out.old.items out.new.items) }
        ensures loading { self.new.loading ≡ self.old.loading }
        ensures clock { OnOk result (self.new.clock ≡ moment) }
        ensures kept { OnErr result (self.new.clock ≡ self.old.clock) }
        ensures grows { StartsWith out.new.items out.old.items }
        ensures unspent { OnOk result (self.new.spent ≡ false) }
        ensures spent { OnErr result (IsSpent self.new) }
        ensures after_spent { IsSpent self.old → IsErr result }
        ensures remembers { RemembersStill self.old self.new }
    {
        self.refuse_spent()?;
        let moved = self.move_to(moment, out);
        self.spent_by(moved)
    }

    /// The clock goes to a moment at which nothing is due.
    pub fn pass_time(&mut self, moment: u64)
        requires { moment < 2 ^ 62 }
        ensures { self.new ≡ record self.old { clock = moment } }
    {
        self.clock = moment;
    }

    /// Appends a word to the random words that are left.
    pub fn add_random(&mut self, word: u32) -> Result<(), NoMemory>
        ensures added { OnOk result ((modules : ModulesState) (s : State)
            → StandsFor self.old modules s → StandsFor self.new modules (with_random word s)) }
        ensures loading { self.new.loading ≡ self.old.loading }
        ensures clock { self.new.clock ≡ self.old.clock }
        ensures area { page_area self.new ≡ page_area self.old }
        ensures unspent { OnOk result (self.new.spent ≡ false) }
        ensures spent { OnErr result (IsSpent self.new) }
        ensures after_spent { IsSpent self.old → IsErr result }
        ensures remembers { RemembersStill self.old self.new }
    {
        self.refuse_spent()?;
        let added = match self.browser.random.push_back(word) {
            Ok(()) => Ok(()),
            Err(_) => Err(NoMemory),
        };
        self.spent_by(added)
    }

    /// It is now this second (0 to 86,399) of this day (0 to 157,053, counted from 1970-01-01). Nothing
    /// is printed and no event is posted. Scripts that ask later are told how far the clock has gone
    /// from there. This takes no memory.
    pub fn set_date(&mut self, day: i32, second: u32)
        requires first { pos 0 ≤ℤ day }
        requires last { day ≤ℤ pos 157053 }
        requires second { second < 86400 }
        ensures dated { (modules : ModulesState) (s : State) → StandsFor self.old modules s
            → StandsFor self.new modules (with_date day second s) }
        ensures loading { self.new.loading ≡ self.old.loading }
        ensures clock { self.new.clock ≡ self.old.clock }
        ensures area { page_area self.new ≡ page_area self.old }
        ensures spent { self.new.spent ≡ self.old.spent }
        ensures remembers { RemembersStill self.old self.new }
    {
        self.browser.date = Some((day, second, self.clock));
    }

    /// Makes a turn: at most 256 dispatches, each of which handles the data event that waits, or else
    /// loads the wanted document, where it can be loaded, or else handles the event that waits
    /// longest; and appends what they print. The
    /// modules are those of the page's earlier turns, whose changes since were all posted. Scripts
    /// may lock and unlock some of them. A load that is of a document which the page remembers
    /// doesn't read it again, and changes no line.
    pub fn turn(&mut self, modules: &mut Modules, out: &mut Vec<u8>) -> Result<(), NoMemory>
        ensures turned { OnOk result (MakesWith modules.old modules.new spec_turn
            self.old self.new out.old.items out.new.items) }
        ensures remembered { OnOk result ((s : State) → StandsFor self.old modules.old s
            → Remembers (loads_of_turn s) self.old self.new) }
        ensures clock { self.new.clock ≡ self.old.clock }
        ensures grows { StartsWith out.new.items out.old.items }
        ensures unspent { OnOk result (self.new.spent ≡ false) }
        ensures spent { OnErr result (IsSpent self.new) }
        ensures after_spent { IsSpent self.old → IsErr result }
    {
        self.refuse_spent()?;
        let turned = self.make_dispatches(modules, out);
        self.spent_by(turned)
    }

    /// Appends the display list: `show` with the time, and the boxes, texts and pictures of the
    /// document, where there is one, and its focus. No more values of styles are worked out than
    /// were owed.
    pub fn show(&mut self, out: &mut Vec<u8>) -> Result<(), NoMemory>
        ensures shown { OnOk result (Makes (λ s. record { state = s; text = display_of s })
            self.old self.new out.old.items out.new.items) }
        ensures loading { self.new.loading ≡ self.old.loading }
        ensures clock { self.new.clock ≡ self.old.clock }
        ensures worked { self.new.worked ≤ self.old.worked + page_owed self.old }
        ensures owed { self.new.worked + page_owed self.new
            ≤ self.old.worked + page_owed self.old }
        ensures grows { StartsWith out.new.items out.old.items }
        ensures unspent { OnOk result (self.new.spent ≡ false) }
        ensures spent { OnErr result (IsSpent self.new) }
        ensures after_spent { IsSpent self.old → IsErr result }
        ensures remembers { RemembersStill self.old self.new }
    {
        self.refuse_spent()?;
        let shown = self.push_display(out);
        self.spent_by(shown)
    }

    /// How many values of styles were worked out for the document, and 0 without one.
    pub fn worked(&self) -> u64
        ensures { result ≡ self.now.worked }
    {
        match &self.document {
            Some(document) => document.worked(),
            None => 0,
        }
    }

    /// How many loads were of a document that was remembered, of which nothing had come anew, and
    /// nothing of what it needs: it wasn't read again. The count stands still at 2^64 - 1. This
    /// takes no memory.
    pub fn cache_hits(&self) -> u64
        ensures { result ≡ self.now.hits }
    {
        self.memory.hits()
    }

    /// The persistent area.
    pub fn area(&self) -> &AreaBytes
        ensures { result.now ≡ page_area self.now }
    {
        &self.browser.area
    }

    /// The time, in milliseconds.
    pub fn clock(&self) -> u64
        ensures clock { result ≡ self.now.clock }
        ensures bound { result < 2 ^ 62 }
    {
        self.clock
    }

    // A page that is spent takes nothing any more.
    fn refuse_spent(&self) -> Result<(), NoMemory>
        ensures unspent { OnOk result (self.now.spent ≡ false) }
        ensures spent { OnErr result (IsSpent self.now) }
    {
        if self.spent { Err(NoMemory) } else { Ok(()) }
    }

    // Where a call found no memory, the page is spent.
    fn spent_by(&mut self, called: Result<(), NoMemory>) -> Result<(), NoMemory>
        ensures same { result ≡ called }
        ensures page { self.new ≡ record self.old { spent = is_err called } }
    {
        self.spent = called.is_err();
        called
    }

    // The clock goes to a moment, and the timers that are due then post their events.
    fn move_to(&mut self, moment: u64, out: &mut Vec<u8>) -> Result<(), NoMemory>
        requires { moment < 2 ^ 62 }
        ensures moved { OnOk result
            (Makes (due_step moment) self.old self.new out.old.items out.new.items) }
        ensures loading { self.new.loading ≡ self.old.loading }
        ensures clock { OnOk result (self.new.clock ≡ moment) }
        ensures kept { OnErr result (self.new.clock ≡ self.old.clock) }
        ensures grows { StartsWith out.new.items out.old.items }
        ensures remembers { RemembersStill self.old self.new }
    {
        self.tell(Notice::Moment(moment), out)?;
        self.clock = moment;
        Ok(())
    }

    // Makes dispatches, one behind the other, as long as there is one, and at most 256.
    fn make_dispatches(&mut self, modules: &mut Modules, out: &mut Vec<u8>) -> Result<(), NoMemory>
        ensures turned { OnOk result (MakesWith modules.old modules.new spec_turn
            self.old self.new out.old.items out.new.items) }
        ensures clock { self.new.clock ≡ self.old.clock }
        ensures grows { StartsWith out.new.items out.old.items }
        ensures remembers { OnOk result
            (RemembersLoads loads_of_turn modules.old self.old self.new) }
    {
        law_of_fronts();
        'dispatches: for _dispatch in 0..MOST_DISPATCHES {
            if !self.dispatch(modules, out)? {
                return Ok(());
            }
        }
        Ok(())
    }

    // Makes the next dispatch, and tells whether there was one.
    fn dispatch(&mut self, modules: &mut Modules, out: &mut Vec<u8>) -> Result<bool, NoMemory>
        ensures made { IfOk result (λ made. MayMake made modules.old modules.new spec_dispatch
            self.old self.new out.old.items out.new.items) }
        ensures clock { self.new.clock ≡ self.old.clock }
        ensures grows { StartsWith out.new.items out.old.items }
        ensures remembers { OnOk result (RemembersLoads next_loads modules.old self.old self.new) }
    {
        if self.handle_data_event(modules, out)? {
            return Ok(true);
        }
        if self.load(modules, out)? {
            return Ok(true);
        }
        self.handle_next(modules, out)
    }

    // Handles the data event that waits, and tells whether one did: the document that is there ends,
    // and the start document is wanted.
    fn handle_data_event(
        &mut self,
        modules: &mut Modules,
        out: &mut Vec<u8>,
    ) -> Result<bool, NoMemory>
        ensures made { IfOk result (λ made. MayMake made modules.old modules.new next_data_event
            self.old self.new out.old.items out.new.items) }
        ensures clock { self.new.clock ≡ self.old.clock }
        ensures grows { StartsWith out.new.items out.old.items }
        ensures remembers { RemembersStill self.old self.new }
    {
        if !self.data_event {
            return Ok(false);
        }
        self.data_event = false;
        self.end_document(modules, out)?;
        drop(mem::replace(&mut self.loading, Loading::Start));
        Ok(true)
    }

    // Ends the document for a data event, where there is one.
    fn end_document(&mut self, modules: &mut Modules, out: &mut Vec<u8>) -> Result<(), NoMemory>
        ensures ended { OnOk result (EndsDocument modules.old modules.new self.old.document
            self.old self.new out.old.items out.new.items) }
        ensures clock { self.new.clock ≡ self.old.clock }
        ensures grows { StartsWith out.new.items out.old.items }
        ensures remembers { RemembersStill self.old self.new }
    {
        let Some(document) = &mut self.document else {
            return Ok(());
        };
        end_for_data_event(document, &mut self.browser, modules, self.clock, out)?;
        self.drop_document();
        Ok(())
    }

    // Lets the document that acts handle the event that waits longest, and tells whether there was
    // one.
    fn handle_next(&mut self, modules: &mut Modules, out: &mut Vec<u8>) -> Result<bool, NoMemory>
        ensures made { IfOk result (λ made. MayMake made modules.old modules.new next_event
            self.old self.new out.old.items out.new.items) }
        ensures clock { self.new.clock ≡ self.old.clock }
        ensures grows { StartsWith out.new.items out.old.items }
        ensures remembers { RemembersStill self.old self.new }
    {
        let Some(document) = &mut self.document else {
            return Ok(false);
        };
        let Some(event) = document.take_event() else {
            return Ok(false);
        };
        let task = Task::Handle(event);
        let launched = act(document, &mut self.browser, modules, self.clock, task, out)?;
        self.go_on(launched);
        Ok(true)
    }

    // Loads the document that is wanted, where it can be loaded, and tells whether it was loaded or
    // refused.
    fn load(&mut self, modules: &mut Modules, out: &mut Vec<u8>) -> Result<bool, NoMemory>
        ensures made { IfOk result (λ made. MayMake made modules.old modules.new next_load
            self.old self.new out.old.items out.new.items) }
        ensures clock { self.new.clock ≡ self.old.clock }
        ensures grows { StartsWith out.new.items out.old.items }
        ensures remembers { OnOk result
            (RemembersLoads wanted_loads modules.old self.old self.new) }
    {
        if !self.loading.may_load(modules)? {
            return Ok(false);
        }
        let loading = mem::replace(&mut self.loading, Loading::Nothing);
        let came = loading.load(self.alloc, modules, &mut self.memory, out)?;
        self.take_load(came, modules, out)
    }

    // Takes what came of a load, where there is no document, and none is wanted beside it: goes on
    // waiting, or has the document that is loaded, or none where it is refused. Tells whether it
    // was loaded or refused.
    fn take_load(
        &mut self,
        came: Load,
        modules: &mut Modules,
        out: &mut Vec<u8>,
    ) -> Result<bool, NoMemory>
        requires free { self.old.document ≡ None }
        requires unwanted { self.old.loading ≡ kept.Nothing }
        ensures taken { IfOk result (λ made. TakesLoad modules.old modules.new came made
            self.old self.new out.old.items out.new.items) }
        ensures clock { self.new.clock ≡ self.old.clock }
        ensures grows { StartsWith out.new.items out.old.items }
        ensures memory { memory_of self.new ≡ memory_of self.old }
    {
        match came {
            Load::Waits(loading) => {
                drop(mem::replace(&mut self.loading, loading));
                Ok(false)
            }
            Load::Refused => {
                drop(mem::replace(&mut self.document, None));
                Ok(true)
            }
            Load::Loaded(document) => {
                self.begin(document, modules, out)?;
                Ok(true)
            }
        }
    }

    // Has a document that was loaded, and begins it.
    fn begin(
        &mut self,
        mut document: ActingDocument,
        modules: &mut Modules,
        out: &mut Vec<u8>,
    ) -> Result<(), NoMemory>
        requires { self.old.loading ≡ kept.Nothing }
        ensures begins { OnOk result (Begins modules.old modules.new document
            self.old self.new out.old.items out.new.items) }
        ensures clock { self.new.clock ≡ self.old.clock }
        ensures grows { StartsWith out.new.items out.old.items }
        ensures memory { memory_of self.new ≡ memory_of self.old }
    {
        let task = Task::Begin;
        let begun = act(
            &mut document,
            &mut self.browser,
            modules,
            self.clock,
            task,
            out,
        );
        drop(mem::replace(&mut self.document, Some(document)));
        let launched = begun?;
        self.go_on(launched);
        Ok(())
    }

    // Goes on behind what the document did. Where it launched another one, it is gone with its
    // timers and its tables, and the other one is wanted.
    fn go_on(&mut self, launched: Option<Path>)
        ensures { self.new ≡ behind_launch launched self.old }
    {
        let Some(path) = launched else {
            return;
        };
        self.drop_document();
        drop(mem::replace(&mut self.loading, Loading::At(path)));
    }

    // The document is gone, with its timers and its tables.
    fn drop_document(&mut self)
        ensures { self.new ≡ behind_end self.old.browser self.old }
    {
        drop(mem::replace(&mut self.document, None));
        self.browser.end_document(self.alloc);
    }

    // Appends the line of the clock, and what the document shows.
    fn push_display(&mut self, out: &mut Vec<u8>) -> Result<(), NoMemory>
        ensures shown { OnOk result (Makes (λ s. record { state = s; text = display_of s })
            self.old self.new out.old.items out.new.items) }
        ensures loading { self.new.loading ≡ self.old.loading }
        ensures clock { self.new.clock ≡ self.old.clock }
        ensures worked { self.new.worked ≤ self.old.worked + page_owed self.old }
        ensures owed { self.new.worked + page_owed self.new
            ≤ self.old.worked + page_owed self.old }
        ensures grows { StartsWith out.new.items out.old.items }
        ensures remembers { RemembersStill self.old self.new }
    {
        law_of_fronts();
        push_clock_line(self.clock, out)?;
        match &mut self.document {
            Some(document) => document.show(out),
            None => Ok(()),
        }
    }
}
