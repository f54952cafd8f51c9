//! The broadcast that is received, with its tables, its modules and its page; and what comes to it
//! beside sections.

ghost use Rattle.std.specs.Prelude.{◌≡◌, ◌≤◌, ◌<◌, ◌+◌, ◌^◌, ◌++◌, ℕ, List, false, length, map, option_to_list};
ghost use Rattle.std.specs.Prelude.{IfOk, OnOk};
ghost use Rattle.std.specs.Io.{StartsWith};
ghost use Rattle.psi_tables.specs.Service.{reads_table};
ghost use Rattle.es_reader.specs.Readers.{Reader, IsReader};
ghost use Rattle.page.specs.Inputs.{messages_step};
ghost use Rattle.page.specs.Standing.{Makes as page_makes, Posts, page_area};
ghost use Rattle.receiver_core.specs.BroadcastCalls.{MakesInput, PassesTime, Stops};
ghost use Rattle.receiver_core.specs.Broadcasts.{Makes, StandsFor};
ghost use Rattle.receiver_core.specs.Receiving.{IsDate, IsSilent, MayCome};
ghost use Rattle.receiver_core.specs.State.{opening};
ghost use Rattle.receiver_core.specs.Turns.{due_turn, key_turn, of_page, page_turn, rows_step};
ghost use Rattle.receiver_core.specs.Turns.{section_messages, step_of_component, step_of_modules};
ghost use Rattle.receiver_core.specs.Turns.{step_of_section, step_of_table, turn, with_handled};

use bml_bytes::{AreaBytes, NoMemory, TableRefusal, law_of_fronts};
use event_messages::{Message, law_of_messages, read_messages};
use module_locks::{Change, Modules, SectionChanges};
use page::{Page, law_of_posted_changes};
use psi_tables::{Selection, Services, law_of_component_map, law_of_unread_sections};
use std::alloc::Global;
use std::marker::Model;
use text_lines::{Align, add_rows};

/// An input that is handed in whole: each but packets, whose sections have their turns one by one,
/// and time, which stops at each turn.
#[derive(Clone, Copy, Debug, PartialEq, Eq)]
pub enum Input {
    /// A key is pressed: 1 to 14 or 18 to 24.
    Key(u8),
    /// A key is released: 1 to 14 or 18 to 24.
    Release(u8),
    /// A random word, which waits behind those that are left.
    Random(u32),
    /// It is now this second, 0 to 86,399, of this day, 0 to 157,053, which is counted from 1970-01-01.
    Date(i32, u32),
    /// The wish to see what is displayed.
    Show,
    /// The wish to see it with the rows of its texts, each with so many pixels between two codes.
    Rows(u32, Align),
}

/// Makes the turns of intact sections, and takes the other inputs.
#[derive(Drop)]
pub struct Broadcast {
    alloc: Global,
    services: Services,
    modules: Modules,
    page: Page,
}

impl Model for Broadcast {
    ghost use Rattle.receiver_core.specs.Broadcasts.{BroadcastState};

    ghost Value = { BroadcastState };

    ghost view = { λ b. record { services = b.services; modules = b.modules; page = b.page } };
}

impl Broadcast {
    /// The service or the data that is asked for, before the first section, with this persistent
    /// area. With a data PID it takes memory for its component.
    pub fn new(alloc: Global, selection: Selection, area: AreaBytes) -> Result<Broadcast, NoMemory>
        ensures stands { IfOk result (λ broadcast. (read : Reader) → IsReader read
            → StandsFor broadcast (opening read selection area)) }
        ensures clock { IfOk result (λ broadcast. broadcast.page.clock ≡ 0) }
        ensures area { IfOk result (λ broadcast. page_area broadcast.page ≡ area) }
    {
        law_of_component_map();
        law_of_posted_changes();
        let services = Services::new(alloc, selection);
        let mut modules = Modules::new(alloc);
        modules.set_components(&services)?;
        let page = Page::fresh(alloc, area)?;
        Ok(Broadcast {
            alloc,
            services,
            modules,
            page,
        })
    }

    /// The tables: which PIDs are wanted.
    pub fn services(&self) -> &Services
        ensures { result.now ≡ self.now.services }
    {
        &self.services
    }

    /// The persistent area.
    pub fn area(&self) -> &AreaBytes
        ensures { result.now ≡ page_area self.now.page }
    {
        self.page.area()
    }

    /// Makes the turn of the next intact section, which came on that PID, and appends what it
    /// prints. After `NoMemory` nothing is said of it, and what was appended stops anywhere.
    #[tactic(auto, unfolding(crate::specs::Turns::turn))]
    pub fn turn(&mut self, pid: u16, section: &[u8], out: &mut Vec<u8>) -> Result<(), NoMemory>
        requires { 12 ≤ length section.now }
        ensures makes { OnOk result
            (Makes (turn pid section.now) self.old self.new out.old.items out.new.items) }
        ensures clock { OnOk result (self.new.page.clock ≡ self.old.page.clock) }
        ensures grows { StartsWith out.new.items out.old.items }
    {
        self.take(pid, section, out)?;
        self.page_turn(out)
    }

    /// Takes an input that is handed in whole, and appends what it prints. After `NoMemory` nothing
    /// is said of it, and what was appended stops anywhere.
    pub fn input(&mut self, input: Input, out: &mut Vec<u8>) -> Result<(), NoMemory>
        requires { MayCome input }
        ensures makes { OnOk result (MakesInput input
            self.old self.new out.old.items out.new.items) }
        ensures services { self.new.services ≡ self.old.services }
        ensures clock { self.new.page.clock ≡ self.old.page.clock }
        ensures silent { IsSilent input → out.new ≡ out.old }
        ensures grows { StartsWith out.new.items out.old.items }
    {
        match input {
            Input::Key(code) => self.key_turn(code, true, out),
            Input::Release(code) => self.key_turn(code, false, out),
            Input::Random(word) => self.page.add_random(word),
            Input::Date(day, second) => {
                self.set_date(day, second);
                Ok(())
            }
            Input::Show => self.page.show(out),
            Input::Rows(spacing, align) => self.show_rows(spacing, align, out),
        }
    }

    /// It is now this second of this day, for scripts that ask. Prints nothing and makes no turn.
    pub fn set_date(&mut self, day: i32, second: u32)
        requires { IsDate day second }
        ensures makes { (text : List ℕ)
            → MakesInput (Input.Date day second) self.old self.new text text }
        ensures services { self.new.services ≡ self.old.services }
        ensures area { page_area self.new.page ≡ page_area self.old.page }
        ensures clock { self.new.page.clock ≡ self.old.page.clock }
    {
        self.page.set_date(day, second);
    }

    // Makes the turn of a key that is pressed (`down`) or released.
    #[tactic(auto, unfolding(crate::specs::Turns::key_turn))]
    fn key_turn(&mut self, code: u8, down: bool, out: &mut Vec<u8>) -> Result<(), NoMemory>
        ensures makes { OnOk result
            (Makes (key_turn code down) self.old self.new out.old.items out.new.items) }
        ensures services { self.new.services ≡ self.old.services }
        ensures clock { self.new.page.clock ≡ self.old.page.clock }
        ensures grows { StartsWith out.new.items out.old.items }
    {
        self.page.post_key(code, down, out)?;
        self.page_turn(out)
    }

    // Appends the display list with the rows of its texts.
    fn show_rows(&mut self, spacing: u32, align: Align, out: &mut Vec<u8>) -> Result<(), NoMemory>
        ensures makes { OnOk result (Makes (rows_step spacing align)
            self.old self.new out.old.items out.new.items) }
        ensures services { self.new.services ≡ self.old.services }
        ensures clock { self.new.page.clock ≡ self.old.page.clock }
        ensures grows { StartsWith out.new.items out.old.items }
    {
        let mut lines = Vec::new(self.alloc);
        self.page.show(&mut lines)?;
        add_rows(&lines, spacing, align, out)
    }

    /// Lets time pass, to the first moment when timers are due, whose turn it makes, or else to the
    /// end of so many milliseconds, and appends what is printed. Answers the milliseconds that are
    /// left. After `NoMemory` nothing is said of it, and what was appended stops anywhere.
    pub fn pass_time(&mut self, left: u32, out: &mut Vec<u8>) -> Result<u32, NoMemory>
        requires some { 0 < left }
        requires within { self.old.page.clock + left < 2 ^ 62 }
        ensures steps { IfOk result (λ rest. PassesTime left rest self.old self.new
            out.old.items out.new.items) }
        ensures moment { IfOk result (λ rest. Stops left self.old self.new) }
        ensures services { self.new.services ≡ self.old.services }
        ensures clock { IfOk result
            (λ rest. self.new.page.clock + rest ≡ self.old.page.clock + left) }
        ensures fewer { IfOk result (λ rest. rest < left) }
        ensures grows { StartsWith out.new.items out.old.items }
    {
        let now = self.page.clock();
        let end = now + u64::from(left);
        match self.page.next_due() {
            Some(due) if due <= end => {
                let moment = due.max(now + 1);
                self.due_turn(moment, out)?;
                Ok((end - moment) as u32)
            }
            _ => {
                self.page.pass_time(end);
                Ok(0)
            }
        }
    }

    // Makes the turn of a moment when timers are due, which the clock reaches.
    #[tactic(auto, unfolding(crate::specs::Turns::due_turn))]
    fn due_turn(&mut self, moment: u64, out: &mut Vec<u8>) -> Result<(), NoMemory>
        requires { moment < 2 ^ 62 }
        ensures makes { OnOk result
            (Makes (due_turn moment) self.old self.new out.old.items out.new.items) }
        ensures services { self.new.services ≡ self.old.services }
        ensures clock { OnOk result (self.new.page.clock ≡ moment) }
        ensures grows { StartsWith out.new.items out.old.items }
    {
        self.page.post_due(moment, out)?;
        self.page_turn(out)
    }

    // Makes the turn of the page.
    fn page_turn(&mut self, out: &mut Vec<u8>) -> Result<(), NoMemory>
        ensures makes { OnOk result
            (Makes page_turn self.old self.new out.old.items out.new.items) }
        ensures services { self.new.services ≡ self.old.services }
        ensures clock { self.new.page.clock ≡ self.old.page.clock }
        ensures grows { StartsWith out.new.items out.old.items }
    {
        self.page.turn(&mut self.modules, out)
    }

    // Takes a section as a table, or as one of the component on its PID.
    fn take(&mut self, pid: u16, section: &[u8], out: &mut Vec<u8>) -> Result<(), NoMemory>
        requires { 12 ≤ length section.now }
        ensures makes { OnOk result (Makes (step_of_section pid section.now)
            self.old self.new out.old.items out.new.items) }
        ensures clock { OnOk result (self.new.page.clock ≡ self.old.page.clock) }
        ensures grows { StartsWith out.new.items out.old.items }
    {
        law_of_unread_sections();
        if self.services.reads_table(pid) {
            return self.take_table(pid, section, out);
        }
        match self.services.component_of(pid) {
            Some(component) => self.take_data(pid, component, section, out),
            None => Ok(()),
        }
    }

    // Takes a section as a table: the components become those of the map, and what left with others
    // is told.
    fn take_table(&mut self, pid: u16, section: &[u8], out: &mut Vec<u8>) -> Result<(), NoMemory>
        requires { 12 ≤ length section.now }
        ensures makes { OnOk result (Makes (λ s. step_of_table (with_handled pid section.now s))
            self.old self.new out.old.items out.new.items) }
        ensures clock { OnOk result (self.new.page.clock ≡ self.old.page.clock) }
        ensures grows { StartsWith out.new.items out.old.items }
    {
        law_of_posted_changes();
        law_of_component_map();
        self.services.feed(pid, section)?;
        let gone = self.modules.set_components(&self.services)?;
        post_gone(&mut self.page, gone.as_slice(), out)
    }

    // Takes a section of the component on its PID: the changes that it makes in the modules, and then
    // its event messages.
    fn take_data(
        &mut self,
        pid: u16,
        component: u8,
        section: &[u8],
        out: &mut Vec<u8>,
    ) -> Result<(), NoMemory>
        requires section { 12 ≤ length section.now }
        requires unread { reads_table self.old.services.selection
            self.old.services.service pid ≡ false }
        ensures makes { OnOk result (Makes
            (λ s. step_of_component component section.now (with_handled pid section.now s))
            self.old self.new out.old.items out.new.items) }
        ensures clock { OnOk result (self.new.page.clock ≡ self.old.page.clock) }
        ensures grows { StartsWith out.new.items out.old.items }
    {
        self.take_changes(pid, component, section, out)?;
        self.take_messages(component, section, out)
    }

    // Posts the changes that a section makes in the modules of its component.
    fn take_changes(
        &mut self,
        pid: u16,
        component: u8,
        section: &[u8],
        out: &mut Vec<u8>,
    ) -> Result<(), NoMemory>
        requires section { 12 ≤ length section.now }
        requires unread { reads_table self.old.services.selection
            self.old.services.service pid ≡ false }
        ensures makes { OnOk result (Makes
            (λ s. step_of_modules component section.now (with_handled pid section.now s))
            self.old self.new out.old.items out.new.items) }
        ensures clock { OnOk result (self.new.page.clock ≡ self.old.page.clock) }
        ensures grows { StartsWith out.new.items out.old.items }
    {
        law_of_unread_sections();
        law_of_posted_changes();
        let changes = self.modules.feed(component, section)?;
        post_section_changes(&mut self.page, component, &changes, out)
    }

    // Posts the event messages of a section of a component.
    fn take_messages(
        &mut self,
        component: u8,
        section: &[u8],
        out: &mut Vec<u8>,
    ) -> Result<(), NoMemory>
        requires { 12 ≤ length section.now }
        ensures makes { OnOk result (Makes
            (λ s. of_page s (messages_step component (section_messages section.now) s.page))
            self.old self.new out.old.items out.new.items) }
        ensures clock { OnOk result (self.new.page.clock ≡ self.old.page.clock) }
        ensures grows { StartsWith out.new.items out.old.items }
    {
        let messages = messages_of(self.alloc, section)?;
        post_messages(&mut self.page, component, messages.as_slice(), out)
    }
}

// Posts what a section of a component changed: the data event first, where it is one, and then the
// changes in modules.
fn post_section_changes(
    page: &mut Page,
    component: u8,
    changes: &SectionChanges,
    out: &mut Vec<u8>,
) -> Result<(), NoMemory>
    ensures posted { OnOk result (Posts (map (λ change. (component, change))
        (option_to_list changes.now.data_event ++ changes.now.modules.items))
        page.old page.new out.old.items out.new.items) }
    ensures clock { OnOk result (page.new.clock ≡ page.old.clock) }
    ensures grows { StartsWith out.new.items out.old.items }
{
    law_of_fronts();
    post_event(page, component, &changes.data_event, out)?;
    post_changes(page, component, changes.modules.as_slice(), out)
}

// Posts a data event of a component, where there is one.
fn post_event(
    page: &mut Page,
    component: u8,
    event: &Option<Change>,
    out: &mut Vec<u8>,
) -> Result<(), NoMemory>
    ensures posted { OnOk result (Posts (map (λ change. (component, change))
        (option_to_list event.now)) page.old page.new out.old.items out.new.items) }
    ensures clock { OnOk result (page.new.clock ≡ page.old.clock) }
    ensures grows { StartsWith out.new.items out.old.items }
{
    match event {
        Some(event) => page.post_change(component, event, out),
        None => Ok(()),
    }
}

// Posts the changes in modules of a component, in their order.
fn post_changes(
    page: &mut Page,
    component: u8,
    changes: &[Change],
    out: &mut Vec<u8>,
) -> Result<(), NoMemory>
    ensures posted { OnOk result (Posts (map (λ change. (component, change)) changes.now)
        page.old page.new out.old.items out.new.items) }
    ensures clock { OnOk result (page.new.clock ≡ page.old.clock) }
    ensures grows { StartsWith out.new.items out.old.items }
{
    law_of_fronts();
    'changes: for change in changes {
        page.post_change(component, change, out)?;
    }
    Ok(())
}

// Posts that modules are gone, each with its component, in their order.
fn post_gone(page: &mut Page, gone: &[(u8, Change)], out: &mut Vec<u8>) -> Result<(), NoMemory>
    ensures posted { OnOk result
        (Posts gone.now page.old page.new out.old.items out.new.items) }
    ensures clock { OnOk result (page.new.clock ≡ page.old.clock) }
    ensures grows { StartsWith out.new.items out.old.items }
{
    law_of_fronts();
    'changes: for (component, change) in gone {
        page.post_change(*component, change, out)?;
    }
    Ok(())
}

// Posts event messages of a component, in their order.
fn post_messages(
    page: &mut Page,
    component: u8,
    messages: &[Message],
    out: &mut Vec<u8>,
) -> Result<(), NoMemory>
    ensures posted { OnOk result (page_makes (messages_step component messages.now)
        page.old page.new out.old.items out.new.items) }
    ensures clock { OnOk result (page.new.clock ≡ page.old.clock) }
    ensures grows { StartsWith out.new.items out.old.items }
{
    law_of_fronts();
    'messages: for message in messages {
        page.post_message(component, message, out)?;
    }
    Ok(())
}

// The event messages of a section; one of another table, and one that isn't read, has none.
fn messages_of(alloc: Global, section: &[u8]) -> Result<Vec<Message>, NoMemory>
    requires { 12 ≤ length section.now }
    ensures { IfOk result (λ messages. messages.items ≡ section_messages section.now) }
{
    law_of_messages();
    match read_messages(alloc, section) {
        Ok(messages) => Ok(messages),
        Err(TableRefusal::NoMemory) => Err(NoMemory),
        Err(TableRefusal::Fault(_)) => Ok(Vec::new(alloc)),
    }
}
