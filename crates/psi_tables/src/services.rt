//! The service that is played and its components, followed from section to section.

ghost use Rattle.std.specs.Prelude.{◌≡◌, ◌≤◌, ◌++◌, ◌∷◌, [], List, length, AllPairs, IfOk, IfSome, OnOk, OnErr, MatchBool, option_copied, option_map};
ghost use Rattle.psi_tables.specs.Components.{pid_in, tag_in, AreApart, AreSameMap};
ghost use Rattle.psi_tables.specs.History.{Handled, is_on as comes_on, pmt_of_program, service_in as chosen, service_in_pat};
ghost use Rattle.psi_tables.specs.Service.{StandsFor, reads_table as table_on, wants as wants_by};
ghost use Rattle.psi_tables.specs.Step.{after_pat, after_pmt, components_in as components_by};

use crate::components::{COMPONENT_LIMIT, Component, are_same_map, components, pid_of, tag_of};
use crate::pat::{PAT_PID, PatEntry, read_pat};
use crate::pmt::read_pmt;
use arrayvec::ArrayVec;
use bml_bytes::{NoMemory, TableRefusal};
use std::alloc::Global;
use std::marker::Model;

/// Which service, or which data, is asked for.
#[derive(Clone, Copy, Debug, PartialEq, Eq)]
pub enum Selection {
    /// The first service of the PAT.
    First,
    /// The service with that program_number.
    Service(u16),
    /// The data on that PID, without any table.
    Pid(u16),
}

/// Follows the tables of a stream: which service is played, on which PIDs its tables and components come, and
/// which components there are. Hand in each intact section by [`feed`](Services::feed).
#[derive(Drop)]
pub struct Services {
    alloc: Global,
    selection: Selection,
    service: Option<PatEntry>,
    map: ArrayVec<Component, COMPONENT_LIMIT>,
}

impl Model for Services {
    ghost use Rattle.std.specs.Prelude.{AllPairs};
    ghost use Rattle.psi_tables.specs.Components.{AreApart};
    ghost use Rattle.psi_tables.specs.Service.{ServicesState};

    ghost Value = { ServicesState };

    ghost view = { λ s. record {
      selection = s.selection;
      service = s.service;
      map = s.map.items;
    } };

    ghost invariant = { λ s. AllPairs AreApart s.map.items };
}

/// The component that the data on a PID asked for is.
const DATA_COMPONENT: u8 = 0x40;

impl Services {
    /// Services to which no section was handed. This takes no memory.
    pub fn new(alloc: Global, selection: Selection) -> Services
        ensures stands { StandsFor result [] }
        ensures selection { result.selection ≡ selection }
    {
        let mut map = ArrayVec::new();
        if let Selection::Pid(pid) = selection {
            map.push(Component {
                tag: DATA_COMPONENT,
                pid,
            });
        }
        Services {
            alloc,
            selection,
            service: None,
            map,
        }
    }

    /// Whether sections on that PID are read as tables: as PATs on PID 0, else as PMTs. The sections of a
    /// component on such a PID are no carousel's.
    pub fn reads_table(&self, pid: u16) -> bool
        ensures { result ≡ table_on self.now.selection self.now.service pid }
    {
        match self.selection {
            Selection::Pid(_) => false,
            Selection::First | Selection::Service(_) => pid == PAT_PID || is_on(&self.service, pid),
        }
    }

    /// Whether sections on that PID are to be put together and handed in.
    pub fn wants(&self, pid: u16) -> bool
        ensures { result ≡ wants_by self.now pid }
    {
        self.reads_table(pid) || self.component_of(pid).is_some()
    }

    /// The PID of a component; None where the component map has no such component.
    pub fn pid_of(&self, component: u8) -> Option<u16>
        ensures { result ≡ pid_in self.now.map component }
    {
        pid_of(self.map.as_slice(), component)
    }

    /// The component on a PID; None where the component map has no such PID.
    pub fn component_of(&self, pid: u16) -> Option<u8>
        ensures { result ≡ tag_in self.now.map pid }
    {
        tag_of(self.map.as_slice(), pid)
    }

    /// The components of the map, at most 16, with distinct tags and distinct PIDs.
    pub fn components(&self) -> &[Component]
        ensures map { result.now ≡ self.now.map }
        ensures apart { AllPairs AreApart result.now }
        ensures few { length result.now ≤ COMPONENT_LIMIT }
    {
        self.map.as_slice()
    }

    /// Hands in the next intact section, with the PID on which it came. Answers whether the component map, as a
    /// map from tags to PIDs, changed.
    pub fn feed(&mut self, pid: u16, section: &[u8]) -> Result<bool, NoMemory>
        requires { 12 ≤ length section.now }
        ensures stands { OnOk result ((history : List Handled) → StandsFor self.old history
            → StandsFor self.new (history ++ record { pid = pid; section = section.now } ∷ [])) }
        ensures changed { IfOk result
            (λ changed. MatchBool changed (¬ AreSameMap self.old.map self.new.map)
            (AreSameMap self.old.map self.new.map)) }
        ensures selection { self.new.selection ≡ self.old.selection }
        ensures no_memory { OnErr result (self.new ≡ self.old) }
    {
        if !self.reads_table(pid) {
            return Ok(false);
        }
        if pid == PAT_PID {
            self.feed_pat(section)?;
            return Ok(false);
        }
        self.feed_pmt(section)
    }

    // Hands in a section on PID 0.
    fn feed_pat(&mut self, section: &[u8]) -> Result<(), NoMemory>
        requires { 12 ≤ length section.now }
        ensures ok { OnOk result (self.new ≡ after_pat self.old section.now) }
        ensures no_memory { OnErr result (self.new ≡ self.old) }
    {
        let named = service_in(self.alloc, self.selection, section)?;
        self.service = named.or(self.service);
        Ok(())
    }

    // Hands in a section on the service's PID, and answers whether the component map changed.
    fn feed_pmt(&mut self, section: &[u8]) -> Result<bool, NoMemory>
        requires { 12 ≤ length section.now }
        ensures ok { OnOk result (self.new ≡ after_pmt self.old section.now) }
        ensures changed { IfOk result
            (λ changed. MatchBool changed (¬ AreSameMap self.old.map self.new.map)
            (AreSameMap self.old.map self.new.map)) }
        ensures no_memory { OnErr result (self.new ≡ self.old) }
    {
        let Some(service) = self.service else {
            return Ok(false);
        };
        let Some(map) = components_in(self.alloc, service.program, section)? else {
            return Ok(false);
        };
        let changed = !are_same_map(self.map.as_slice(), map.as_slice());
        self.map = map;
        Ok(changed)
    }
}

// The service's PMTs come on that PID.
fn is_on(service: &Option<PatEntry>, pid: u16) -> bool
    ensures { result ≡ comes_on service.now pid }
{
    match service {
        None => false,
        Some(service) => service.pid == pid,
    }
}

// The service in the PAT that a section carries, where it is readable and has the service.
fn service_in(
    alloc: Global,
    selection: Selection,
    section: &[u8],
) -> Result<Option<PatEntry>, NoMemory>
    requires { 12 ≤ length section.now }
    ensures { IfOk result (λ service. service ≡ service_in_pat selection section.now) }
{
    match read_pat(alloc, section) {
        Ok(entries) => Ok(choose(selection, entries.as_slice()).copied()),
        Err(TableRefusal::Fault(_)) => Ok(None),
        Err(TableRefusal::NoMemory) => Err(NoMemory),
    }
}

// The entry of the service.
fn choose(selection: Selection, entries: &[PatEntry]) -> Option<&PatEntry>
    ensures { option_copied result ≡ chosen selection entries.now }
{
    match selection {
        Selection::First => first_service(entries),
        Selection::Service(program) => entry_of(entries, program),
        Selection::Pid(_) => None,
    }
}

fn first_service(entries: &[PatEntry]) -> Option<&PatEntry>
    ensures { option_copied result ≡ chosen Selection.First entries.now }
{
    entries.iter().find(|entry| entry.program != 0)
}

fn entry_of(entries: &[PatEntry], program: u16) -> Option<&PatEntry>
    ensures { option_copied result ≡ chosen (Selection.Service program) entries.now }
{
    entries.iter().find(|entry| entry.program == program)
}

// The components of the program's PMT in a section, where it is readable and has the program's number.
fn components_in(
    alloc: Global,
    program: u16,
    section: &[u8],
) -> Result<Option<ArrayVec<Component, COMPONENT_LIMIT>>, NoMemory>
    requires { 12 ≤ length section.now }
    ensures map { IfOk result
        (λ map. option_map (λ map. map.items) map
        ≡ components_by (pmt_of_program program section.now)) }
    ensures apart { IfOk result (λ map. IfSome map (λ map. AllPairs AreApart map.items)) }
{
    match read_pmt(alloc, section) {
        Ok(pmt) if pmt.program == program => Ok(Some(components(pmt.streams.as_slice()))),
        Ok(_) => Ok(None),
        Err(TableRefusal::Fault(_)) => Ok(None),
        Err(TableRefusal::NoMemory) => Err(NoMemory),
    }
}
