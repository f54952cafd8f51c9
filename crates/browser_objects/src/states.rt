//! What calls act on.

ghost use Rattle.std.specs.Prelude.{◌≡◌, [], None, IfOk};
ghost use Rattle.event_queue.specs.Timers.{no_timers};
ghost use Rattle.browser_objects.specs.Calls.{without_document};
ghost use Rattle.browser_objects.specs.OpenTables.{no_tables};
ghost use Rattle.browser_objects.specs.Registers.{empty_registers as spec_empty_registers};

use crate::open_tables::OpenTables;
use crate::registers::empty_registers;
use bml_bytes::{AreaBytes, NoMemory, Text};
use event_queue::Timers;
use std::alloc::Global;
use std::collections::VecDeque;
use std::marker::Model;

/// What the calls of the browser object act on: the registers Ureg and Greg, 64 texts each, the
/// persistent area, the timers, the random words that are left, the date that the record told last (a
/// day, counted from 1970-01-01, a second of it, and the clock then), and the tables that are open.
#[derive(Drop)]
pub struct BrowserState {
    pub ureg: Vec<Text>,
    pub greg: Vec<Text>,
    pub area: AreaBytes,
    pub timers: Timers,
    pub random: VecDeque<u32>,
    pub date: Option<(i32, u32, u64)>,
    pub tables: OpenTables,
}

impl Model for BrowserState {
    ghost use Rattle.browser_objects.specs.Calls.{BrowserParts};

    ghost Value = { BrowserParts };

    ghost view = { λ state. record {
      ureg = state.ureg.items;
      greg = state.greg.items;
      area = state.area;
      timers = state.timers;
      random = state.random.items;
      date = state.date;
      tables = state.tables;
    } };
}

impl BrowserState {
    /// The state of a receiver with this persistent area: registers are empty, and there is neither a
    /// timer nor a random word nor a date, and no table.
    pub fn new(alloc: Global, area: AreaBytes) -> Result<BrowserState, NoMemory>
        ensures ureg { IfOk result (λ state. state.ureg ≡ spec_empty_registers) }
        ensures greg { IfOk result (λ state. state.greg ≡ spec_empty_registers) }
        ensures area { IfOk result (λ state. state.area ≡ area) }
        ensures timers { IfOk result (λ state. state.timers ≡ no_timers) }
        ensures random { IfOk result (λ state. state.random ≡ []) }
        ensures date { IfOk result (λ state. state.date ≡ None) }
        ensures tables { IfOk result (λ state. state.tables ≡ no_tables) }
    {
        let ureg = empty_registers(alloc)?;
        let greg = empty_registers(alloc)?;
        Ok(BrowserState {
            ureg,
            greg,
            area,
            timers: Timers::new(),
            random: VecDeque::new(alloc),
            date: None,
            tables: OpenTables::new(alloc),
        })
    }

    /// A document ends, and its timers and tables with it. All else stays.
    pub fn end_document(&mut self, alloc: Global)
        ensures { self.new ≡ without_document self.old }
    {
        self.timers = Timers::new();
        self.tables = OpenTables::new(alloc);
    }
}
