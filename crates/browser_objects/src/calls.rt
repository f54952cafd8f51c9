//! The calls of the browser object.

ghost use Rattle.std.specs.Prelude.{◌≡◌, ◌<◌, ◌^◌, All, IfOk, OnErr, OnOk};
ghost use Rattle.es_values.specs.Heaps.{IsLive};
ghost use Rattle.browser_objects.specs.Calls.{Answers, all_calls, call_named, call_of, outcome_of_call, name_of_call};

use crate::array_calls::{read_persistent_array, write_persistent_array};
use crate::date_calls::{add_date, current_date, sub_date};
use crate::effects::{Effect, refusal};
use crate::page_calls::{launch_document, lock_module, unlock_module};
use crate::random_calls::random;
use crate::sounds::play_sound;
use crate::states::BrowserState;
use crate::table_calls::{ask_for_table, count_rows, table_cell, table_search};
use crate::timer_calls::{clear_timer, set_interval};
use bml_bytes::{NoMemory, Text};
use es_values::{Heap, Value};
use multipart_entities::Path;
use std::alloc::Global;

/// A call of the browser object.
#[derive(Clone, Copy)]
pub enum BrowserCall {
    SetInterval,
    ClearTimer,
    LaunchDocument,
    LockModuleOnMemory,
    UnlockModuleOnMemory,
    ReadPersistentArray,
    WritePersistentArray,
    Random,
    PlayRomSound,
    CurrentDate,
    AddDate,
    SubDate,
    OpenTable,
    TableRows,
    TableCell,
    TableSearch,
}

impl BrowserCall {
    /// All of them.
    pub fn all() -> [BrowserCall; 16]
        ensures { result ≡ all_calls }
    {
        [
            BrowserCall::SetInterval,
            BrowserCall::ClearTimer,
            BrowserCall::LaunchDocument,
            BrowserCall::LockModuleOnMemory,
            BrowserCall::UnlockModuleOnMemory,
            BrowserCall::ReadPersistentArray,
            BrowserCall::WritePersistentArray,
            BrowserCall::Random,
            BrowserCall::PlayRomSound,
            BrowserCall::CurrentDate,
            BrowserCall::AddDate,
            BrowserCall::SubDate,
            BrowserCall::OpenTable,
            BrowserCall::TableRows,
            BrowserCall::TableCell,
            BrowserCall::TableSearch,
        ]
    }

    /// Its name, as scripts write it.
    pub fn name(self) -> &'static str
        ensures { result.now ≡ name_of_call self }
    {
        match self {
            BrowserCall::SetInterval => "setInterval",
            BrowserCall::ClearTimer => "clearTimer",
            BrowserCall::LaunchDocument => "launchDocument",
            BrowserCall::LockModuleOnMemory => "lockModuleOnMemory",
            BrowserCall::UnlockModuleOnMemory => "unlockModuleOnMemory",
            BrowserCall::ReadPersistentArray => "readPersistentArray",
            BrowserCall::WritePersistentArray => "writePersistentArray",
            BrowserCall::Random => "random",
            BrowserCall::PlayRomSound => "playRomSound",
            BrowserCall::CurrentDate => "currentDate",
            BrowserCall::AddDate => "addDate",
            BrowserCall::SubDate => "subDate",
            BrowserCall::OpenTable => "openTable",
            BrowserCall::TableRows => "tableRows",
            BrowserCall::TableCell => "tableCell",
            BrowserCall::TableSearch => "tableSearch",
        }
    }

    /// The call of a name; None exactly where no call has it.
    pub fn of_name(name: &Text) -> Option<BrowserCall>
        ensures { result ≡ call_named name.now }
    {
        BrowserCall::all()
            .iter()
            .copied()
            .find(|call| name.is_word(call.name()))
    }
}

/// Calls the browser object by a name. Paths are seen from the base, which is that of the document. An
/// unknown name and arguments of a wrong form give NaN and change nothing. After `NoMemory` the state
/// and the objects are as they were.
pub fn call_browser(
    alloc: Global,
    state: &mut BrowserState,
    base: &Path,
    now: u64,
    name: &Text,
    args: &[Value],
    heap: &mut Heap,
) -> Result<(Value, Effect), NoMemory>
    requires args { All (IsLive heap.old) args.now }
    requires now { now < 2 ^ 62 }
    ensures answers { IfOk result (λ answer. Answers
        (call_of name.now base.now now args.now heap.old state.old).called answer state.new) }
    ensures objects { OnOk result (heap.new
        ≡ (call_of name.now base.now now args.now heap.old state.old).heap) }
    ensures err { OnErr result ((state.new ≡ state.old) × (heap.new ≡ heap.old)) }
{
    match BrowserCall::of_name(name) {
        Some(call) => called(alloc, call, state, base, now, args, heap),
        None => Ok(refusal()),
    }
}

fn called(
    alloc: Global,
    call: BrowserCall,
    state: &mut BrowserState,
    base: &Path,
    now: u64,
    args: &[Value],
    heap: &mut Heap,
) -> Result<(Value, Effect), NoMemory>
    requires args { All (IsLive heap.old) args.now }
    requires now { now < 2 ^ 62 }
    ensures answers { IfOk result (λ answer. Answers
        (outcome_of_call call base.now now args.now heap.old state.old).called answer state.new) }
    ensures objects { OnOk result (heap.new
        ≡ (outcome_of_call call base.now now args.now heap.old state.old).heap) }
    ensures err { OnErr result ((state.new ≡ state.old) × (heap.new ≡ heap.old)) }
{
    match call {
        BrowserCall::SetInterval => set_interval(alloc, state, now, args, &*heap),
        BrowserCall::ClearTimer => clear_timer(state, args, &*heap),
        BrowserCall::LaunchDocument => launch_document(alloc, base, args, &*heap),
        BrowserCall::LockModuleOnMemory => lock_module(alloc, base, args, &*heap),
        BrowserCall::UnlockModuleOnMemory => unlock_module(alloc, base, args, &*heap),
        BrowserCall::ReadPersistentArray => read_persistent_array(alloc, state, args, heap),
        BrowserCall::WritePersistentArray => write_persistent_array(alloc, state, args, &*heap),
        BrowserCall::Random => random(state, args, &*heap),
        BrowserCall::PlayRomSound => play_sound(args, &*heap),
        BrowserCall::CurrentDate => current_date(state, now, heap),
        BrowserCall::AddDate => add_date(args, heap),
        BrowserCall::SubDate => sub_date(args, &*heap),
        BrowserCall::OpenTable => ask_for_table(alloc, base, args, &*heap),
        BrowserCall::TableRows => count_rows(state, args, &*heap),
        BrowserCall::TableCell => table_cell(state, args, &*heap),
        BrowserCall::TableSearch => table_search(alloc, state, args, heap),
    }
}
