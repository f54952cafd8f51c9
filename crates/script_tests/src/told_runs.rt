//! Runs: of two programs over the same globals, objects and host, and of globals that are called by
//! their names.

ghost use Rattle.std.specs.Prelude.{◌≤◌, ◌<◌, ◌^◌, length, All, OnOk};
ghost use Rattle.es_shapes.specs.Codes.{declared_by};
ghost use Rattle.es_eval.specs.Worlds.{IsNamedLive};

use crate::lines::Line;
use crate::told_scripts::{ALL_STEPS, program_of, push_global, word};
use bml_bytes::{NoMemory, Text};
use es_eval::{Globals, Outcome, are_few_functions, run, run_global};
use es_reader::Program;
use es_values::{Heap, RowHost};
use std::alloc::Global;

// Runs the program whose place is written, or else calls the global of that name.
fn run_one(
    programs: &[Program],
    named: &[u8],
    globals: &mut Globals,
    heap: &mut Heap,
    host: &mut RowHost,
    steps: u32,
) -> Result<Outcome, NoMemory>
    requires steps { steps ≤ 100000 }
    requires functions { length (declared_by programs.now) < 2 ^ 48 }
    requires live { All (IsNamedLive heap.old) globals.old }
    ensures live { OnOk result (All (IsNamedLive heap.new) globals.new) }
{
    let place = match named {
        [b'0'] => 0,
        [b'1'] => 1,
        _ => {
            let name = Text::of_bytes(heap.allocator(), named)?;
            return run_global(programs, &name, globals, heap, host, steps);
        }
    };
    if place < programs.len() {
        run(programs, place, globals, heap, host, steps)
    } else {
        Err(NoMemory)
    }
}

// Two programs, where both texts are some.
fn programs_of(
    alloc: Global,
    first: &[u8],
    second: &[u8],
) -> Result<Option<Vec<Program>>, NoMemory> {
    let Some(first) = program_of(alloc, first)? else {
        return Ok(None);
    };
    match program_of(alloc, second)? {
        Some(second) => Ok(Some(vec![in alloc; first, second]?)),
        None => Ok(None),
    }
}

// Appends how runs end, each with so many steps.
fn push_ends(
    programs: &[Program],
    runs: &[u8],
    globals: &mut Globals,
    heap: &mut Heap,
    host: &mut RowHost,
    steps: u32,
    out: &mut Line,
) -> Result<(), NoMemory>
    requires steps { steps ≤ 100000 }
    requires functions { length (declared_by programs.now) < 2 ^ 48 }
    requires live { All (IsNamedLive heap.old) globals.old }
    ensures live { OnOk result (All (IsNamedLive heap.new) globals.new) }
{
    for named in runs.split(|code| *code == b' ') {
        let outcome = run_one(programs, named, globals, heap, host, steps)?;
        out.word(word(outcome));
        out.byte(b' ');
    }
    Ok(())
}

// Appends how runs of programs end, and the text of a global behind them.
fn push_runs(
    alloc: Global,
    programs: &[Program],
    runs: &[u8],
    steps: u32,
    shown: &[u8],
    out: &mut Line,
) -> Result<(), NoMemory>
    requires { steps ≤ 100000 }
{
    if !are_few_functions(programs) {
        return Err(NoMemory);
    }
    let mut globals = Globals::new(alloc)?;
    let mut heap = Heap::new(alloc);
    let mut host = RowHost::new(alloc);
    push_ends(
        programs,
        runs,
        &mut globals,
        &mut heap,
        &mut host,
        steps,
        out,
    )?;
    push_global(&globals, &heap, shown, out)
}

/// Appends how runs of two programs end, each with so many steps, and the text of a global behind
/// them. A run is the place of one of the programs, or the name of a global that is called.
pub fn push_told(
    alloc: Global,
    first: &[u8],
    second: &[u8],
    runs: &[u8],
    steps: u32,
    shown: &[u8],
    out: &mut Line,
) -> Result<(), NoMemory> {
    let steps = if steps < ALL_STEPS { steps } else { ALL_STEPS };
    match programs_of(alloc, first, second)? {
        Some(programs) => push_runs(alloc, &programs, runs, steps, shown, out),
        None => {
            out.word(b"no program");
            Ok(())
        }
    }
}
