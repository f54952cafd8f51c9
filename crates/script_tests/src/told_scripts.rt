//! Scripts: how a script ends, the text of its global `s`, and the fewest steps with which it isn't
//! stopped for want of steps. It is run with just these, and with one fewer.

ghost use Rattle.std.specs.Prelude.{◌≤◌, All, IfOk, OnOk};
ghost use Rattle.es_eval.specs.Worlds.{IsNamedLive};

use crate::lines::Line;
use bml_bytes::{NoMemory, Text};
use es_eval::{Globals, Outcome, StopCause, are_few_functions, run};
use es_reader::{Program, SyntaxFault, read_program};
use es_values::{Heap, RowHost};
use std::alloc::Global;

/// The steps that a handler has.
pub const ALL_STEPS: u32 = 100_000;

/// The program of a script, where it is one.
pub fn program_of(alloc: Global, script: &[u8]) -> Result<Option<Program>, NoMemory> {
    let text = Text::of_bytes(alloc, script)?;
    match read_program(alloc, &text) {
        Ok(program) => Ok(Some(program)),
        Err(SyntaxFault::NoMemory) => Err(NoMemory),
        Err(_) => Ok(None),
    }
}

// How a script ends that has so many steps. Appends the text of its global `s`.
fn ending(
    alloc: Global,
    programs: &[Program],
    steps: u32,
    value: &mut Line,
) -> Result<Outcome, NoMemory>
    requires { steps ≤ 100000 }
{
    let mut globals = Globals::new(alloc)?;
    let mut heap = Heap::new(alloc);
    let mut host = RowHost::new(alloc);
    let outcome = run_first(programs, steps, &mut globals, &mut heap, &mut host)?;
    push_global(&globals, &heap, b"s", value)?;
    Ok(outcome)
}

fn run_first(
    programs: &[Program],
    steps: u32,
    globals: &mut Globals,
    heap: &mut Heap,
    host: &mut RowHost,
) -> Result<Outcome, NoMemory>
    requires steps { steps ≤ 100000 }
    requires live { All (IsNamedLive heap.old) globals.old }
    ensures live { OnOk result (All (IsNamedLive heap.new) globals.new) }
{
    if programs.is_empty() || !are_few_functions(programs) {
        return Err(NoMemory);
    }
    run(programs, 0, globals, heap, host, steps)
}

/// Appends the text of a global, where there is one of that name.
pub fn push_global(
    globals: &Globals,
    heap: &Heap,
    name: &[u8],
    out: &mut Line,
) -> Result<(), NoMemory>
    requires { All (IsNamedLive heap.now) globals.now }
{
    let name = Text::of_bytes(heap.allocator(), name)?;
    if let Some(found) = globals.get(&name) {
        out.text(&heap.to_text(found)?);
    }
    Ok(())
}

// Whether a script that has so many steps isn't stopped for want of them.
fn is_enough(alloc: Global, programs: &[Program], steps: u32) -> Result<bool, NoMemory>
    requires { steps ≤ 100000 }
{
    let mut value = Line::new(alloc);
    match ending(alloc, programs, steps, &mut value) {
        Ok(Outcome::Stopped(StopCause::Budget)) => Ok(false),
        Ok(_) => Ok(true),
        Err(NoMemory) => Err(NoMemory),
    }
}

// The fewest steps with which a script isn't stopped for want of steps.
fn fewest_steps(alloc: Global, programs: &[Program]) -> Result<u32, NoMemory>
    ensures { IfOk result (λ steps. steps ≤ 100000) }
{
    if is_enough(alloc, programs, 0)? {
        return Ok(0);
    }
    let mut too_few = 0;
    let mut enough = ALL_STEPS;
    'halves: for _ in 0..17 {
        let middle = too_few + (enough - too_few) / 2;
        if is_enough(alloc, programs, middle)? {
            enough = middle;
        } else {
            too_few = middle;
        }
    }
    Ok(enough)
}

/// The word for how a script ended.
pub fn word(outcome: Outcome) -> &'static [u8] {
    match outcome {
        Outcome::Normal => b"normal",
        Outcome::Ended => b"ended",
        Outcome::Stopped(StopCause::Budget) => b"budget",
        Outcome::Stopped(StopCause::Depth) => b"depth",
        Outcome::Stopped(StopCause::NotCallable) => b"uncallable",
        Outcome::Stopped(StopCause::NotObject) => b"no object",
        Outcome::Stopped(StopCause::Unresolved) => b"unresolved",
    }
}

// Appends how a program ends that has so many steps, and the text of its global `s`.
fn push_ended(
    alloc: Global,
    programs: &[Program],
    steps: u32,
    out: &mut Line,
) -> Result<(), NoMemory>
    requires { steps ≤ 100000 }
{
    let mut value = Line::new(alloc);
    let outcome = ending(alloc, programs, steps, &mut value)?;
    out.word(word(outcome));
    out.byte(b' ');
    out.word(value.told());
    Ok(())
}

// Whether a program that has so many steps ends so, with this text of its global `s`.
fn is_ended(
    alloc: Global,
    programs: &[Program],
    steps: u32,
    expected: &[u8],
) -> Result<bool, NoMemory>
    requires { steps ≤ 100000 }
{
    let mut line = Line::new(alloc);
    push_ended(alloc, programs, steps, &mut line)?;
    Ok(line.told() == expected)
}

// Appends what a program comes to with all steps, and the fewest steps. It is told if it comes to
// anything else with these.
fn push_run(alloc: Global, programs: &[Program], out: &mut Line) -> Result<(), NoMemory> {
    push_ended(alloc, programs, ALL_STEPS, out)?;
    let fewest = fewest_steps(alloc, programs)?;
    let same = is_ended(alloc, programs, fewest, out.told())?;
    out.byte(b' ');
    out.count(u64::from(fewest));
    if !same {
        out.word(b" not with as many");
    }
    Ok(())
}

/// Appends how a script ends that has all steps, and the text of its global `s`.
pub fn push_end(alloc: Global, script: &[u8], out: &mut Line) -> Result<(), NoMemory> {
    match program_of(alloc, script)? {
        Some(program) => {
            let programs = vec![in alloc; program]?;
            push_ended(alloc, &programs, ALL_STEPS, out)
        }
        None => {
            out.word(b"no program");
            Ok(())
        }
    }
}

const BEFORE_ARGUMENTS: &[u8] = b"var u, d = new Date(";

const BEHIND_ARGUMENTS: &[u8] = b"); ";

const BEHIND_STATEMENTS: &[u8] = b" var s = d.$day + \" \" + d.$second + \" \" + d.getFullYear() \
    + \" \" + d.getMonth() + \" \" + d.getDate() + \" \" + d.getDay() + \" \" + d.getHours() \
    + \" \" + d.getMinutes() + \" \" + d.getSeconds();";

/// Appends how a script ends that makes a Date of these arguments and then has these statements, and
/// what the Date has and gives behind them.
pub fn push_date(
    alloc: Global,
    arguments: &[u8],
    statements: &[u8],
    out: &mut Line,
) -> Result<(), NoMemory> {
    let mut script = Vec::new(alloc);
    script.extend_from_slice(BEFORE_ARGUMENTS)?;
    script.extend_from_slice(arguments)?;
    script.extend_from_slice(BEHIND_ARGUMENTS)?;
    script.extend_from_slice(statements)?;
    script.extend_from_slice(BEHIND_STATEMENTS)?;
    push_end(alloc, &script, out)
}

/// Appends what a script comes to.
pub fn push_told(alloc: Global, script: &[u8], out: &mut Line) -> Result<(), NoMemory> {
    match program_of(alloc, script)? {
        Some(program) => {
            let programs = vec![in alloc; program]?;
            push_run(alloc, &programs, out)
        }
        None => {
            out.word(b"no program");
            Ok(())
        }
    }
}
