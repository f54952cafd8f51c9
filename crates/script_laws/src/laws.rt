//! What runs of scripts do. Each function is a law: its contract is what it is for, and it does
//! nothing when it runs.

ghost use Rattle.std.specs.Prelude.{◌≡◌, ℕ, Bool, List, true};
ghost use Rattle.es_values.specs.declared.values.Value.{Value};
ghost use Rattle.es_values.specs.Objects.{ObjectState};
ghost use Rattle.es_builtins.specs.Functions.{construction_row, function_row};
ghost use Rattle.es_builtins.specs.Methods.{method_row};
ghost use Rattle.es_eval.specs.declared.outcomes.Outcome.{Outcome};
ghost use Rattle.es_eval.specs.Endings.{MayEnd};
ghost use Rattle.es_eval.specs.Evaluation.{global_run, program_run, run_at};
ghost use Rattle.es_shapes.specs.Syntax.{Program};
ghost use Rattle.es_eval.specs.Worlds.{World, Run};
ghost use Rattle.script_laws.specs.Keeping.{KeepsTest};
ghost use Rattle.script_laws.specs.Passing.{AllPass, HeapPasses, PassesOwn, RowPasses};
ghost use Rattle.script_laws.specs.Soundness.{AreSound, HasNumbers, StaySound, function_limit};
ghost use Rattle.script_laws.specs.Staying.{AreFit, StaysWithin};

use es_builtins::law_of_rows;
use es_values::{Host, law_of_live_values};

/// Where the values of the heap and what is handed in pass a test, so does what a row gives, and so
/// do the values of the heap that it leaves.
pub fn law_of_passing_rows()
    ensures functions { (good : Value → Bool) (limit : ℕ) (heap : List ObjectState) (number : ℕ)
        (arguments : List Value) → PassesOwn limit good → HeapPasses good heap
        → AllPass good arguments → RowPasses good (function_row heap number arguments) }
    ensures constructions { (good : Value → Bool) (limit : ℕ) (heap : List ObjectState)
        (number : ℕ) (arguments : List Value) → PassesOwn limit good → HeapPasses good heap
        → AllPass good arguments → RowPasses good (construction_row heap number arguments) }
    ensures methods { (good : Value → Bool) (limit : ℕ) (heap : List ObjectState) (base : Value)
        (name : List ℕ) (arguments : List Value) → PassesOwn limit good → HeapPasses good heap
        → good base ≡ true → AllPass good arguments
        → RowPasses good (method_row heap base name arguments) }
{}

/// Where the values of globals and heap pass a test, each object that they name is there, and what
/// scripts make by themselves passes, a run stays within the test: what it hands to its host
/// passes, and so does what it leaves. A program's functions have to be among those of the
/// programs.
pub fn law_of_passing_values()
    ensures programs { (good : Value → Bool) (least : ℕ) (programs before : List Program)
        (program : Program) (globals : List (List ℕ × Value)) (heap : List ObjectState)
        (budget : ℕ) → PassesOwn (function_limit programs) good
        → HasNumbers programs before program → AreFit good least globals heap
        → StaysWithin good least (program_run programs before program globals heap budget) }
    ensures places { (good : Value → Bool) (least : ℕ) (programs : List Program) (place : ℕ)
        (globals : List (List ℕ × Value)) (heap : List ObjectState) (budget : ℕ)
        → PassesOwn (function_limit programs) good → AreFit good least globals heap
        → StaysWithin good least (run_at programs place globals heap budget) }
    ensures globals { (good : Value → Bool) (least : ℕ) (programs : List Program)
        (name : List ℕ) (globals : List (List ℕ × Value)) (heap : List ObjectState)
        (budget : ℕ) → PassesOwn (function_limit programs) good
        → AreFit good least globals heap
        → StaysWithin good least (global_run programs name globals heap budget) }
{
    law_of_live_values();
    law_of_rows();
}

/// Where a run stays within a test, and its host keeps to it, the globals and the heap that are left
/// at each of its ends pass.
pub fn law_of_passing_ends<H: Host>()
    ensures runs { (good : Value → Bool) (is_fine : H → Bool) (least : ℕ) (run : Run) (host : H)
        (outcome : Outcome) (w : World) (after : H)
        → KeepsTest good is_fine H.reads H.writes H.calls → is_fine host ≡ true
        → StaysWithin good least run
        → MayEnd H.reads H.writes H.calls run host outcome w after
        → AreFit good least w.globals w.heap × (is_fine after ≡ true) }
{}

/// Where each object that globals and heap name is there, and each function has a number below the
/// limit of these programs, it is so at each end of a run, and no object has gone. A program's
/// functions have to be among those of the programs.
pub fn law_of_values<H: Host>()
    ensures programs { (programs before : List Program) (program : Program)
        (globals : List (List ℕ × Value)) (heap : List ObjectState) (budget : ℕ) (host : H)
        (outcome : Outcome) (w : World) (after : H)
        → HasNumbers programs before program → AreSound (function_limit programs) globals heap
        → MayEnd H.reads H.writes H.calls
        (program_run programs before program globals heap budget) host outcome w after
        → StaySound (function_limit programs) heap w.globals w.heap }
    ensures globals { (programs : List Program) (name : List ℕ)
        (globals : List (List ℕ × Value)) (heap : List ObjectState) (budget : ℕ) (host : H)
        (outcome : Outcome) (w : World) (after : H)
        → AreSound (function_limit programs) globals heap
        → MayEnd H.reads H.writes H.calls
        (global_run programs name globals heap budget) host outcome w after
        → StaySound (function_limit programs) heap w.globals w.heap }
{
    law_of_live_values();
    law_of_rows();
}
