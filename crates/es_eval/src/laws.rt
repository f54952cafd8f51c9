//! What the definition of evaluation says. Each function is a law: its contract is what it is for,
//! and it does nothing when it runs.

ghost use Rattle.std.specs.Prelude.{◌≡◌, ◌≤◌, ◌+◌, ℕ, List, [], length};
ghost use Rattle.std.specs.Option.{option_map_or};
ghost use Rattle.es_values.specs.declared.values.Value.{Value};
ghost use Rattle.es_values.specs.Objects.{ObjectState};
ghost use Rattle.es_eval.specs.declared.outcomes.Outcome.{Outcome};
ghost use Rattle.es_eval.specs.declared.outcomes.Outcome.TheVariants.{Stopped};
ghost use Rattle.es_eval.specs.declared.outcomes.StopCause.TheVariants.{Budget, Unresolved};
ghost use Rattle.es_eval.specs.Actions.{Next, behind, gives};
ghost use Rattle.es_eval.specs.devices.Bounds.{Agree};
ghost use Rattle.es_eval.specs.Calls.{call_value};
ghost use Rattle.es_eval.specs.Endings.{MayEnd, MayRunOut};
ghost use Rattle.es_eval.specs.Evaluation.{all_functions, call_body, ends_normally, enough, evaluate, execute, global_run, global_run_by, program_run, program_run_by, returned, started, world};
ghost use Rattle.es_eval.specs.Rows.{Completion, Task, expression_row, statements, task_row};
ghost use Rattle.es_shapes.specs.Syntax.{Expression, Function, Program, Statements};
ghost use Rattle.es_eval.specs.Unbounded.{called, done, entered, run_statement, valued};
ghost use Rattle.es_eval.specs.Worlds.{World, global, with_more};
ghost use Rattle.es_eval.specs.Worlds.Run.{Over};

use es_values::Host;

/// The bound of the recursion doesn't matter where it is enough for the steps that are left: any
/// two such bounds give the same run. What goes on behind it need only agree on worlds with at most
/// as many steps left, since nothing makes them more. The runs of programs and globals have a bound
/// that is enough.
pub fn law_of_bounds()
    ensures expressions { (functions : List Function) (n m : ℕ) (e : Expression) (w : World)
        (next other : Next Value) → enough w.left ≤ n → enough w.left ≤ m
        → Agree w.left next other
        → evaluate functions n e w next ≡ evaluate functions m e w other }
    ensures tasks { (functions : List Function) (n m : ℕ) (task : Task) (w : World)
        (next other : Next Completion) → enough w.left ≤ n → enough w.left ≤ m
        → Agree w.left next other
        → execute functions n task w next ≡ execute functions m task w other }
    ensures bodies { (functions : List Function) (n m : ℕ) (inner : Statements) (w : World)
        (next other : Next Value) → enough w.left ≤ n → enough w.left ≤ m
        → Agree w.left next other
        → call_body functions n inner w next ≡ call_body functions m inner w other }
    ensures programs { (n : ℕ) (programs before : List Program) (program : Program)
        (globals : List (List ℕ × Value)) (heap : List ObjectState) (budget : ℕ)
        → enough budget ≤ n → program_run programs before program globals heap budget
        ≡ program_run_by n programs before program globals heap budget }
    ensures globals { (n : ℕ) (programs : List Program) (name : List ℕ)
        (globals : List (List ℕ × Value)) (heap : List ObjectState) (budget : ℕ)
        → enough budget ≤ n → global_run programs name globals heap budget
        ≡ global_run_by n programs name globals heap budget }
{}

/// No bound is named: with one that is enough for the steps that are left, each form is its row,
/// whose parts have such bounds again. A program's run is that of its statements, and a global's
/// run is its call.
pub fn law_of_unfolding()
    ensures expressions { (functions : List Function) (e : Expression) (w : World)
        (next : Next Value) → valued functions e w next
        ≡ expression_row functions (called functions) (entered functions) e w next }
    ensures tasks { (functions : List Function) (task : Task) (w : World)
        (next : Next Completion) → done functions task w next
        ≡ task_row (entered functions) (run_statement functions) (done functions) task w next }
    ensures bodies { (functions : List Function) (inner : Statements) (w : World)
        (next : Next Value) → called functions inner w next
        ≡ behind (statements (run_statement functions) inner)
        (λ completion. gives (returned completion)) w next }
    ensures programs { (programs before : List Program) (program : Program)
        (globals : List (List ℕ × Value)) (heap : List ObjectState) (budget : ℕ)
        → program_run programs before program globals heap budget
        ≡ statements (run_statement (all_functions programs)) program.body
        (started (length (all_functions before)) program (world globals heap budget))
        ends_normally }
    ensures globals { (programs : List Program) (name : List ℕ)
        (globals : List (List ℕ × Value)) (heap : List ObjectState) (budget : ℕ)
        → global_run programs name globals heap budget
        ≡ (let functions = all_functions programs in
        let w = world globals heap budget in
        option_map_or (λ value. call_value functions (called functions) value [] w ends_normally)
        (global w name) (Over (Stopped Unresolved) w)) }
{}

/// Whatever the host answers, a run ends with at most the steps left that it had.
pub fn law_of_steps<H: Host>()
    ensures programs { (programs before : List Program) (program : Program)
        (globals : List (List ℕ × Value)) (heap : List ObjectState) (budget : ℕ) (host : H)
        (outcome : Outcome) (w : World) (after : H)
        → MayEnd H.reads H.writes H.calls
        (program_run programs before program globals heap budget) host outcome w after
        → w.left ≤ budget }
    ensures globals { (programs : List Program) (name : List ℕ)
        (globals : List (List ℕ × Value)) (heap : List ObjectState) (budget : ℕ) (host : H)
        (outcome : Outcome) (w : World) (after : H)
        → MayEnd H.reads H.writes H.calls (global_run programs name globals heap budget) host
        outcome w after
        → w.left ≤ budget }
{}

/// Exactly the steps that are given count. A run that isn't stopped for want of steps ends the same
/// with more, and has as many more left; and one that is stopped for want of steps may be so with
/// fewer, by the same answers of its host.
pub fn law_of_more_steps<H: Host>()
    ensures programs { (programs before : List Program) (program : Program)
        (globals : List (List ℕ × Value)) (heap : List ObjectState) (budget more : ℕ) (host : H)
        (outcome : Outcome) (w : World) (after : H) → (outcome ≡ Stopped Budget → ⊥)
        → MayEnd H.reads H.writes H.calls
        (program_run programs before program globals heap budget) host outcome w after
        → MayEnd H.reads H.writes H.calls
        (program_run programs before program globals heap (budget + more)) host outcome
        (with_more more w) after }
    ensures stopped_programs { (programs before : List Program) (program : Program)
        (globals : List (List ℕ × Value)) (heap : List ObjectState) (budget more : ℕ) (host : H)
        (w : World) (after : H) → MayEnd H.reads H.writes H.calls
        (program_run programs before program globals heap (budget + more)) host (Stopped Budget) w
        after → MayRunOut H.reads H.writes H.calls
        (program_run programs before program globals heap budget) host }
    ensures globals { (programs : List Program) (name : List ℕ)
        (globals : List (List ℕ × Value)) (heap : List ObjectState) (budget more : ℕ) (host : H)
        (outcome : Outcome) (w : World) (after : H) → (outcome ≡ Stopped Budget → ⊥)
        → MayEnd H.reads H.writes H.calls (global_run programs name globals heap budget) host
        outcome w after
        → MayEnd H.reads H.writes H.calls (global_run programs name globals heap (budget + more))
        host outcome (with_more more w) after }
    ensures stopped_globals { (programs : List Program) (name : List ℕ)
        (globals : List (List ℕ × Value)) (heap : List ObjectState) (budget more : ℕ) (host : H)
        (w : World) (after : H) → MayEnd H.reads H.writes H.calls
        (global_run programs name globals heap (budget + more)) host (Stopped Budget) w after
        → MayRunOut H.reads H.writes H.calls (global_run programs name globals heap budget) host }
{}
