//! What is done with what is given to an item of a statement, and the turns of `for .. in`.

ghost use Rattle.std.specs.Prelude.{◌≡◌, ◌<◌, [], List, length, IfOk, Some, if◌then◌else◌};
ghost use Rattle.es_reader.specs.Programs.{ToldProgram};
ghost use Rattle.es_values.specs.Heaps.{IsLive};
ghost use Rattle.es_values.specs.Values.{truth_of};
ghost use Rattle.es_eval.specs.declared.works.Given.TheVariants.{Broke as GivenBroke, Continued as GivenContinued, Normal as GivenNormal, Value as GivenValue};
ghost use Rattle.es_eval.specs.declared.works.StatementWork.TheVariants.{Declared as DeclaredItem};
ghost use Rattle.es_eval.specs.declared.works.Use.TheVariants.{Visit as VisitUse};
ghost use Rattle.es_eval.specs.declared.works.Work.TheVariants.{Statement as StatementItem};
ghost use Rattle.es_eval.specs.Actions.{behind, gives};
ghost use Rattle.es_shapes.specs.devices.Parts.{statement_at, statements_from};
ghost use Rattle.es_eval.specs.devices.Machines.{AreLive, GoesOn, IsLess, IsNextLive, IsWorkLive, values_of_given};
ghost use Rattle.es_eval.specs.Rows.{statements as spec_statements, visit_all, visited_place};
ghost use Rattle.es_eval.specs.Rows.Completion.{Normal};
ghost use Rattle.es_eval.specs.devices.Held.{IsClear, Runs};
ghost use Rattle.es_shapes.specs.devices.Shapes.{visitor_shaped};
ghost use Rattle.es_eval.specs.devices.Works.{as_completion, enters, loop_again, loop_body, loop_task, runs, statement_work_row, turns, use_row, visit_task};

use crate::held::{Held, Ran};
use crate::machine::Machine;
use crate::nexts::stopped;
use crate::outcomes::StopCause;
use crate::values::LEVELS;
use crate::works::{Given, Loop, Now, Place, StatementWork, Use, Visit};
use bml_bytes::{NoMemory, Text};
use es_reader::Program;
use es_shapes::{Code, Listing, VisitorShape, part};
use es_values::Value;

impl Machine {
    /// What is done with a part of a statement.
    pub fn on_statement(
        &mut self,
        programs: &[Program],
        item: StatementWork,
        given: Given,
    ) -> Result<Now, NoMemory>
        requires item { IsWorkLive self.old.heap (StatementItem item) }
        requires given { AreLive self.old.heap (values_of_given given) }
        ensures run { IfOk result (λ next. GoesOn programs.now self.old
            (statement_work_row programs.now item given) self.new next) }
        ensures live { IfOk result (IsNextLive self.new) }
        ensures less { IfOk result (IsLess self.old self.new) }
    {
        match given {
            Given::Value(value) => self.on_statement_value(programs, item, value),
            Given::Normal => self.on_normal(programs, item),
            Given::Broke => Ok(Now::Gives(on_break(&item))),
            Given::Continued => self.on_continue(programs, item),
            Given::Returned(value) => Ok(Now::Gives(Given::Returned(value))),
        }
    }

    // What is done with the value of an expression in a statement.
    fn on_statement_value(
        &mut self,
        programs: &[Program],
        item: StatementWork,
        given: Value,
    ) -> Result<Now, NoMemory>
        requires item { IsWorkLive self.old.heap (StatementItem item) }
        requires given { IsLive self.old.heap given }
        ensures run { IfOk result (λ next. GoesOn programs.now self.old
            (statement_work_row programs.now item (GivenValue given)) self.new next) }
        ensures live { IfOk result (IsNextLive self.new) }
        ensures less { IfOk result (IsLess self.old self.new) }
    {
        match item {
            StatementWork::Discard => Ok(Now::Gives(Given::Normal)),
            StatementWork::Declared(name, code, next) => {
                self.declare_value(programs, &name, given, code, next)
            }
            StatementWork::If(body) => {
                if given.truth() {
                    self.execute(programs, body)
                } else {
                    Ok(Now::Gives(Given::Normal))
                }
            }
            StatementWork::IfElse(body, other) => {
                let chosen = if given.truth() { body } else { other };
                self.execute(programs, chosen)
            }
            StatementWork::Test(given_loop) => self.tested(programs, given_loop, &given),
            StatementWork::NextTurn(given_loop) => self.turn(programs, given_loop),
            StatementWork::Object(visitor, body) => self.visit_all(programs, visitor, body, &given),
            StatementWork::Return => Ok(self.leave(Given::Returned(given))),
            StatementWork::Statements(_, _) | StatementWork::Body(_) | StatementWork::Visiting(_) =>
                Ok(Now::Gives(Given::Value(given))),
        }
    }

    // The value of a declarator is written, and the next one follows.
    fn declare_value(
        &mut self,
        programs: &[Program],
        name: &Text,
        given: Value,
        code: Code,
        next: usize,
    ) -> Result<Now, NoMemory>
        requires { IsLive self.old.heap given }
        ensures run { IfOk result (λ now. GoesOn programs.now self.old
            (statement_work_row programs.now (DeclaredItem name.now code next) (GivenValue given))
            self.new now) }
        ensures live { IfOk result (IsNextLive self.new) }
        ensures less { IfOk result (IsLess self.old self.new) }
    {
        let declared = declarator_before(programs, code, next);
        self.write_name(programs, declared, name, given)?;
        let mut held = Held::new(self.heap.allocator());
        let ran = self.run_var(programs, code, next, &mut held)?;
        self.settle_run(ran, held)
    }

    // What is done behind a statement that ended normally.
    fn on_normal(&mut self, programs: &[Program], item: StatementWork) -> Result<Now, NoMemory>
        requires item { IsWorkLive self.old.heap (StatementItem item) }
        ensures run { IfOk result (λ next. GoesOn programs.now self.old
            (statement_work_row programs.now item GivenNormal) self.new next) }
        ensures live { IfOk result (IsNextLive self.new) }
        ensures less { IfOk result (IsLess self.old self.new) }
    {
        match item {
            StatementWork::Statements(listing, next) => self.run_listed(programs, listing, next),
            StatementWork::Body(given_loop) => self.go_on_in(programs, given_loop),
            StatementWork::NextTurn(given_loop) => self.turn(programs, given_loop),
            StatementWork::Visiting(visit) => self.visit_next(programs, visit),
            _ => Ok(Now::Gives(Given::Normal)),
        }
    }

    // What is done behind a `continue`.
    fn on_continue(&mut self, programs: &[Program], item: StatementWork) -> Result<Now, NoMemory>
        requires item { IsWorkLive self.old.heap (StatementItem item) }
        ensures run { IfOk result (λ next. GoesOn programs.now self.old
            (statement_work_row programs.now item GivenContinued) self.new next) }
        ensures live { IfOk result (IsNextLive self.new) }
        ensures less { IfOk result (IsLess self.old self.new) }
    {
        match item {
            StatementWork::Body(given_loop) => self.go_on_in(programs, given_loop),
            StatementWork::Visiting(visit) => self.visit_next(programs, visit),
            _ => Ok(Now::Gives(Given::Continued)),
        }
    }

    /// The statements of a row from a place on.
    pub fn run_listed(
        &mut self,
        programs: &[Program],
        listing: Listing,
        place: usize,
    ) -> Result<Now, NoMemory>
        ensures run { IfOk result (λ next. GoesOn programs.now self.old
            (as_completion (spec_statements (runs programs.now)
            (statements_from programs.now listing place))) self.new next) }
        ensures live { IfOk result (IsNextLive self.new) }
        ensures less { IfOk result (IsLess self.old self.new) }
    {
        let mut held = Held::new(self.heap.allocator());
        let ran = self.run_row(programs, listing, place, LEVELS, &mut held)?;
        self.settle_run(ran, held)
    }

    // The turns of a loop that are left.
    fn turn(&mut self, programs: &[Program], given_loop: Loop) -> Result<Now, NoMemory>
        ensures run { IfOk result (λ next. GoesOn programs.now self.old
            (as_completion (turns programs.now (loop_task programs.now given_loop))) self.new
            next) }
        ensures live { IfOk result (IsNextLive self.new) }
        ensures less { IfOk result (IsLess self.old self.new) }
    {
        let mut held = Held::new(self.heap.allocator());
        let ran = self.run_loop(programs, given_loop, LEVELS, &mut held)?;
        self.settle_run(ran, held)
    }

    // What follows the value of a test.
    fn tested(
        &mut self,
        programs: &[Program],
        given_loop: Loop,
        given: &Value,
    ) -> Result<Now, NoMemory>
        ensures run { IfOk result (λ next. GoesOn programs.now self.old (as_completion
            (if truth_of given.now then loop_body programs.now given_loop else gives Normal))
            self.new next) }
        ensures live { IfOk result (IsNextLive self.new) }
        ensures less { IfOk result (IsLess self.old self.new) }
    {
        if !given.truth() {
            return Ok(Now::Gives(Given::Normal));
        }
        let mut held = Held::new(self.heap.allocator());
        let ran = self.body_on(programs, given_loop, &mut held)?;
        self.settle_run(ran, held)
    }

    // The body of a turn, and what comes behind it.
    fn body_on(
        &mut self,
        programs: &[Program],
        given_loop: Loop,
        held: &mut Held,
    ) -> Result<Ran, NoMemory>
        requires { IsClear held.old }
        ensures { IfOk result (λ ran. Runs programs.now 12 (loop_body programs.now given_loop)
            self.old self.new ran held.new) }
    {
        match self.run_body(programs, given_loop, LEVELS, held)? {
            Some(ended) => Ok(ended),
            None => self.again_on(programs, given_loop, held),
        }
    }

    // What comes behind the body, and then the next turn.
    fn again_on(
        &mut self,
        programs: &[Program],
        given_loop: Loop,
        held: &mut Held,
    ) -> Result<Ran, NoMemory>
        requires { IsClear held.old }
        ensures { IfOk result (λ ran. Runs programs.now 12 (loop_again programs.now given_loop)
            self.old self.new ran held.new) }
    {
        match self.run_update(programs, given_loop, held)? {
            Some(ended) => Ok(ended),
            None => self.run_loop(programs, given_loop, LEVELS, held),
        }
    }

    // What comes behind a body that is completed, and then the next turn.
    fn go_on_in(&mut self, programs: &[Program], given_loop: Loop) -> Result<Now, NoMemory>
        ensures run { IfOk result (λ next. GoesOn programs.now self.old
            (as_completion (loop_again programs.now given_loop)) self.new next) }
        ensures live { IfOk result (IsNextLive self.new) }
        ensures less { IfOk result (IsLess self.old self.new) }
    {
        let mut held = Held::new(self.heap.allocator());
        let ran = self.again_on(programs, given_loop, &mut held)?;
        self.settle_run(ran, held)
    }

    // ---- `for .. in`

    // The names of an object at the start; of no object there is no turn.
    fn visit_all(
        &mut self,
        programs: &[Program],
        visitor: VisitorShape,
        body: Code,
        object: &Value,
    ) -> Result<Now, NoMemory>
        requires { IsLive self.old.heap object.now }
        ensures run { IfOk result (λ next. GoesOn programs.now self.old
            (as_completion (visit_all (turns programs.now) (visitor_shaped programs.now visitor)
            (statement_at programs.now body) object.now)) self.new next) }
        ensures live { IfOk result (IsNextLive self.new) }
        ensures less { IfOk result (IsLess self.old self.new) }
    {
        let Value::Object(object) = object else {
            return Ok(Now::Gives(Given::Normal));
        };
        match self.names(*object)? {
            Some(names) => {
                let visit = Visit {
                    visitor,
                    object: *object,
                    names,
                    next: 0,
                    body,
                };
                self.visit_next(programs, visit)
            }
            None => Ok(stopped(StopCause::Budget)),
        }
    }

    // The next name that the object still has.
    fn visit_next(&mut self, programs: &[Program], visit: Visit) -> Result<Now, NoMemory>
        requires { visit.object < length self.old.heap }
        ensures run { IfOk result (λ next. GoesOn programs.now self.old
            (as_completion (turns programs.now (visit_task programs.now visit))) self.new next) }
        ensures live { IfOk result (IsNextLive self.new) }
        ensures less { IfOk result (IsLess self.old self.new) }
    {
        let mut visit = visit;
        'names: while visit.next < visit.names.len() {
            let name = visit.names[visit.next].share()?;
            visit.next += 1;
            if self.has_property(visit.object, &name) {
                return self.visit_name(programs, name, visit);
            }
        }
        Ok(Now::Gives(Given::Normal))
    }

    // A name is written to what is visited, and then the body runs.
    fn visit_name(
        &mut self,
        programs: &[Program],
        name: Text,
        visit: Visit,
    ) -> Result<Now, NoMemory>
        requires { visit.object < length self.old.heap }
        ensures run { IfOk result (λ next. GoesOn programs.now self.old
            (behind (visited_place (enters programs.now)
            (visitor_shaped programs.now visit.visitor))
            (use_row programs.now (VisitUse name visit))) self.new next) }
        ensures live { IfOk result (IsNextLive self.new) }
        ensures less { IfOk result (IsLess self.old self.new) }
    {
        match visit.visitor.share()? {
            VisitorShape::VisitTarget(target) => {
                self.enter_target(programs, target, Use::Visit(name, visit))
            }
            VisitorShape::VisitVar(local, code) => {
                if !self.take_step() {
                    return Ok(stopped(StopCause::Budget));
                }
                self.on_place(programs, Use::Visit(name, visit), Place::Name(local, code))
            }
        }
    }
}

// The declarator of a `var` before the one at a place, and the `var` itself where there is none.
fn declarator_before(programs: &[Program], code: Code, next: usize) -> Code {
    match next.checked_sub(1) {
        Some(place) => part(programs, code, place).unwrap_or(code),
        None => code,
    }
}

// What an item makes of a `break`: it ends a loop.
fn on_break(item: &StatementWork) -> Given
    ensures given { (programs : List ToldProgram)
        → statement_work_row programs item.now GivenBroke ≡ gives result }
    ensures live { values_of_given result ≡ [] }
{
    match item {
        StatementWork::Body(_) | StatementWork::Visiting(_) => Given::Normal,
        _ => Given::Broke,
    }
}
