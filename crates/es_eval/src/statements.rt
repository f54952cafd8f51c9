//! Statements, which are run at once as far as they can be (ECMA-262 second edition, 12).

ghost use Rattle.std.specs.Prelude.{◌≡◌, ◌≤◌, ◌<◌, ◌↔◌, IfOk, IsTrue, Some, if◌then◌else◌};
ghost use Rattle.es_values.specs.Values.{truth_of};
ghost use Rattle.es_eval.specs.declared.works.Given.TheVariants.{Normal as GivenNormal};
ghost use Rattle.es_eval.specs.Actions.{and_then, behind, gives};
ghost use Rattle.es_shapes.specs.devices.Parts.{declarator_at, expression_at, statement_at, statements_from};
ghost use Rattle.es_eval.specs.devices.Machines.{GoesOn, IsNextLive, burden, weight};
ghost use Rattle.es_eval.specs.Rows.{declarator_row, gives_normal, return_row, statement_row, statements as spec_statements};
ghost use Rattle.es_eval.specs.Rows.Completion.{Normal};
ghost use Rattle.es_eval.specs.devices.Held.{IsClear, Passes, Runs};
ghost use Rattle.es_shapes.specs.devices.Shapes.{stated};
ghost use Rattle.es_eval.specs.devices.Works.{as_completion, declares, enters, evaluates, executes, runs, turns};

use crate::held::{Held, Ran, Reached};
use crate::machine::Machine;
use crate::outcomes::StopCause;
use crate::values::LEVELS;
use crate::works::{Given, Loop, Now, StatementWork, Work, discard};
use bml_bytes::NoMemory;
use es_reader::Program;
use es_shapes::{Code, Listing, StatementShape, declarator, listed_statement, part, statement};
use es_values::Value;

impl Machine {
    /// A statement is entered, with its step.
    pub fn execute(&mut self, programs: &[Program], code: Code) -> Result<Now, NoMemory>
        ensures run { IfOk result (λ next. GoesOn programs.now self.old
            (as_completion (runs programs.now (statement_at programs.now code))) self.new next) }
        ensures live { IfOk result (IsNextLive self.new) }
        ensures less { IfOk result (λ next. weight self.new next ≤ burden self.old) }
    {
        let mut held = Held::new(self.heap.allocator());
        let ran = self.run_statement(programs, code, LEVELS, &mut held)?;
        self.settle_run(ran, held)
    }

    // A statement, with its step: what it has in it is run at once, down to so many levels.
    #[cycle(statement)]
    pub fn run_statement(
        &mut self,
        programs: &[Program],
        code: Code,
        levels: u32,
        held: &mut Held,
    ) -> Result<Ran, NoMemory>
        requires { IsClear held.old }
        ensures { IfOk result (λ ran. Runs programs.now 0 (executes programs.now code) self.old
            self.new ran held.new) }
    {
        if !self.take_step() {
            return Ok(Ran::Stopped(StopCause::Budget));
        }
        let shape = statement(self.heap.allocator(), programs, code)?;
        self.run_shape(programs, code, shape, levels, held)
    }

    // A statement of this shape, behind its step.
    #[cycle(statement)]
    #[tactic(auto, unfolding(es_shapes::specs::devices::Shapes::stated))]
    fn run_shape(
        &mut self,
        programs: &[Program],
        code: Code,
        shape: StatementShape,
        levels: u32,
        held: &mut Held,
    ) -> Result<Ran, NoMemory>
        requires { IsClear held.old }
        ensures { IfOk result (λ ran. Runs programs.now 12 (statement_row (enters programs.now)
            (runs programs.now) (turns programs.now) (stated programs.now code shape)) self.old
            self.new ran held.new) }
    {
        match shape {
            StatementShape::Block => self.run_row(programs, Listing::Inner(code), 0, levels, held),
            StatementShape::Var => self.run_var(programs, code, 0, held),
            StatementShape::Empty => Ok(Ran::Given(Given::Normal)),
            StatementShape::Evaluate(expression) => self.run_expression(programs, expression, held),
            StatementShape::If(test, body) => self.run_if(programs, test, body, levels, held),
            StatementShape::IfElse(test, body, other) => {
                self.run_if_else(programs, test, body, other, levels, held)
            }
            StatementShape::While(test, body) => {
                let given_loop = Loop {
                    test: Some(test),
                    update: None,
                    body,
                };
                self.run_loop(programs, given_loop, levels, held)
            }
            StatementShape::For(first, test, update, body) => {
                let given_loop = Loop { test, update, body };
                self.run_first(programs, first, given_loop, levels, held)
            }
            StatementShape::ForIn(visitor, object, body) => {
                held.hold(Work::Statement(StatementWork::Object(visitor, body)))?;
                held.next = Now::Evaluate(object);
                Ok(Ran::Waits)
            }
            StatementShape::Continue => Ok(Ran::Given(Given::Continued)),
            StatementShape::Break => Ok(Ran::Given(Given::Broke)),
            StatementShape::Return(Some(value)) => self.run_return(programs, value, held),
            StatementShape::Return(None) => Ok(Ran::Given(Given::Returned(Value::Undefined))),
        }
    }

    // A statement in another, with its step. What stands too deep waits.
    #[cycle(statement)]
    pub fn run_inner(
        &mut self,
        programs: &[Program],
        code: Code,
        levels: u32,
        held: &mut Held,
    ) -> Result<Ran, NoMemory>
        requires { IsClear held.old }
        ensures { IfOk result (λ ran. Runs programs.now 1 (executes programs.now code) self.old
            self.new ran held.new) }
    {
        if levels == 0 {
            held.next = Now::Execute(code);
            return Ok(Ran::Waits);
        }
        self.run_statement(programs, code, levels - 1, held)
    }

    // An expression as a statement.
    fn run_expression(
        &mut self,
        programs: &[Program],
        code: Code,
        held: &mut Held,
    ) -> Result<Ran, NoMemory>
        requires { IsClear held.old }
        ensures { IfOk result (λ ran. Runs programs.now 12
            (behind (evaluates programs.now code) gives_normal) self.old self.new ran held.new) }
    {
        match self.reach(programs, code, held)? {
            Reached::Value(found) => {
                discard(found);
                Ok(Ran::Given(Given::Normal))
            }
            Reached::Stopped(cause) => Ok(Ran::Stopped(cause)),
            Reached::Waits => held.holds(StatementWork::Discard),
        }
    }

    // `return` with a value.
    fn run_return(
        &mut self,
        programs: &[Program],
        code: Code,
        held: &mut Held,
    ) -> Result<Ran, NoMemory>
        requires { IsClear held.old }
        ensures { IfOk result (λ ran. Runs programs.now 12 (return_row (enters programs.now)
            (Some (expression_at programs.now code))) self.old self.new ran held.new) }
    {
        match self.reach(programs, code, held)? {
            Reached::Value(found) => Ok(Ran::Given(Given::Returned(found))),
            Reached::Stopped(cause) => Ok(Ran::Stopped(cause)),
            Reached::Waits => held.holds(StatementWork::Return),
        }
    }

    // `if`.
    #[cycle(statement)]
    fn run_if(
        &mut self,
        programs: &[Program],
        test: Code,
        body: Code,
        levels: u32,
        held: &mut Held,
    ) -> Result<Ran, NoMemory>
        requires { IsClear held.old }
        ensures { IfOk result (λ ran. Runs programs.now 12 (behind (evaluates programs.now test)
            (λ value. if truth_of value then executes programs.now body else gives Normal))
            self.old self.new ran held.new) }
    {
        match self.reach(programs, test, held)? {
            Reached::Value(given) => {
                if !given.truth() {
                    return Ok(Ran::Given(Given::Normal));
                }
                self.run_inner(programs, body, levels, held)
            }
            Reached::Stopped(cause) => Ok(Ran::Stopped(cause)),
            Reached::Waits => held.holds(StatementWork::If(body)),
        }
    }

    // `if` with `else`.
    #[cycle(statement)]
    fn run_if_else(
        &mut self,
        programs: &[Program],
        test: Code,
        body: Code,
        other: Code,
        levels: u32,
        held: &mut Held,
    ) -> Result<Ran, NoMemory>
        requires { IsClear held.old }
        ensures { IfOk result (λ ran. Runs programs.now 12 (behind (evaluates programs.now test)
            (λ value. if truth_of value then executes programs.now body
            else executes programs.now other)) self.old self.new ran held.new) }
    {
        match self.reach(programs, test, held)? {
            Reached::Value(given) => {
                let chosen = if given.truth() { body } else { other };
                self.run_inner(programs, chosen, levels, held)
            }
            Reached::Stopped(cause) => Ok(Ran::Stopped(cause)),
            Reached::Waits => held.holds(StatementWork::IfElse(body, other)),
        }
    }

    // The statements of a row from a place on.
    #[cycle(statement)]
    pub fn run_row(
        &mut self,
        programs: &[Program],
        listing: Listing,
        first: usize,
        levels: u32,
        held: &mut Held,
    ) -> Result<Ran, NoMemory>
        requires { IsClear held.old }
        ensures { IfOk result (λ ran. Runs programs.now 12 (spec_statements (runs programs.now)
            (statements_from programs.now listing first)) self.old self.new ran held.new) }
    {
        let mut place = first;
        'row: while let Some(code) = listed_statement(programs, listing, place) {
            match self.run_inner(programs, code, levels, held)? {
                Ran::Given(given) => {
                    if !is_normal(&given) {
                        return Ok(Ran::Given(given));
                    }
                    place += 1;
                }
                Ran::Stopped(cause) => return Ok(Ran::Stopped(cause)),
                Ran::Waits => return held.holds(StatementWork::Statements(listing, place + 1)),
            }
        }
        Ok(Ran::Given(Given::Normal))
    }

    // ---- `var`

    // The names that a `var` declares, from a place on.
    pub fn run_var(
        &mut self,
        programs: &[Program],
        code: Code,
        first: usize,
        held: &mut Held,
    ) -> Result<Ran, NoMemory>
        requires { IsClear held.old }
        ensures { IfOk result (λ ran. Runs programs.now 12 (declares programs.now code first)
            self.old self.new ran held.new) }
    {
        match self.declare_from(programs, code, first, held)? {
            Some(ran) => Ok(ran),
            None => Ok(Ran::Given(Given::Normal)),
        }
    }

    // The names that a `var` declares, from a place on: those with a value are given it.
    pub fn declare_from(
        &mut self,
        programs: &[Program],
        code: Code,
        first: usize,
        held: &mut Held,
    ) -> Result<Option<Ran>, NoMemory>
        requires { IsClear held.old }
        ensures { IfOk result (λ ended. Passes programs.now (declares programs.now code first)
            (gives Normal) self.old self.new ended held.new) }
    {
        let mut place = first;
        'names: while let Some(declared) = part(programs, code, place) {
            place += 1;
            if let Some(ended) = self.declare_one(programs, declared, code, place, held)? {
                return Ok(Some(ended));
            }
        }
        Ok(None)
    }

    // A name that a `var` declares, and those behind it from a place on: where it has a value, it is
    // given that.
    fn declare_one(
        &mut self,
        programs: &[Program],
        declared: Code,
        code: Code,
        next: usize,
        held: &mut Held,
    ) -> Result<Option<Ran>, NoMemory>
        requires { IsClear held.old }
        ensures { IfOk result (λ ended. Passes programs.now
            (and_then (declarator_row (enters programs.now) (declarator_at programs.now declared))
            (declares programs.now code next)) (declares programs.now code next)
            self.old self.new ended held.new) }
    {
        let shape = declarator(self.heap.allocator(), programs, declared)?;
        let Some(value) = shape.value else {
            return Ok(None);
        };
        match self.reach(programs, value, held)? {
            Reached::Value(given) => {
                self.write_name(programs, declared, &shape.name, given)?;
                Ok(None)
            }
            Reached::Stopped(cause) => Ok(Some(Ran::Stopped(cause))),
            Reached::Waits => {
                Ok(Some(held.holds(StatementWork::Declared(shape.name, code, next))?))
            }
        }
    }
}

// Whether a statement is completed normally.
pub fn is_normal(given: &Given) -> bool
    ensures { IsTrue result ↔ given.now ≡ GivenNormal }
{
    matches!(given, Given::Normal)
}
