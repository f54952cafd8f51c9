//! `while` and `for`, whose turns are made at once as far as they can be (ECMA-262 second edition,
//! 12.6).

ghost use Rattle.std.specs.Prelude.{◌≡◌, ◌<◌, List, IfNone, IfOk, Some, if◌then◌else◌, IfSome};
ghost use Rattle.es_reader.specs.Programs.{ToldProgram};
ghost use Rattle.es_values.specs.Objects.{ObjectState};
ghost use Rattle.es_eval.specs.declared.works.Loop.{Loop as AnyLoop};
ghost use Rattle.es_eval.specs.declared.works.StatementWork.TheVariants.{Body as BodyItem};
ghost use Rattle.es_eval.specs.Actions.{gives};
ghost use Rattle.es_eval.specs.devices.Machines.{AreLive, burden, values_of_given};
ghost use Rattle.es_eval.specs.Rows.Completion.{Normal};
ghost use Rattle.es_eval.specs.devices.Held.{IsClear, Passes, Runs};
ghost use Rattle.es_shapes.specs.declared.shapes.FirstShape.TheVariants.{FirstVar};
ghost use Rattle.es_eval.specs.devices.Works.{as_completion, loop_again, loop_body, loop_task, starts_loop, statement_work_row, turns};

use crate::held::{Held, Ran, Reached};
use crate::machine::Machine;
use crate::outcomes::StopCause;
use crate::works::{Given, Loop, StatementWork, discard};
use bml_bytes::NoMemory;
use es_reader::Program;
use es_shapes::{Code, FirstShape};
use es_values::Value;

impl Machine {
    // The first part of a `for`, and then its turns.
    #[cycle(statement)]
    #[tactic(auto, unfolding(es_shapes::specs::devices::Shapes::first_shaped))]
    pub fn run_first(
        &mut self,
        programs: &[Program],
        first: FirstShape,
        given_loop: Loop,
        levels: u32,
        held: &mut Held,
    ) -> Result<Ran, NoMemory>
        requires { IsClear held.old }
        ensures { IfOk result (λ ran. Runs programs.now 12
            (starts_loop programs.now first given_loop) self.old self.new ran held.new) }
    {
        match first {
            FirstShape::NoFirst => self.run_loop(programs, given_loop, levels, held),
            FirstShape::FirstExpression(expression) => {
                match self.reach(programs, expression, held)? {
                    Reached::Value(found) => {
                        discard(found);
                        self.run_loop(programs, given_loop, levels, held)
                    }
                    Reached::Stopped(cause) => Ok(Ran::Stopped(cause)),
                    Reached::Waits => held.holds(StatementWork::NextTurn(given_loop)),
                }
            }
            FirstShape::FirstVar(code) => {
                self.run_first_var(programs, code, given_loop, levels, held)
            }
        }
    }

    // The same where the first part is a `var`.
    #[cycle(statement)]
    fn run_first_var(
        &mut self,
        programs: &[Program],
        code: Code,
        given_loop: Loop,
        levels: u32,
        held: &mut Held,
    ) -> Result<Ran, NoMemory>
        requires { IsClear held.old }
        ensures { IfOk result (λ ran. Runs programs.now 12
            (starts_loop programs.now (FirstVar code) given_loop) self.old self.new ran held.new) }
    {
        if !self.take_step() {
            return Ok(Ran::Stopped(StopCause::Budget));
        }
        match self.run_var(programs, code, 0, held)? {
            Ran::Given(given) => {
                discard(given);
                self.run_loop(programs, given_loop, levels, held)
            }
            Ran::Stopped(cause) => Ok(Ran::Stopped(cause)),
            Ran::Waits => held.holds(StatementWork::NextTurn(given_loop)),
        }
    }

    // The turns of a loop that are left.
    #[cycle(statement)]
    pub fn run_loop(
        &mut self,
        programs: &[Program],
        given_loop: Loop,
        levels: u32,
        held: &mut Held,
    ) -> Result<Ran, NoMemory>
        requires { IsClear held.old }
        ensures { IfOk result (λ ran. Runs programs.now 12 (turns programs.now
            (loop_task programs.now given_loop)) self.old self.new ran held.new) }
    {
        'turns: loop {
            if let Some(ended) = self.run_turn(programs, given_loop, levels, held)? {
                return Ok(ended);
            }
        }
    }

    // A turn of a loop: its test, its body, and the part behind it.
    #[cycle(statement)]
    pub fn run_turn(
        &mut self,
        programs: &[Program],
        given_loop: Loop,
        levels: u32,
        held: &mut Held,
    ) -> Result<Option<Ran>, NoMemory>
        requires { IsClear held.old }
        ensures turn { IfOk result (λ ended. Passes programs.now
            (turns programs.now (loop_task programs.now given_loop))
            (turns programs.now (loop_task programs.now given_loop)) self.old self.new ended
            held.new) }
        ensures less { IfOk result (λ ended. IfNone ended (burden self.new < burden self.old)) }
    {
        if let Some(ended) = self.run_test(programs, given_loop, held)? {
            return Ok(Some(ended));
        }
        if let Some(ended) = self.run_body(programs, given_loop, levels, held)? {
            return Ok(Some(ended));
        }
        self.run_update(programs, given_loop, held)
    }

    // The test of a loop, where it has one; then its body comes.
    fn run_test(
        &mut self,
        programs: &[Program],
        given_loop: Loop,
        held: &mut Held,
    ) -> Result<Option<Ran>, NoMemory>
        requires { IsClear held.old }
        ensures { IfOk result (λ ended. Passes programs.now
            (turns programs.now (loop_task programs.now given_loop))
            (loop_body programs.now given_loop) self.old self.new ended held.new) }
    {
        let Some(test) = given_loop.test else {
            return Ok(None);
        };
        match self.reach(programs, test, held)? {
            Reached::Value(given) => {
                if given.truth() {
                    return Ok(None);
                }
                Ok(Some(Ran::Given(Given::Normal)))
            }
            Reached::Stopped(cause) => Ok(Some(Ran::Stopped(cause))),
            Reached::Waits => Ok(Some(held.holds(StatementWork::Test(given_loop))?)),
        }
    }

    // The body of a loop; then the part behind it comes.
    #[cycle(statement)]
    pub fn run_body(
        &mut self,
        programs: &[Program],
        given_loop: Loop,
        levels: u32,
        held: &mut Held,
    ) -> Result<Option<Ran>, NoMemory>
        requires { IsClear held.old }
        ensures body { IfOk result (λ ended. Passes programs.now (loop_body programs.now given_loop)
            (loop_again programs.now given_loop) self.old self.new ended held.new) }
        ensures less { IfOk result (λ ended. IfNone ended (burden self.new < burden self.old)) }
    {
        match self.run_inner(programs, given_loop.body, levels, held)? {
            Ran::Given(given) => match behind_body(given) {
                Some(last) => Ok(Some(Ran::Given(last))),
                None => Ok(None),
            },
            Ran::Stopped(cause) => Ok(Some(Ran::Stopped(cause))),
            Ran::Waits => Ok(Some(held.holds(StatementWork::Body(given_loop))?)),
        }
    }

    // The part behind a loop's body, where it has one; then the next turn comes.
    pub fn run_update(
        &mut self,
        programs: &[Program],
        given_loop: Loop,
        held: &mut Held,
    ) -> Result<Option<Ran>, NoMemory>
        requires { IsClear held.old }
        ensures { IfOk result (λ ended. Passes programs.now (loop_again programs.now given_loop)
            (turns programs.now (loop_task programs.now given_loop)) self.old self.new ended
            held.new) }
    {
        let Some(update) = given_loop.update else {
            return Ok(None);
        };
        match self.reach(programs, update, held)? {
            Reached::Value(found) => {
                discard(found);
                Ok(None)
            }
            Reached::Stopped(cause) => Ok(Some(Ran::Stopped(cause))),
            Reached::Waits => Ok(Some(held.holds(StatementWork::NextTurn(given_loop))?)),
        }
    }
}

// What a loop makes of what its body gave; there is none where the part behind the body comes.
pub fn behind_body(given: Given) -> Option<Given>
    ensures again { IfNone result ((programs : List ToldProgram) (given_loop : AnyLoop)
        → statement_work_row programs (BodyItem given_loop) given
        ≡ as_completion (loop_again programs given_loop)) }
    ensures ended { IfSome result (λ last. (programs : List ToldProgram) (given_loop : AnyLoop)
        → statement_work_row programs (BodyItem given_loop) given ≡ gives last) }
    ensures live { IfSome result (λ last. (heap : List ObjectState)
        → AreLive heap (values_of_given given) → AreLive heap (values_of_given last)) }
{
    match given {
        Given::Normal | Given::Continued => None,
        Given::Broke => Some(Given::Normal),
        other => Some(other),
    }
}
