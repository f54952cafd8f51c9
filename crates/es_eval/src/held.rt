//! What is evaluated at once, and what waits. An expression or a statement is brought to its end at
//! once as far as it can be; where it can't, what comes next is told, and the items that wait for it
//! are held, the innermost first, until they are put on the control stack.

ghost use Rattle.std.specs.Prelude.{◌*◌, ◌≡◌, ◌+◌, ◌++◌, ◌∷◌, [], List, All, IfOk, OnOk};
ghost use Rattle.std.specs.List.{sum_by};
ghost use Rattle.es_reader.specs.Programs.{ToldProgram};
ghost use Rattle.es_eval.specs.declared.held.Ran.TheVariants.{Waits};
ghost use Rattle.es_eval.specs.declared.held.Reached.TheVariants.{Waits as ReachedWaits};
ghost use Rattle.es_eval.specs.declared.works.Work.TheVariants.{Statement as StatementItem};
ghost use Rattle.es_eval.specs.devices.Works.{evaluates};
ghost use Rattle.es_eval.specs.devices.Held.{IsClear, Reaches, items_of_ran, items_of_reached, next_of_ran, next_of_reached, weight_of_ran};
ghost use Rattle.es_eval.specs.devices.Machines.{IsNextLive, IsWorkLive, burden, items_rest, next_run, rest, run_from, turns_of, weight, weight_of_next, world_of};

use crate::machine::Machine;
use crate::nexts::{stopped, value};
use crate::outcomes::StopCause;
use crate::values::LEVELS;
use crate::works::{Given, Now, StatementWork, Work, discard};
use bml_bytes::NoMemory;
use es_reader::Program;
use es_shapes::Code;
use es_values::Value;
use std::alloc::Global;

/// What waits: what comes next, and the items that wait for it, the innermost first.
#[derive(Drop)]
pub struct Held {
    pub next: Now,
    pub items: Vec<Work>,
}

/// How far an expression came: its value is there, or the script is stopped, or it waits for what is
/// held.
#[derive(Drop)]
pub enum Reached {
    Value(Value),
    Stopped(StopCause),
    Waits,
}

/// How far a statement came: it is completed, or the script is stopped, or it waits for what is held.
#[derive(Drop)]
pub enum Ran {
    Given(Given),
    Stopped(StopCause),
    Waits,
}

impl Held {
    /// Nothing waits. This takes no memory.
    pub fn new(alloc: Global) -> Held
        ensures { IsClear result }
    {
        Held {
            next: Now::Gives(Given::Normal),
            items: Vec::new(alloc),
        }
    }

    /// A statement's item more waits, behind the others.
    pub fn holds(&mut self, item: StatementWork) -> Result<Ran, NoMemory>
        ensures waits { IfOk result (λ ran. ran ≡ Waits) }
        ensures next { self.new.next ≡ self.old.next }
        ensures items { OnOk result (self.new.items.items
            ≡ self.old.items.items ++ StatementItem item ∷ []) }
    {
        self.hold(Work::Statement(item))?;
        Ok(Ran::Waits)
    }

    /// The same of any item, where an expression waits.
    pub fn keeps(&mut self, item: Work) -> Result<Reached, NoMemory>
        ensures waits { IfOk result (λ reached. reached ≡ ReachedWaits) }
        ensures next { self.new.next ≡ self.old.next }
        ensures items { OnOk result (self.new.items.items ≡ self.old.items.items ++ item ∷ []) }
    {
        self.hold(item)?;
        Ok(Reached::Waits)
    }

    /// An item more waits, behind the others.
    pub fn hold(&mut self, item: Work) -> Result<(), NoMemory>
        ensures next { self.new.next ≡ self.old.next }
        ensures items { OnOk result (self.new.items.items ≡ self.old.items.items ++ item ∷ []) }
    {
        self.items.push(item)?;
        Ok(())
    }
}

impl Machine {
    /// An expression, with its step, down to as many levels as are evaluated at once.
    pub fn reach(
        &mut self,
        programs: &[Program],
        code: Code,
        held: &mut Held,
    ) -> Result<Reached, NoMemory>
        requires { IsClear held.old }
        ensures { IfOk result (λ reached. Reaches programs.now
            (evaluates programs.now code) self.old
            self.new reached held.new) }
    {
        self.value_of(programs, code, LEVELS, held)
    }

    /// What comes next where a statement came so far: what waits is put on the control stack.
    pub fn settle_run(&mut self, ran: Ran, held: Held) -> Result<Now, NoMemory>
        requires live { IsNextLive self.old (next_of_ran ran held) }
        requires items { All (IsWorkLive self.old.heap) (items_of_ran ran held) }
        ensures run { IfOk result (λ next. (programs : List ToldProgram)
            → run_from programs self.new next ≡ next_run programs (next_of_ran ran held)
            (world_of programs self.old)
            (items_rest programs (items_of_ran ran held) (rest programs self.old.frames))) }
        ensures live { IfOk result (IsNextLive self.new) }
        ensures less { IfOk result (λ next. weight self.new next ≡ burden self.old
            + weight_of_ran ran held) }
    {
        match ran {
            Ran::Given(given) => {
                discard(held);
                Ok(Now::Gives(given))
            }
            Ran::Stopped(cause) => {
                discard(held);
                Ok(stopped(cause))
            }
            Ran::Waits => self.put_held(held),
        }
    }

    /// The same where an expression came so far.
    pub fn settle(&mut self, reached: Reached, held: Held) -> Result<Now, NoMemory>
        requires live { IsNextLive self.old (next_of_reached reached held) }
        requires items { All (IsWorkLive self.old.heap) (items_of_reached reached held) }
        ensures run { IfOk result (λ next. (programs : List ToldProgram)
            → run_from programs self.new next ≡ next_run programs (next_of_reached reached held)
            (world_of programs self.old)
            (items_rest programs (items_of_reached reached held) (rest programs self.old.frames))) }
        ensures live { IfOk result (IsNextLive self.new) }
        ensures less { IfOk result (λ next. weight self.new next ≡ burden self.old
            + (2 * sum_by turns_of (items_of_reached reached held)
            + weight_of_next (next_of_reached reached held))) }
    {
        match reached {
            Reached::Value(given) => {
                discard(held);
                Ok(value(given))
            }
            Reached::Stopped(cause) => {
                discard(held);
                Ok(stopped(cause))
            }
            Reached::Waits => self.put_held(held),
        }
    }

    /// Puts what waits on the control stack, the outermost first.
    pub fn put_held(&mut self, held: Held) -> Result<Now, NoMemory>
        requires live { IsNextLive self.old held.next }
        requires items { All (IsWorkLive self.old.heap) held.items.items }
        ensures next { IfOk result (λ next. next ≡ held.next) }
        ensures rest { OnOk result ((programs : List ToldProgram) → rest programs self.new.frames
            ≡ items_rest programs held.items.items (rest programs self.old.frames)) }
        ensures world { OnOk result ((programs : List ToldProgram)
            → world_of programs self.new ≡ world_of programs self.old) }
        ensures live { IfOk result (IsNextLive self.new) }
        ensures more { OnOk result (burden self.new
            ≡ burden self.old + 2 * sum_by turns_of held.items.items) }
    {
        let Held { next, mut items } = held;
        'items: while let Some(item) = items.pop() {
            self.put(item)?;
        }
        Ok(next)
    }
}
