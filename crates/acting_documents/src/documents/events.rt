//! How a document handles the events that were posted in it.

ghost use Rattle.std.specs.Io.{StartsWith};
ghost use Rattle.std.specs.Prelude.{◌≡◌, drop, OnOk};
ghost use Rattle.dom_tree.specs.NodeNumbers.{number_of};
ghost use Rattle.event_queue.specs.Events.{target_of};
ghost use Rattle.event_queue.specs.Queues.{first_of};
ghost use Rattle.module_locks.specs.Standing.{ModulesState};
ghost use Rattle.acting_documents.specs.devices.Doings.{Changes, Does, lent_modules};
ghost use Rattle.acting_documents.specs.Handling.{default_action, focus_of, event_effect as spec_event_effect, event_effect_at, with_key_released, run_handler as spec_run_handler, timer_effect, with_timer_taken, without_first};

use crate::documents::ActingDocument;
use bml_bytes::NoMemory;
use dom_objects::CurrentEvent;
use dom_tree::NodeId;
use event_queue::Event;
use focus_keys::Key;

impl ActingDocument {
    /// Takes the event that waits longest.
    pub fn take_event(&mut self) -> Option<Event>
        ensures event { result ≡ first_of self.old.queue }
        ensures kept { self.new ≡ record self.old { queue = drop 1 self.old.queue } }
        ensures changes { (modules : ModulesState) → Changes without_first
            (lent_modules modules self.old) (lent_modules modules self.new) }
    {
        self.host.stage.take_event()
    }

    /// Handles an event that was taken: its target's handler runs, the default action of a key is
    /// made, or the function of a timer is called.
    #[tactic(auto, unfolding(crate::specs::Handling::event_effect))]
    pub fn handle(&mut self, event: Event, out: &mut Vec<u8>) -> Result<(), NoMemory>
        ensures does { OnOk result
            (Does (spec_event_effect event) self.old self.new out.old.items out.new.items) }
        ensures grows { StartsWith out.new.items out.old.items }
    {
        match event {
            Event::Default(key) => self.act_by_default(key, out),
            Event::KeyUp(key) => {
                self.release(key);
                self.handle_at_focus(event, out)
            }
            Event::KeyDown(_) => self.handle_at_focus(event, out),
            Event::Load | Event::Unload => {
                let body = self.body;
                self.handle_at(body, event, out)
            }
            Event::Timer(number) => self.handle_timer(number, out),
            _ => self.handle_at_node(event, out),
        }
    }

    // Runs the handler of an event at the node that it names, where it names one.
    fn handle_at_node(&mut self, event: Event, out: &mut Vec<u8>) -> Result<(), NoMemory>
        ensures does { OnOk result (Does (event_effect_at (target_of event) event)
            self.old self.new out.old.items out.new.items) }
        ensures grows { StartsWith out.new.items out.old.items }
    {
        let node = event.node().map(NodeId);
        self.handle_at(node, event, out)
    }

    // Calls the function of a timer that fired, where a timer has the number still.
    fn handle_timer(&mut self, number: u32, out: &mut Vec<u8>) -> Result<(), NoMemory>
        ensures does { OnOk result
            (Does (timer_effect number) self.old self.new out.old.items out.new.items) }
        ensures grows { StartsWith out.new.items out.old.items }
    {
        let Some(function) = self.host.stage.timer_function(number)? else {
            self.do_nothing();
            return Ok(());
        };
        self.settle_timer(number);
        self.run_function("timer", &function, out)
    }

    // An event of the timer of a number was taken: it ends where it goes on no more.
    fn settle_timer(&mut self, number: u32)
        ensures { Changes (with_timer_taken number) self.old self.new }
    {
        self.host.stage.settle_timer(number);
    }

    // Ends the active state, where enter is released.
    fn release(&mut self, key: u8)
        ensures { Changes (with_key_released key) self.old self.new }
    {
        if key == Key::Enter.number() {
            self.host.stage.deactivate();
        }
    }

    // Runs the handler of an event at the element that has the focus.
    fn handle_at_focus(&mut self, event: Event, out: &mut Vec<u8>) -> Result<(), NoMemory>
        ensures does { OnOk result (Does (λ s. event_effect_at (focus_of s) event s)
            self.old self.new out.old.items out.new.items) }
        ensures grows { StartsWith out.new.items out.old.items }
    {
        let focus = self.host.stage.focused();
        self.handle_at(focus, event, out)
    }

    // Runs the handler of an event at its target, where it has one.
    fn handle_at(
        &mut self,
        target: Option<NodeId>,
        event: Event,
        out: &mut Vec<u8>,
    ) -> Result<(), NoMemory>
        ensures does { OnOk result (Does (event_effect_at (number_of target) event)
            self.old self.new out.old.items out.new.items) }
        ensures grows { StartsWith out.new.items out.old.items }
    {
        match target {
            Some(node) => self.run_handler(event, node, out),
            None => {
                self.do_nothing();
                Ok(())
            }
        }
    }

    // Runs the handler of an event that a node has, where it has one.
    fn run_handler(&mut self, event: Event, node: NodeId, out: &mut Vec<u8>) -> Result<(), NoMemory>
        ensures does { OnOk result (Does (spec_run_handler event node.0)
            self.old self.new out.old.items out.new.items) }
        ensures grows { StartsWith out.new.items out.old.items }
    {
        let Some(place) = self.handlers.program_of(node, &event) else {
            drop(event);
            self.do_nothing();
            return Ok(());
        };
        let name = event.name();
        let current = CurrentEvent {
            event: Some(event),
            target: node.0,
        };
        self.run_program(name, current, place as usize, out)
    }

    // Makes the default action of a key.
    fn act_by_default(&mut self, key: u8, out: &mut Vec<u8>) -> Result<(), NoMemory>
        ensures does { OnOk result
            (Does (default_action key) self.old self.new out.old.items out.new.items) }
        ensures grows { StartsWith out.new.items out.old.items }
    {
        self.host.stage.prepare(CurrentEvent::none());
        self.host.stage.act_by_default(key)?;
        self.host.stage.give_text(out)
    }
}
