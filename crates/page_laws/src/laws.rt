//! What holds of pages. Each function is a law: its contract is what it is for, and it does nothing
//! when it runs.

ghost use Rattle.std.specs.Prelude.{◌≡◌, ℕ, ℤ, ◌+◌, ◌<◌, ◌≤◌, [], Bool, List, IfSome, length};
ghost use Rattle.carousel_blocks.specs.declared.changes.Change.{Change};
ghost use Rattle.event_messages.specs.declared.messages.Message.{Message};
ghost use Rattle.module_locks.specs.Locks.{Modules, most_locks};
ghost use Rattle.es_reader.specs.Readers.{Reader};
ghost use Rattle.page.specs.Dispatches.{turn};
ghost use Rattle.page.specs.Inputs.{
  changes_step,
  due_next,
  due_step,
  key_step,
  message_step,
  with_clock,
  with_date,
  with_random,
};
ghost use Rattle.page.specs.State.{State, opening, still, with_modules};
ghost use Rattle.psi_tables.specs.declared.services.Selection.{Selection};
ghost use Rattle.receiver_core.specs.Outputs.{Input, state_after, state_behind};
ghost use Rattle.receiver_core.specs.Outputs.Input.{Tick};
ghost use Rattle.receiver_core.specs.State as receiver;
ghost use Rattle.page_laws.specs.Soundness.{IsSound};
ghost use Rattle.page_laws.specs.Times.{AreLater};
ghost use Rattle.page_laws.specs.Turns.{Turned};

use bml_reader::law_of_readings;
use browser_objects::{law_of_call_outcomes, law_of_new_objects};
use date_objects::law_of_new_dates;
use dom_tree::{
    law_of_attribute_changes, law_of_nested_nodes, law_of_parents, law_of_text_changes,
};
use es_values::law_of_arrays;
use event_items::law_of_event_items;
use event_messages::law_of_item_firings;
use module_locks::law_of_few_locks;
use script_laws::law_of_passing_values;

/// A page is sound before anything came. Behind each turn, with other modules that have few locks,
/// behind each change in modules, each event message, each key, each moment when timers are due,
/// each move of the clock, each random word and each date it is sound where it was so before.
pub fn law_of_soundness()
    ensures opening { (read : Reader) (area : List ℕ) → IsSound (opening read area) }
    ensures turn { (s : State) → IsSound s → IsSound (turn s).state }
    ensures modules { (modules : Modules) (s : State) → IsSound s
        → length modules.locks ≤ most_locks → IsSound (with_modules modules s) }
    ensures changes { (changes : List (ℕ × Change)) (s : State) → IsSound s
        → IsSound (changes_step changes s).state }
    ensures messages { (component : ℕ) (message : Message) (s : State) → IsSound s
        → IsSound (message_step component message s).state }
    ensures keys { (key : ℕ) (down : Bool) (s : State) → IsSound s
        → IsSound (key_step key down s).state }
    ensures due { (moment : ℕ) (s : State) → IsSound s → IsSound (due_step moment s).state }
    ensures clock { (moment : ℕ) (s : State) → IsSound s → IsSound (with_clock moment s) }
    ensures random { (word : ℕ) (s : State) → IsSound s → IsSound (with_random word s) }
    ensures dates { (day : ℤ) (second : ℕ) (s : State) → IsSound s
        → IsSound (with_date day second s) }
{
    law_of_text_changes();
    law_of_attribute_changes();
    law_of_parents();
    law_of_nested_nodes();
    law_of_readings();
    law_of_event_items();
    law_of_passing_values();
    law_of_few_locks();
    law_of_call_outcomes();
    law_of_new_dates();
    law_of_new_objects();
    law_of_arrays();
}

/// Whatever came to a receiver, its page is sound.
pub fn law_of_sound_receivers()
    ensures behind { (read : Reader) (selection : Selection) (area : List ℕ)
        (inputs : List Input)
        → IsSound (state_behind (receiver.opening read selection area) inputs).page }
{
    law_of_soundness();
    law_of_few_locks();
}

/// A turn makes dispatches until there is none to make, or until it has made 256.
pub fn law_of_turns()
    ensures { (s : State) → Turned s (turn s).state }
{}

/// A turn leaves the clock as it is, and the modules of the service: of these it changes the locks
/// alone.
pub fn law_of_clocks()
    ensures clock { (s : State) → (turn s).state.clock ≡ s.clock }
    ensures service { (s : State) → (turn s).state.modules.stored ≡ s.modules.stored }
{}

/// No timer of a page is overdue: each is due later than the clock. It is so before anything came.
/// Behind each turn, each change in modules, each event message, each key, each random word and each date it is
/// so where it was so before. A moment before which nothing was due may come too: what is due then
/// fires, and comes later. A tick moves the clock of a receiver on by as much as it says, and behind
/// it no timer is overdue. So no timer is overdue, whatever came to a receiver.
pub fn law_of_time()
    ensures later { (s : State) → AreLater s → IfSome (due_next s) (λ due. s.clock < due) }
    ensures opening { (read : Reader) (area : List ℕ) → AreLater (opening read area) }
    ensures turn { (s : State) → AreLater s → AreLater (turn s).state }
    ensures modules { (modules : Modules) (s : State) → AreLater s
        → AreLater (with_modules modules s) }
    ensures changes { (changes : List (ℕ × Change)) (s : State) → AreLater s
        → AreLater (changes_step changes s).state }
    ensures messages { (component : ℕ) (message : Message) (s : State) → AreLater s
        → AreLater (message_step component message s).state }
    ensures keys { (key : ℕ) (down : Bool) (s : State) → AreLater s
        → AreLater (key_step key down s).state }
    ensures random { (word : ℕ) (s : State) → AreLater s → AreLater (with_random word s) }
    ensures dates { (day : ℤ) (second : ℕ) (s : State) → AreLater s
        → AreLater (with_date day second s) }
    ensures due { (moment : ℕ) (s : State) → IsSound s → AreLater s
        → IfSome (due_next s) (λ due. moment ≤ due) → AreLater (due_step moment s).state }
    ensures ticks { (count : ℕ) (s : receiver.State) → IsSound s.page → AreLater s.page
        → AreLater (state_after (Tick count) s).page }
    ensures clock { (count : ℕ) (s : receiver.State)
        → (state_after (Tick count) s).page.clock ≡ s.page.clock + count }
    ensures receivers { (read : Reader) (selection : Selection) (area : List ℕ)
        (inputs : List Input)
        → AreLater (state_behind (receiver.opening read selection area) inputs).page }
{
    law_of_soundness();
    law_of_few_locks();
}

/// A message that is repeated fires no item again: where none of its events was lost, the same
/// message posts nothing, and changes nothing.
pub fn law_of_repeated_messages()
    ensures { (component : ℕ) (message : Message) (s : State)
        → (message_step component message s).text ≡ []
        → message_step component message (message_step component message s).state
        ≡ still (message_step component message s).state }
{
    law_of_item_firings();
}
