//! How many events of a page's timers wait. The function is a law: its contract is what it is for,
//! and it does nothing when it runs.

ghost use Rattle.std.specs.Prelude.{ℕ, List};
ghost use Rattle.es_reader.specs.Readers.{Reader};
ghost use Rattle.psi_tables.specs.declared.services.Selection.{Selection};
ghost use Rattle.receiver_core.specs.Outputs.{Input, state_behind};
ghost use Rattle.receiver_core.specs.State as receiver;
ghost use Rattle.page_laws.specs.Counts.{AreCounted};

/// Whatever came to a receiver, of each timer of its page that stands so many events are out as wait
/// in the queue: none is forgotten, and none is counted that was dispatched or lost.
pub fn law_of_timer_events()
    ensures { (read : Reader) (selection : Selection) (area : List ℕ) (inputs : List Input)
        → AreCounted (state_behind (receiver.opening read selection area) inputs).page }
{}
