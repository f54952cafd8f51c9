//! What the definitions of this crate say together. A law's contract is what it is for, and it does nothing
//! when it runs.

ghost use Rattle.std.specs.Prelude.{◌≡◌, ◌≢◌, ◌↔◌, ◌==◌, ◌++◌, ◌∷◌, ℕ, [], List, slice_get, slice_index, true, false, not, None, Some, Ok, Err};
ghost use Rattle.event_messages.specs.declared.messages.Message.{Message};
ghost use Rattle.event_messages.specs.Messages.{descriptor_table, HasMessages};
ghost use Rattle.event_messages.specs.Reading.{messages_in};
ghost use Rattle.event_messages.specs.Firings.{Happening, IsLastFiring, fires, firing_of, last_version};
ghost use Rattle.event_messages.specs.Kept.{FiringsOfItems, StandsFor, item_fires, with_forgotten, with_noted};
ghost use Rattle.event_messages.specs.ItemFirings.{AreAlike, FiredFor, IsLastAlike, KeptFirings, fires_again, kept_behind, no_firings, with_firing};

use bml_bytes::{TableFault, law_of_fields};
use table_fields::law_of_descriptors;

/// A section has at most one list of messages, and reading gives it.
pub fn law_of_messages()
    ensures one { (section : List ℕ) (messages others : List Message) →
        HasMessages section messages → HasMessages section others → messages ≡ others }
    ensures ok { (section : List ℕ) (messages : List Message) →
        HasMessages section messages ↔ (messages_in section ≡ Ok messages) }
    ensures kind { (section : List ℕ) →
        (slice_index section 0 ≡ descriptor_table) ↔ (messages_in section ≢ Err TableFault.Kind) }
    ensures short { (section : List ℕ) → (messages_in section ≡ Err TableFault.Short) ↔
        ((slice_index section 0 ≡ descriptor_table)
        × ((messages : List Message) → ¬ HasMessages section messages)) }
{
    law_of_fields();
    law_of_descriptors();
}

/// The version that counts for an item, a group and an id is that of the last such firing since the item's firings were
/// forgotten last, and none counts exactly where there is no such firing. So an item fires for a message exactly where
/// that firing had another version, or where there is none; a message that is repeated doesn't fire again, and once its
/// firings are forgotten an item fires for each.
pub fn law_of_firings()
    ensures last { (item group id : ℕ) (happenings : List Happening) (place version : ℕ)
        → IsLastFiring item group id happenings place version
        → last_version item group id happenings ≡ Some version }
    ensures none { (item group id : ℕ) (happenings : List Happening)
        → ((place version : ℕ) → ¬ IsLastFiring item group id happenings place version)
        → last_version item group id happenings ≡ None }
    ensures fired { (item group id version : ℕ) (happenings : List Happening)
        → last_version item group id (happenings ++ Happening.Fires item group id version ∷ [])
        ≡ Some version }
    ensures forgotten { (item group id : ℕ) (happenings : List Happening)
        → last_version item group id (happenings ++ Happening.Forgets item ∷ []) ≡ None }
    ensures fires { (item : ℕ) (message : Message) (happenings : List Happening)
        (place version : ℕ)
        → IsLastFiring item message.group message.id happenings place version
        → fires item message happenings ≡ not (version == message.version) }
    ensures first { (item : ℕ) (message : Message) (happenings : List Happening)
        → ((place version : ℕ)
        → ¬ IsLastFiring item message.group message.id happenings place version)
        → fires item message happenings ≡ true }
    ensures repeated { (item : ℕ) (message : Message) (happenings : List Happening)
        → fires item message (happenings ++ firing_of item message ∷ []) ≡ false }
    ensures anew { (item : ℕ) (message : Message) (happenings : List Happening)
        → fires item message (happenings ++ Happening.Forgets item ∷ []) ≡ true }
{}

/// Say that an item fired for some messages, in their order, since its firings were forgotten. It doesn't fire for a
/// message exactly where the last of them with the message's group and id has its version. So a message that is repeated
/// doesn't fire again, and a firing for another group or id changes nothing. What one item keeps so says the same as all
/// that happened to the items of a document.
pub fn law_of_item_firings()
    ensures last { (message : Message) (messages : List Message)
        → (fires_again message (kept_behind messages) ≡ false)
        ↔ ((last : Message) × IsLastAlike message messages last
        × (last.version ≡ message.version)) }
    ensures first { (message : Message) → fires_again message no_firings ≡ true }
    ensures repeated { (message : Message) (kept : KeptFirings)
        → fires_again message (with_firing message kept) ≡ false }
    ensures others { (message other : Message) (kept : KeptFirings) → ¬ AreAlike other message
        → fires_again message (with_firing other kept) ≡ fires_again message kept }
    ensures agrees { (item : ℕ) (message : Message) (happenings : List Happening)
        (messages : List Message) → FiredFor item happenings messages
        → fires item message happenings ≡ fires_again message (kept_behind messages) }
    ensures each { (item : ℕ) (happenings : List Happening)
        → (messages : List Message) × FiredFor item happenings messages }
{}

/// What is kept of the firings of a document's items stands for all that happened to them: behind a
/// firing that is noted and behind one item's forgetting it stands for one happening more. By it an item
/// fires for a message exactly where it fires by the happenings.
pub fn law_of_kept_firings()
    ensures none { StandsFor [] [] }
    ensures noted { (item : ℕ) (message : Message) (kept : FiringsOfItems)
        (happenings : List Happening) → StandsFor kept happenings
        → StandsFor (with_noted item message kept) (happenings ++ firing_of item message ∷ []) }
    ensures forgotten { (item : ℕ) (kept : FiringsOfItems) (happenings : List Happening)
        → StandsFor kept happenings
        → StandsFor (with_forgotten item kept) (happenings ++ Happening.Forgets item ∷ []) }
    ensures fires { (item : ℕ) (message : Message) (kept : FiringsOfItems)
        (happenings : List Happening) → StandsFor kept happenings
        → item_fires item message kept ≡ fires item message happenings }
{}
