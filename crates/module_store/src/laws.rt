//! The laws of the carousel, and what follows for what is found. Each function is a law: its contract is what it is for,
//! and it does nothing when it runs.

ghost use Rattle.std.specs.Prelude.{◌≡◌, ◌≢◌, ◌<◌, ◌^◌, ◌↔◌, ℕ, Bool, List, None, Some, false, AllPairs, Contains};
ghost use Rattle.dsmcc_messages.specs.declared.dii.Dii.{Dii};
ghost use Rattle.carousel_blocks.specs.DataEvents.{data_event, data_event_id};
ghost use Rattle.carousel_blocks.specs.InForce.{in_force};
ghost use Rattle.carousel_blocks.specs.Message.{Indication, Message, message_of};
ghost use Rattle.multipart_entities.specs.declared.paths.Path.{Path};
ghost use Rattle.psi_tables.specs.declared.components.Component.{Component};
ghost use Rattle.psi_tables.specs.Components.{AreApart, pid_in};
ghost use Rattle.module_store.specs.Carousels.{MessageLaws};
ghost use Rattle.module_store.specs.Resources.{look, presence, start_component, start_path};
ghost use Rattle.module_store.specs.Resources.Presence.{Held};
ghost use Rattle.module_store.specs.Resources.Resource.{Found};
ghost use Rattle.module_store.specs.Since.{HasMessagesSince, IsSince, Told, sections_since, stored_behind};
ghost use Rattle.module_store.specs.Staying.{is_delivered, is_gone, tells_of};
ghost use Rattle.module_store.specs.Store.{Stored, at_start, changes_by, messages_of_component, pid_of, with_section, gone_by, with_map};
ghost use Rattle.module_store.specs.DataEvents.{data_event_by, event_id};

use carousel_blocks::{
    law_of_completed_modules, law_of_new_entries, law_of_no_change, law_of_same_modules,
};

/// What one more message makes of a carousel's modules.
pub fn law_of_messages()
    ensures { MessageLaws }
{
    law_of_no_change();
    law_of_same_modules();
    law_of_new_entries();
    law_of_completed_modules();
}

/// What is found under a path stays there, with the same bytes, until a change of its module is told.
pub fn law_of_found_resources()
    ensures sections { (stored : Stored) (component : ℕ) (section : List ℕ) (path : Path)
        (bytes : List ℕ) → path.«module» < 2 ^ 16
        → look stored path ≡ Found bytes
        → (component ≡ path.component
        → tells_of path.«module» (changes_by component section stored) ≡ false)
        → look (with_section component section stored) path ≡ Found bytes }
    ensures maps { (stored : Stored) (components : List Component) (path : Path) (bytes : List ℕ)
        → path.component < 2 ^ 8 → path.«module» < 2 ^ 16
        → AllPairs AreApart components → look stored path ≡ Found bytes
        → is_gone path.component path.«module» (gone_by components stored) ≡ false
        → look (with_map components stored) path ≡ Found bytes }
{
    law_of_messages();
}

/// A module that is held behind a section that doesn't deliver it was held before, with the same bytes, as an entity or as one
/// resource. So was one that is held behind another component map.
pub fn law_of_undelivered_modules()
    ensures sections { (stored : Stored) (component : ℕ) (section : List ℕ)
        (its_component number : ℕ) (is_entity : Bool) (bytes : List ℕ) → number < 2 ^ 16
        → presence (with_section component section stored) its_component number
        ≡ Held is_entity bytes
        → (component ≡ its_component
        → is_delivered number (changes_by component section stored) ≡ false)
        → presence stored its_component number ≡ Held is_entity bytes }
    ensures maps { (stored : Stored) (components : List Component)
        (its_component number : ℕ) (is_entity : Bool) (bytes : List ℕ)
        → presence (with_map components stored) its_component number ≡ Held is_entity bytes
        → presence stored its_component number ≡ Held is_entity bytes }
{
    law_of_messages();
}

/// The start path stays until a change of its module is told.
pub fn law_of_start_paths()
    ensures sections { (stored : Stored) (component : ℕ) (section : List ℕ)
        → (component ≡ start_component → tells_of 0 (changes_by component section stored) ≡ false)
        → start_path (with_section component section stored) ≡ start_path stored }
    ensures maps { (stored : Stored) (components : List Component) → AllPairs AreApart components
        → is_gone start_component 0 (gone_by components stored) ≡ false
        → start_path (with_map components stored) ≡ start_path stored }
{
    law_of_messages();
}

/// Which sections are data events: those of component 0x40 that carry a DII which comes in force after one with another
/// data_event_id. So neither a component's first DII is one, nor one with the transactionId in force, nor a DII of
/// another component. After a map that gives component 0x40 another PID, or none, the next DII is a first one.
pub fn law_of_data_events()
    ensures events { (stored : Stored) (section : List ℕ) (messages : List Message)
        (before after : Dii)
        → messages_of_component stored start_component ≡ Some messages
        → in_force messages ≡ Some before → message_of section ≡ Some (Indication after)
        → after.transaction ≢ before.transaction
        → data_event_id after ≢ data_event_id before
        → data_event_by start_component section stored
        ≡ Some (data_event (data_event_id before) (data_event_id after)) }
    ensures same { (stored : Stored) (section : List ℕ) (messages : List Message)
        (before after : Dii)
        → messages_of_component stored start_component ≡ Some messages
        → in_force messages ≡ Some before → message_of section ≡ Some (Indication after)
        → data_event_id after ≡ data_event_id before
        → data_event_by start_component section stored ≡ None }
    ensures repeats { (stored : Stored) (section : List ℕ) (messages : List Message)
        (before after : Dii)
        → messages_of_component stored start_component ≡ Some messages
        → in_force messages ≡ Some before → message_of section ≡ Some (Indication after)
        → after.transaction ≡ before.transaction
        → data_event_by start_component section stored ≡ None }
    ensures first { (component : ℕ) (section : List ℕ) (stored : Stored)
        → event_id stored ≡ None → data_event_by component section stored ≡ None }
    ensures others { (component : ℕ) (section : List ℕ) (stored : Stored)
        → component ≢ start_component → data_event_by component section stored ≡ None }
    ensures blocks { (component : ℕ) (section : List ℕ) (stored : Stored)
        → ((dii : Dii) → message_of section ≡ Some (Indication dii) → ⊥)
        → data_event_by component section stored ≡ None }
    ensures moved { (components : List Component) (stored : Stored)
        → pid_in components start_component ≢ pid_of stored start_component
        → event_id (with_map components stored) ≡ None }
{}

/// Behind all sections and component maps a component has the PID of the last map, and the messages of its sections since
/// it got this: of those for which the last map before has it on that PID, and so has each map behind.
pub fn law_of_component_messages()
    ensures messages { (told : List Told) (tag : ℕ)
        → HasMessagesSince (stored_behind at_start told) told tag }
    ensures places { (told : List Told) (tag : ℕ) (section : List ℕ)
        → Contains (sections_since tag None told) section
        ↔ ((place : ℕ) × IsSince told tag section place) }
{}
