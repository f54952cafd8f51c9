//! What holds of pages. Each function is a law: its contract is what it is for, and it does nothing
//! when it runs.

ghost use Rattle.std.specs.Prelude.{◌≡◌, ℕ, List, None, Some, true, false, AllPairs, map};
ghost use Rattle.psi_tables.specs.declared.components.Component.{Component};
ghost use Rattle.psi_tables.specs.Components.{AreApart};
ghost use Rattle.carousel_blocks.specs.DataEvents.{data_event};
ghost use Rattle.module_store.specs.Lines.{line_of_change};
ghost use Rattle.module_store.specs.Store.{gone_by};
ghost use Rattle.module_locks.specs.Locks.{changes_by, with_map, with_section};
ghost use Rattle.module_locks.specs.Standing.{ModulesState};
ghost use Rattle.module_locks.specs.Standing as of_modules;
ghost use Rattle.page.specs.Dispatches.{data_event_step, dispatch};
ghost use Rattle.page.specs.Inputs.{change_step};
ghost use Rattle.page.specs.Standing.{PageState, StandsAmid, StandsFor};
ghost use Rattle.page.specs.State.{State, Step, with_modules};
ghost use Rattle.page.specs.State.Wanted.{StartDocument};

use module_locks::{law_of_found_paths, law_of_start_documents};

/// Behind a section or another component map in the modules, the page is in the same state but for
/// them, and the changes that it makes there are still to be posted.
pub fn law_of_posted_changes()
    ensures sections { (page : PageState) (old new : ModulesState) (s : State) (component : ℕ)
        (section : List ℕ) → StandsFor page old s
        → of_modules.StandsFor new (with_section component section s.modules)
        → StandsAmid page new
        (map (λ change. (component, change)) (changes_by component section s.modules))
        (with_modules (with_section component section s.modules) s) }
    ensures maps { (page : PageState) (old new : ModulesState) (s : State)
        (components : List Component) → AllPairs AreApart components → StandsFor page old s
        → of_modules.StandsFor new (with_map components s.modules)
        → StandsAmid page new (gone_by components s.modules.stored)
        (with_modules (with_map components s.modules) s) }
{
    law_of_found_paths();
    law_of_start_documents();
}

/// A data event posts nothing: it prints its line, and waits. As long as one waits, the next dispatch
/// handles it, whatever could be loaded and whatever event waits. Behind that none waits, there is no
/// document, and the start document is wanted, whatever was wanted before.
pub fn law_of_data_events()
    ensures posts { (component before after : ℕ) (s : State)
        → change_step component (data_event before after) s ≡ record {
          state = record s { data_event = true };
          text = line_of_change component (data_event before after);
        } }
    ensures first { (s : State) → s.data_event ≡ true
        → dispatch s ≡ Some (data_event_step (record s { data_event = false })) }
    ensures waits { (s : State) (t : Step) → s.data_event ≡ true → dispatch s ≡ Some t
        → t.state.data_event ≡ false }
    ensures document { (s : State) (t : Step) → s.data_event ≡ true → dispatch s ≡ Some t
        → t.state.document ≡ None }
    ensures wanted { (s : State) (t : Step) → s.data_event ≡ true → dispatch s ≡ Some t
        → t.state.wanted ≡ StartDocument }
{}
