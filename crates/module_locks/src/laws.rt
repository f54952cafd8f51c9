//! What holds of modules with locks. Each function is a law: its contract is what it is for, and it
//! does nothing when it runs.

ghost use Rattle.std.specs.Prelude.{◌≡◌, ◌≤◌, ◌<◌, ◌^◌, ◌-◌, ◌++◌, ℕ, List, [], None, Some, true, false, is_some, length, All, AllPairs};
ghost use Rattle.multipart_entities.specs.declared.paths.Path.{Path};
ghost use Rattle.psi_tables.specs.declared.components.Component.{Component};
ghost use Rattle.psi_tables.specs.Components.{AreApart};
ghost use Rattle.module_store.specs.Resources.{look, start_component};
ghost use Rattle.module_store.specs.Resources.Resource.{Found};
ghost use Rattle.module_store.specs.Staying.{tells_of, is_gone};
ghost use Rattle.module_store.specs.DataEvents.{data_event_by};
ghost use Rattle.module_store.specs.Store.{gone_by};
ghost use Rattle.module_store.specs.Copies.{KeptModule};
ghost use Rattle.module_locks.specs.Histories.{Happening, behind_all};
ghost use Rattle.module_locks.specs.Locks.{Modules, changes_by, is_lock_on, kept_on, lock_on, look_up, most_locks, seen, seen_number, start_path, with_lock, with_map, with_section, without_lock};

use module_store::{law_of_found_resources, law_of_start_paths, law_of_undelivered_modules};

/// What is found under a path stays there, with the same bytes, over each section and map that tells
/// no change of its module, but for data events, at which the locks end. A lock changes no look-up.
pub fn law_of_found_paths()
    ensures sections { (modules : Modules) (component : ℕ) (section : List ℕ) (path : Path)
        (bytes : List ℕ) → path.«module» < 2 ^ 16
        → look_up modules path ≡ Found bytes
        → data_event_by component section modules.stored ≡ None
        → (component ≡ path.component
        → tells_of path.«module» (changes_by component section modules) ≡ false)
        → look_up (with_section component section modules) path ≡ Found bytes }
    ensures maps { (modules : Modules) (components : List Component) (path : Path)
        (bytes : List ℕ)
        → path.component < 2 ^ 8 → path.«module» < 2 ^ 16
        → AllPairs AreApart components → look_up modules path ≡ Found bytes
        → is_gone path.component path.«module» (gone_by components modules.stored) ≡ false
        → look_up (with_map components modules) path ≡ Found bytes }
    ensures locks { (modules : Modules) (component number : ℕ) (path : Path)
        → look_up (with_lock component number modules) path ≡ look_up modules path }
{
    law_of_found_resources();
}

/// The start path stays over each section and map that tells no change of its module, but for data
/// events.
pub fn law_of_start_documents()
    ensures sections { (modules : Modules) (component : ℕ) (section : List ℕ)
        → data_event_by component section modules.stored ≡ None
        → (component ≡ start_component
        → tells_of 0 (changes_by component section modules) ≡ false)
        → start_path (with_section component section modules) ≡ start_path modules }
    ensures maps { (modules : Modules) (components : List Component)
        → AllPairs AreApart components
        → is_gone start_component 0 (gone_by components modules.stored) ≡ false
        → start_path (with_map components modules) ≡ start_path modules }
{
    law_of_start_paths();
}

/// A lock stands until its module is unlocked or a data event comes, at which all end. No change of
/// that section tells of a lock, and behind it look-ups find what the carousels have.
pub fn law_of_standing_locks()
    ensures events { (modules : Modules) (component : ℕ) (section : List ℕ)
        → is_some (data_event_by component section modules.stored) ≡ true
        → (with_section component section modules).locks ≡ [] }
    ensures unlocked { (modules : Modules) (component : ℕ) (section : List ℕ)
        → is_some (data_event_by component section modules.stored) ≡ true
        → All (λ change. change.locked ≡ false) (changes_by component section modules) }
    ensures looks { (modules : Modules) (component : ℕ) (section : List ℕ) (path : Path)
        → is_some (data_event_by component section modules.stored) ≡ true
        → look_up (with_section component section modules) path
        ≡ look (with_section component section modules).stored path }
    ensures sections { (modules : Modules) (component : ℕ) (section : List ℕ)
        (its_component number : ℕ)
        → data_event_by component section modules.stored ≡ None
        → is_some (lock_on (with_section component section modules).locks its_component number)
        ≡ is_some (lock_on modules.locks its_component number) }
    ensures locks { (modules : Modules) (component other its_component number : ℕ)
        → is_some (lock_on modules.locks its_component number) ≡ true
        → is_some (lock_on (with_lock component other modules).locks its_component number)
        ≡ true }
{}

/// What a lock keeps stays as it is, whatever section comes that is no data event, and whatever
/// module is locked, and until its own module is unlocked.
pub fn law_of_kept_modules()
    ensures sections { (modules : Modules) (component : ℕ) (section : List ℕ)
        (its_component number : ℕ) (kept : KeptModule)
        → data_event_by component section modules.stored ≡ None
        → kept_on modules.locks its_component number ≡ Some kept
        → kept_on (with_section component section modules).locks its_component number
        ≡ Some kept }
    ensures locks { (modules : Modules) (component other its_component number : ℕ)
        (kept : KeptModule)
        → kept_on modules.locks its_component number ≡ Some kept
        → kept_on (with_lock component other modules).locks its_component number ≡ Some kept }
    ensures unlocks { (modules : Modules) (component other its_component number : ℕ)
        (kept : KeptModule)
        → kept_on modules.locks its_component number ≡ Some kept
        → ((component ≡ its_component) × (other ≡ number) → ⊥)
        → kept_on (without_lock component other modules).locks its_component number
        ≡ Some kept }
    ensures gone { (modules : Modules) (component number : ℕ)
        → lock_on (without_lock component number modules).locks component number ≡ None }
{}

/// In one history of modules, two moments at which the same number is seen of a module, below 2^64 - 1, see the same of it: the
/// same bytes, as an entity or as one resource, and so look-ups find the same under each path of the module. A number is
/// seen exactly where there is something to see.
pub fn law_of_seen_numbers()
    ensures same { (first more : List Happening) (component number delivery : ℕ)
        → number < 2 ^ 16 → delivery < 2 ^ 64 - 1
        → seen_number (behind_all first) component number ≡ Some delivery
        → seen_number (behind_all (first ++ more)) component number ≡ Some delivery
        → seen (behind_all (first ++ more)) component number
        ≡ seen (behind_all first) component number }
    ensures paths { (first more : List Happening) (path : Path) (delivery : ℕ)
        → path.«module» < 2 ^ 16 → delivery < 2 ^ 64 - 1
        → seen_number (behind_all first) path.component path.«module» ≡ Some delivery
        → seen_number (behind_all (first ++ more)) path.component path.«module» ≡ Some delivery
        → look_up (behind_all (first ++ more)) path ≡ look_up (behind_all first) path }
    ensures some { (happened : List Happening) (component number : ℕ) → number < 2 ^ 16
        → is_some (seen_number (behind_all happened) component number)
        ≡ is_some (seen (behind_all happened) component number) }
{
    law_of_undelivered_modules();
}

/// At most 64 locks stand.
pub fn law_of_few_locks()
    ensures sections { (modules : Modules) (component : ℕ) (section : List ℕ)
        → length modules.locks ≤ most_locks
        → length (with_section component section modules).locks ≤ most_locks }
    ensures locks { (modules : Modules) (component number : ℕ)
        → length modules.locks ≤ most_locks
        → length (with_lock component number modules).locks ≤ most_locks }
    ensures unlocks { (modules : Modules) (component number : ℕ)
        → length modules.locks ≤ most_locks
        → length (without_lock component number modules).locks ≤ most_locks }
{}
